//! The whole text of a history.
ghost use Rattle.kept_texts.specs.Readings.{IsCounted};

use crate::reading::Parts;

/// The text of a history that is kept with a root, which is an input of `unitadm`: the inventory of
/// the first tree, the line `== calls`, a header, and runs. Each run has a line with its words, the
/// lines of its calls, and a line with its sums.
#[derive(Debug, Drop)]
pub struct KeptText {
    pub(crate) bytes: Vec<u8>,
    pub(crate) parts: Parts,
    ghost counted: { IsCounted parts },
}
