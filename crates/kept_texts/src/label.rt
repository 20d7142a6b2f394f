//! The texts in the words of a history.
ghost use Rattle.std.specs.Prelude.{◌≡◌, true, IfOk};
ghost use Rattle.kept_texts.specs.Values.{is_label};
ghost use Rattle.kept_texts.specs.Sayings.{label_of};

use std::alloc::AllocError;
use std::marker::Model;

/// The most bytes of a label.
pub const MAX_LABEL: usize = 4096;

/// A login, the name and version of a program, or the path of a root: 1 to 4,096 bytes of any
/// value. `-` means that it isn't known. Contracts see its bytes.
#[derive(Debug, Drop)]
pub struct Label {
    text: Vec<u8>,
}

impl Model for Label {
    ghost use Rattle.std.specs.Prelude.{List, ℕ, IsTrue};
    ghost use Rattle.kept_texts.specs.Values.{is_label};

    ghost Value = { List ℕ };

    ghost view = { λ label. label.text.items };

    ghost invariant = { λ label. IsTrue (is_label label.text.items) };
}

fn is_label(text: &[u8]) -> bool
    ensures { result ≡ is_label text.now }
{
    !text.is_empty() && text.len() <= MAX_LABEL
}

impl Label {
    /// Takes a text as a label; `None` if it is empty or has over 4,096 bytes.
    pub fn of_text(text: Vec<u8>) -> Option<Label>
        ensures { result ≡ label_of text.items }
    {
        if is_label(&text) {
            Some(Label { text })
        } else {
            None
        }
    }

    /// The bytes, which are always those of a label.
    pub fn text(&self) -> &[u8]
        ensures text { result.now ≡ self.now }
        ensures label { is_label self.now ≡ true }
    {
        &self.text
    }

    /// An equal label. Fails only if memory runs out.
    pub fn copy(&self) -> Result<Label, AllocError>
        ensures { IfOk result (λ label. label ≡ self.now) }
    {
        Ok(Label {
            text: self.text.clone()?,
        })
    }
}
