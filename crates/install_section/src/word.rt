//! The words of [Install] lists, read as names of units.
ghost use Rattle.std.specs.Prelude.{◌≡◌, IfOk, Some};
ghost use Rattle.install_section.specs.Words.{named_by, name_or_reason, skipped};

use std::alloc::{AllocError, Global};
use unit_file::{Notice, NoticeKey, Reason, Word};
use unit_name::{ExpandError, NameError, UnitName, expand};

/// The unit that a word names, or why it names none.
pub(crate) fn named_by(
    alloc: Global,
    identity: &UnitName,
    word: &Word,
) -> Result<Result<UnitName, Reason>, AllocError>
    ensures { IfOk result (λ named. named ≡ named_by identity.now word.now) }
{
    match expand(alloc, word.bytes(), identity) {
        Ok(text) => name_in(alloc, &text),
        Err(ExpandError::UnknownSpecifier) => Ok(Err(Reason::BadSpecifier)),
        Err(ExpandError::OutOfMemory) => Err(AllocError),
    }
}

/// The unit that a text names, or the reason that it names none.
fn name_in(alloc: Global, text: &[u8]) -> Result<Result<UnitName, Reason>, AllocError>
    ensures { IfOk result (λ named. named ≡ name_or_reason (Some text.now)) }
{
    match UnitName::parse(alloc, text) {
        Ok(name) => Ok(Ok(name)),
        Err(NameError::Bad(_)) => Ok(Err(Reason::BadName)),
        Err(NameError::OutOfMemory) => Err(AllocError),
    }
}

/// The notice about a word that is skipped.
pub(crate) fn skipped(
    unit: &UnitName,
    key: NoticeKey,
    word: &Word,
    reason: Reason,
) -> Result<Notice, AllocError>
    ensures { IfOk result (λ notice. notice ≡ skipped unit.now key word.now reason) }
{
    Ok(Notice {
        unit: unit.copy()?,
        key,
        word: word.copy()?,
        reason,
    })
}
