//! Why calls were refused, as JSON.
ghost use Rattle.std.specs.Prelude.{◌≡◌, IfOk};
ghost use Rattle.tree_access.specs.declared.refusal.Refusal.TheVariants.{IsAlias};
ghost use Rattle.serde_json.specs.View.{members_view};
ghost use Rattle.root_json.specs.Answers.{with_subject, kind, of_unit, of_path, of_row, by_row, refusal_members, undo_refusal_members, redo_refusal_members};

use crate::objects::{Object, put_count, put_word};
use crate::texts::put_text;
use footprint::{Refusal, Subject};
use history::{RedoRefusal, UndoRefusal};
use std::alloc::{AllocError, Global};

/// An object of a kind, which has no other members.
pub(crate) fn kind(alloc: Global, word: &str) -> Result<Object, AllocError>
    ensures { IfOk result (λ object. members_view object.entries ≡ kind word.now) }
{
    let mut object = Object::new(alloc);
    put_word(alloc, &mut object, "kind", word)?;
    Ok(object)
}

pub(crate) fn of_unit(alloc: Global, word: &str, name: &[u8]) -> Result<Object, AllocError>
    ensures { IfOk result (λ object. members_view object.entries ≡ of_unit word.now name.now) }
{
    let mut object = kind(alloc, word)?;
    put_text(alloc, &mut object, "unit", name)?;
    Ok(object)
}

pub(crate) fn of_path(alloc: Global, word: &str, path: &[u8]) -> Result<Object, AllocError>
    ensures { IfOk result (λ object. members_view object.entries ≡ of_path word.now path.now) }
{
    let mut object = kind(alloc, word)?;
    put_text(alloc, &mut object, "path", path)?;
    Ok(object)
}

fn of_subject(alloc: Global, word: &str, subject: &Subject) -> Result<Object, AllocError>
    ensures { IfOk result (λ object. members_view object.entries ≡ with_subject (kind word.now) subject.now) }
{
    match subject {
        Subject::Unit(name) => of_unit(alloc, word, name.text()),
        Subject::Path(path) => of_path(alloc, word, path.text()),
    }
}

fn of_alias(alloc: Global, unit: &[u8], real: &[u8]) -> Result<Object, AllocError>
    ensures { IfOk result (λ object. members_view object.entries ≡ refusal_members (IsAlias unit.now real.now)) }
{
    let mut object = of_unit(alloc, "alias", unit)?;
    put_text(alloc, &mut object, "real", real)?;
    Ok(object)
}

/// Why an operation was refused.
pub(crate) fn refusal(alloc: Global, refusal: &Refusal) -> Result<Object, AllocError>
    ensures { IfOk result (λ object. members_view object.entries ≡ refusal_members refusal.now) }
{
    match refusal {
        Refusal::NotFound(subject) => of_subject(alloc, "not-found", subject),
        Refusal::Masked(subject) => of_subject(alloc, "masked", subject),
        Refusal::Dangling(link) => of_path(alloc, "dangling", link.text()),
        Refusal::BadType(subject) => of_subject(alloc, "bad-type", subject),
        Refusal::NeedsInstance(name) => of_unit(alloc, "needs-instance", name.text()),
        Refusal::NotASlot(path) => of_path(alloc, "not-a-slot", path.text()),
        Refusal::Absent(path) => of_path(alloc, "absent", path.text()),
        Refusal::Exists(path) => of_path(alloc, "exists", path.text()),
        Refusal::IsAlias { unit, real } => of_alias(alloc, unit.text(), real.text()),
        Refusal::TooMany => kind(alloc, "too-many"),
        Refusal::Clash(path) => of_path(alloc, "clash", path.text()),
    }
}

fn of_row(alloc: Global, word: &str, n: u32) -> Result<Object, AllocError>
    ensures { IfOk result (λ object. members_view object.entries ≡ of_row word.now n) }
{
    let mut object = kind(alloc, word)?;
    put_count(alloc, &mut object, "row", n as usize)?;
    Ok(object)
}

fn by_row(alloc: Global, word: &str, n: u32, by: u32) -> Result<Object, AllocError>
    ensures { IfOk result (λ object. members_view object.entries ≡ by_row word.now n by) }
{
    let mut object = of_row(alloc, word, n)?;
    put_count(alloc, &mut object, "by", by as usize)?;
    Ok(object)
}

/// Why an undo of this row was refused.
pub(crate) fn undo_refusal(
    alloc: Global,
    n: u32,
    refusal: UndoRefusal,
) -> Result<Object, AllocError>
    ensures { IfOk result (λ object. members_view object.entries ≡ undo_refusal_members n refusal) }
{
    match refusal {
        UndoRefusal::NoSuchRow => of_row(alloc, "no-such-row", n),
        UndoRefusal::NotACommand => of_row(alloc, "not-a-command", n),
        UndoRefusal::AlreadyUndone(by) => by_row(alloc, "already-undone", n, by),
        UndoRefusal::Blocked(by) => by_row(alloc, "blocked", n, by),
    }
}

/// Why a redo of this row was refused.
pub(crate) fn redo_refusal(
    alloc: Global,
    n: u32,
    refusal: RedoRefusal,
) -> Result<Object, AllocError>
    ensures { IfOk result (λ object. members_view object.entries ≡ redo_refusal_members n refusal) }
{
    match refusal {
        RedoRefusal::NoSuchRow => of_row(alloc, "no-such-row", n),
        RedoRefusal::NotACommand => of_row(alloc, "not-a-command", n),
        RedoRefusal::NotUndone => of_row(alloc, "not-undone", n),
        RedoRefusal::Hindered(by) => by_row(alloc, "hindered", n, by),
    }
}
