//! Why operations are refused.
ghost use Rattle.std.specs.Prelude.{◌≡◌, IfOk};

use link_tree::TreePath;
use std::alloc::AllocError;
use unit_name::UnitName;

/// What a refusal names, as it was given: a unit, or a path.
#[derive(Debug, Drop)]
pub enum Subject {
    Unit(UnitName),
    Path(TreePath),
}

impl Subject {
    /// A copy of the subject. Fails only if memory runs out.
    pub fn copy(&self) -> Result<Subject, AllocError>
        ensures { IfOk result (λ subject. subject ≡ self.now) }
    {
        match self {
            Subject::Unit(name) => Ok(Subject::Unit(name.copy()?)),
            Subject::Path(path) => Ok(Subject::Path(path.copy()?)),
        }
    }
}

/// Why an operation was refused.
#[derive(Debug, Drop)]
pub enum Refusal {
    /// Nothing exists under this name or path.
    NotFound(Subject),
    /// It leads to `/dev/null` or to an empty file.
    Masked(Subject),
    /// The chain of links ends at this one, whose target doesn't exist.
    Dangling(TreePath),
    /// It is not a unit, or not of the wanted type.
    BadType(Subject),
    /// The unit is a template, and has no default instance that could be used.
    NeedsInstance(UnitName),
    /// The path is not a slot.
    NotASlot(TreePath),
    /// There is nothing at the slot.
    Absent(TreePath),
    /// Something else is at the path.
    Exists(TreePath),
    /// The unit is an alias of another unit.
    IsAlias { unit: UnitName, real: UnitName },
    /// The units name too many others.
    TooMany,
    /// Links with different targets are wanted at the path.
    Clash(TreePath),
}

impl Refusal {
    /// A copy of the refusal. Fails only if memory runs out.
    pub fn copy(&self) -> Result<Refusal, AllocError>
        ensures { IfOk result (λ refusal. refusal ≡ self.now) }
    {
        match self {
            Refusal::NotFound(subject) => Ok(Refusal::NotFound(subject.copy()?)),
            Refusal::Masked(subject) => Ok(Refusal::Masked(subject.copy()?)),
            Refusal::Dangling(link) => Ok(Refusal::Dangling(link.copy()?)),
            Refusal::BadType(subject) => Ok(Refusal::BadType(subject.copy()?)),
            Refusal::NeedsInstance(name) => Ok(Refusal::NeedsInstance(name.copy()?)),
            Refusal::NotASlot(path) => Ok(Refusal::NotASlot(path.copy()?)),
            Refusal::Absent(path) => Ok(Refusal::Absent(path.copy()?)),
            Refusal::Exists(path) => Ok(Refusal::Exists(path.copy()?)),
            Refusal::IsAlias { unit, real } => Ok(Refusal::IsAlias {
                unit: unit.copy()?,
                real: real.copy()?,
            }),
            Refusal::TooMany => Ok(Refusal::TooMany),
            Refusal::Clash(path) => Ok(Refusal::Clash(path.copy()?)),
        }
    }
}
