//! Equality of refusals.
ghost use Rattle.std.specs.Prelude.{◌≡◌, ◌↔◌, IsTrue, true};

use crate::refusal::{Refusal, Subject};

impl Refusal {
    /// Whether the refusals are equal.
    pub fn same(&self, other: &Refusal) -> bool
        ensures { IsTrue result ↔ (self.now ≡ other.now) }
    {
        match (self, other) {
            (Refusal::NotFound(one), Refusal::NotFound(other)) => one.same(other),
            (Refusal::Masked(one), Refusal::Masked(other)) => one.same(other),
            (Refusal::Dangling(one), Refusal::Dangling(other)) => one == other,
            (Refusal::BadType(one), Refusal::BadType(other)) => one.same(other),
            (Refusal::NeedsInstance(one), Refusal::NeedsInstance(other)) => one == other,
            (Refusal::NotASlot(one), Refusal::NotASlot(other)) => one == other,
            (Refusal::Absent(one), Refusal::Absent(other)) => one == other,
            (Refusal::Exists(one), Refusal::Exists(other)) => one == other,
            (
                Refusal::IsAlias { unit, real },
                Refusal::IsAlias {
                    unit: other,
                    real: its,
                },
            ) => unit == other && real == its,
            (Refusal::TooMany, Refusal::TooMany) => true,
            (Refusal::Clash(one), Refusal::Clash(other)) => one == other,
            _ => false,
        }
    }
}

impl Subject {
    /// Whether the subjects are equal. A unit and a path are never equal, even if their texts are.
    pub fn same(&self, other: &Subject) -> bool
        ensures { IsTrue result ↔ (self.now ≡ other.now) }
    {
        match (self, other) {
            (Subject::Unit(one), Subject::Unit(other)) => one == other,
            (Subject::Path(one), Subject::Path(other)) => one == other,
            _ => false,
        }
    }
}
