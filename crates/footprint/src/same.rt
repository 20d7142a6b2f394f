//! Equality of answers.
ghost use Rattle.std.specs.Prelude.{◌≡◌, ◌↔◌, IsTrue, true};
ghost use Rattle.std.specs.FinMap as map;
ghost use Rattle.unit_file.specs.Notices.{AreAtTheirLines};

use crate::answer::Answer;
use unit_file::{Notice, Notices};

impl Answer {
    /// Whether the answers are equal.
    pub fn same(&self, other: &Answer) -> bool
        ensures { IsTrue result ↔ (self.now ≡ other.now) }
    {
        match (self, other) {
            (Answer::Done(one), Answer::Done(other)) => same_notices(one, other),
            (Answer::State(one), Answer::State(other)) => one == other,
            (Answer::Name(one), Answer::Name(other)) => one == other,
            (Answer::Names(one), Answer::Names(other)) => one.same(other),
            (Answer::Refused(one), Answer::Refused(other)) => one.same(other),
            _ => false,
        }
    }
}

/// Whether the notices are equal, one by one in the order of their lines.
pub fn same_notices(one: &Notices, other: &Notices) -> bool
    ensures { IsTrue result ↔ (one.now ≡ other.now) }
{
    are_alike(one, other)
}

/// Whether the lists of the notices are equal; the position of a notice is its line.
fn are_alike(one: &Notices, other: &Notices) -> bool
    ensures lines { AreAtTheirLines one.now × AreAtTheirLines other.now }
    ensures yes { result ≡ true → map.values one.now ≡ map.values other.now }
    ensures no { map.values one.now ≡ map.values other.now → result ≡ true }
{
    let mut others = other.iter();
    for notice in one.iter() {
        match others.next() {
            Some(other) => {
                if !same_notice(notice, other) {
                    return false;
                }
            }
            None => return false,
        }
    }
    others.next().is_none()
}

fn same_notice(one: &Notice, other: &Notice) -> bool
    ensures { IsTrue result ↔ (one.now ≡ other.now) }
{
    one.unit == other.unit
        && one.key == other.key
        && one.word.bytes() == other.word.bytes()
        && one.reason == other.reason
}
