//! Whether rows are equal.
ghost use Rattle.std.specs.Prelude.{◌≡◌, true};
ghost use Rattle.kept_runs.specs.Texts.{shown, all_shown};

use history::Row;
use link_tree::{Change, Entry};
use unit_script::Action;

fn same_entry(one: &Option<Entry>, other: &Option<Entry>) -> bool
    ensures yes { result ≡ true → one.now ≡ other.now }
    ensures no { one.now ≡ other.now → result ≡ true }
{
    match (one, other) {
        (None, None) => true,
        (Some(one), Some(other)) => one.same(other),
        _ => false,
    }
}

fn same_change(one: &Change, other: &Change) -> bool
    ensures yes { result ≡ true → one.now ≡ other.now }
    ensures no { one.now ≡ other.now → result ≡ true }
{
    one.path.text() == other.path.text()
        && same_entry(&one.before, &other.before)
        && same_entry(&one.after, &other.after)
}

fn same_changes(ones: &[Change], others: &[Change]) -> bool
    ensures yes { result ≡ true → ones.now ≡ others.now }
    ensures no { ones.now ≡ others.now → result ≡ true }
{
    if ones.len() != others.len() {
        return false;
    }
    for (i, one) in ones.iter().enumerate() {
        if !same_change(one, &others[i]) {
            return false;
        }
    }
    true
}

/// Whether two rows have the same operator, request, reply and changes.
fn same_row(one: &Row<Action>, other: &Row<Action>) -> bool
    ensures yes { result ≡ true → shown one.now ≡ shown other.now }
    ensures no { shown one.now ≡ shown other.now → result ≡ true }
{
    one.operator.text() == other.operator.text()
        && one.request.same(&other.request)
        && one.reply.same(&other.reply)
        && same_changes(one.changes.as_slice(), other.changes.as_slice())
}

/// Whether there are as many rows, each with the same operator, request, reply and changes.
pub(crate) fn same_rows(ones: &[Row<Action>], others: &[Row<Action>]) -> bool
    ensures yes { result ≡ true → all_shown ones.now ≡ all_shown others.now }
    ensures no { all_shown ones.now ≡ all_shown others.now → result ≡ true }
{
    if ones.len() != others.len() {
        return false;
    }
    for (i, one) in ones.iter().enumerate() {
        if !same_row(one, &others[i]) {
            return false;
        }
    }
    true
}
