//! Which commands were undone or redone since a row, and the links by which they are found.
//!
//! An accepted undo or redo is a *toggle* of the row that it names. Each row has one number, its
//! link: that of a toggle is the previous toggle of the same row, and that of any other row is the
//! last toggle of itself, or 0 if there is none. So a toggle is the first one of its row since row
//! u if its link is below u, and then it shows whether the row was undone before row u.
ghost use Rattle.std.specs.Prelude.{◌≡◌, ◌≤◌, ◌<◌, ◌-◌, Some, None, length, take, drop, vec_len, vec_capacity};
ghost use Rattle.std.specs.List.{list_any};
ghost use Rattle.tree_access.specs.Keys.{touches};
ghost use Rattle.history.specs.Rows.{row_at, meets, undoer_before, toggled, first_flipped, MarksAgree};
ghost use Rattle.history.specs.Toggles.{was_undone, relinked, sooner, least_flipped, is_flipped, is_in_the_way, AllAlternate, AreLinked};

use crate::row::{Row, RowReply};
use footprint::{Observation, Operation, touches};
use link_tree::Change;

/// Links row m, a new toggle of row n, which isn't a toggle itself.
pub(crate) fn relink(links: &mut Vec<u32>, n: u32, m: u32)
    requires some { 1 ≤ n }
    requires within { n ≤ length links.old.items }
    requires room { vec_len links.old < vec_capacity links.old }
    ensures { links.new.items ≡ relinked links.old.items n m }
{
    let place = n as usize - 1;
    let before = links[place];
    links[place] = m;
    links.push_reserved(before);
}

/// Whether a change touches a key of the reading.
fn is_touched(changes: &[Change], observation: &Observation) -> bool
    ensures { result ≡ list_any (λ change. touches change observation.now.key) changes.now }
{
    changes
        .iter()
        .any(|change| touches(change, &observation.key))
}

/// Whether one of the changes touches a key of the reading.
fn meets(changes: &[Change], reading: &[Observation]) -> bool
    ensures { result ≡ meets changes.now reading.now }
{
    reading
        .iter()
        .any(|observation| is_touched(changes, observation))
}

/// The row that was undone or redone.
fn toggled(reply: &RowReply) -> Option<u32>
    ensures { result ≡ toggled reply.now }
{
    match reply {
        RowReply::Undid(n) | RowReply::Redid(n) => Some(*n),
        RowReply::Answered(_) | RowReply::UndoRefused(_) | RowReply::RedoRefused(_) => None,
    }
}

/// Whether the row that was undone or redone was already undone before.
fn was_undone(reply: &RowReply) -> bool
    ensures { result ≡ was_undone reply.now }
{
    match reply {
        RowReply::Redid(_) => true,
        RowReply::Answered(_)
        | RowReply::Undid(_)
        | RowReply::UndoRefused(_)
        | RowReply::RedoRefused(_) => false,
    }
}

/// Whether a row is a command that is undone now and was not before, or vice versa.
fn is_flipped<O: Operation>(row: &Row<O>, was_undone: bool) -> bool
    ensures { result ≡ is_flipped O.asks was_undone row.now }
{
    row.is_command() && row.undone_by.is_some() != was_undone
}

/// Whether row k is such a command, and one of its changes touches a key of the reading.
fn is_in_the_way<O: Operation>(
    rows: &[Row<O>],
    reading: &[Observation],
    was_undone: bool,
    k: u32,
) -> bool
    ensures { result ≡ is_in_the_way O.asks rows.now reading.now was_undone k }
{
    let place = k as usize;
    if place == 0 || place > rows.len() {
        return false;
    }
    let row = &rows[place - 1];
    is_flipped(row, was_undone) && meets(row.changes.as_slice(), reading)
}

/// The row that this reply toggles, if it is less than `least`, is toggled for the first time since
/// row u, and is in the way; else `least`.
fn sooner<O: Operation>(
    rows: &[Row<O>],
    u: u32,
    reading: &[Observation],
    reply: &RowReply,
    link: u32,
    least: u32,
) -> u32
    ensures { result ≡ sooner (is_in_the_way O.asks rows.now reading.now) u reply.now link least }
{
    match toggled(reply) {
        Some(k) => {
            if k < least && link < u && is_in_the_way(rows, reading, was_undone(reply), k) {
                k
            } else {
                least
            }
        }
        None => least,
    }
}

/// The least row before row n that is in the way since row u, or n if there is none.
fn least_flipped<O: Operation>(
    rows: &[Row<O>],
    links: &[u32],
    u: u32,
    reading: &[Observation],
    n: u32,
) -> u32
    requires some { 1 ≤ u }
    requires each { length links.now ≡ length rows.now }
    ensures { result ≡ least_flipped (is_in_the_way O.asks rows.now reading.now) u (drop (u - 1) rows.now) (drop (u - 1) links.now) n }
{
    let mut least = n;
    for place in u as usize - 1..rows.len() {
        least = sooner(rows, u, reading, &rows[place].reply, links[place], least);
    }
    least
}

/// The first command before row n that survives now and did not just before row u, or did then and
/// does not now, and one of whose changes touches a key of the reading. Only toggles since row u
/// are examined.
pub(crate) fn first_flipped<O: Operation>(
    rows: &[Row<O>],
    links: &[u32],
    u: u32,
    reading: &[Observation],
    n: u32,
) -> Option<u32>
    requires some { 1 ≤ u }
    requires within { u ≤ length rows.now }
    requires linked { AreLinked links.now rows.now }
    requires marks { MarksAgree rows.now }
    requires alternate { AllAlternate rows.now }
    ensures { result ≡ first_flipped O.asks (undoer_before rows.now u) reading.now (take (n - 1) rows.now) 1 }
{
    let least = least_flipped(rows, links, u, reading, n);
    if least < n { Some(least) } else { None }
}
