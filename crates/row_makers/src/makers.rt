//! The row that made what is at a path.
ghost use Rattle.std.specs.Prelude.{◌≡◌, ◌≤◌, ◌&&◌, is_some, length};
ghost use Rattle.std.specs.List.{list_any};
ghost use Rattle.std.specs.Str.{bytes_eq};
ghost use Rattle.history.specs.Rows.{survivor};
ghost use Rattle.row_makers.specs.Makers.{IsMaker, changes_path, makes};

use footprint::Operation;
use history::{History, Row};
use link_tree::{Change, TreePath};

/// The row that made what is at a path of the history's tree: the last of the rows that survive and
/// changed the path. `None` if no such row changed it, so that it is as in the first tree.
///
/// The time is proportional to the number of changes in all rows.
pub fn maker_of<O: Operation>(history: &History<O>, path: &TreePath) -> Option<u32>
    ensures { IsMaker O.asks history.now.rows path.now result }
{
    maker_in(history.rows(), path)
}

/// Whether one of the changes is at a path.
fn changes_path(changes: &[Change], path: &TreePath) -> bool
    ensures { result ≡ changes_path changes.now path.now }
{
    changes
        .iter()
        .any(|change| change.path.text() == path.text())
}

/// Whether a row survives, and changed a path.
fn makes<O: Operation>(row: &Row<O>, path: &TreePath) -> bool
    ensures { result ≡ makes O.asks path.now row.now }
{
    row.survives() && changes_path(row.changes.as_slice(), path)
}

fn maker_in<O: Operation>(rows: &[Row<O>], path: &TreePath) -> Option<u32>
    requires few { length rows.now ≤ 1000000 }
    ensures { IsMaker O.asks rows.now path.now result }
{
    let mut found = None;
    for place in 0..rows.len() {
        if makes(&rows[place], path) {
            found = Some(place as u32 + 1);
        }
    }
    found
}
