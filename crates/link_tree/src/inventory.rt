//! Reading inventories: the texts of trees.
ghost use Rattle.std.specs.Prelude.{◌≡◌, ◌+◌, ◌≤◌, ℕ, true, List, [], All, Option, OnOk, IfOk, IfErr, IsTrue, Some, is_some, Ok, Err};
ghost use Rattle.std.specs.FinMap as map;
ghost use Rattle.byte_streams.specs.Blocks.{IsCutPrefix};
ghost use Rattle.byte_streams.specs.Lines.{Front, IsFront, front_line};
ghost use Rattle.byte_streams.specs.Reads.{AccountsRead, FailsAs, Gives, ReadsFront, StopsInTime};
ghost use Rattle.link_tree.specs.declared.contents.TheConstants.{MAX_FILE};
ghost use Rattle.link_tree.specs.EntryLines.{IsSized};
ghost use Rattle.link_tree.specs.Inventory.{line_of_front, contents_at, placed, entries_at, entry_at, entry_of, header, header_at, inventory_of};
ghost use Rattle.link_tree.specs.Pending.{AreRising, ArePending, GivesOn, IsAtSlot, IsDuplicate, IsDuplicateOrAt, place_all, with_entry};
ghost use Rattle.link_tree.specs.Reads.{AccountsTree, IsUndecided, ReadsTree, StopsInEntry, numbered};

use crate::contents::Contents;
use crate::entry::Entry;
use crate::entry_line::{EntryLine, line_of};
use crate::inventory_fault::{InventoryError, InventoryFault};
use crate::pending::{PendingEntry, insert_all, most_pending};
use crate::tree::Tree;
use crate::tree_part::TreePart;
use byte_streams::{Line, ReadError, Source, read_byte, read_bytes, read_line, skip_prefix};
use std::alloc::{AllocError, Global};
use std::mem;
use unit_paths::{Slot, TreePath};

/// The longest line of an inventory, in bytes before its end.
pub const MAX_LINE: usize = 16384;

/// The largest number of entries that is read.
pub const MAX_ENTRIES: u32 = 65536;

/// What each inventory begins with.
const HEADER: &[u8; 20] = b"unitadm-inventory 1\n";

/// Reads an inventory up to the end of its line `end`, and leaves the bytes after it in the source.
/// It has at most 65,536 entries, in any order.
///
/// # Errors
///
/// The first fault in reading order, with the number of its entry: entries count from 1, the header
/// is 0, and the line `end` counts as the next entry. Within one entry, faults are checked in the
/// order of the table of `InventoryFault` in docs/RULES.md, "Inventories". A read fault, if the
/// source fails, or is interrupted 1,000 times in a row, before one of these is decided. Out of
/// memory.
pub fn read_inventory<S: Source>(alloc: Global, source: &mut S) -> Result<Tree, InventoryError>
    ensures tree { ReadsTree (S.left source.old) (S.left source.new) result inventory_of }
    ensures stops { StopsInEntry IsUndecided result (S.left source.old) (S.left source.new) }
    ensures counters { AccountsTree result (S.counters source.old) (S.counters source.new) }
{
    if let Err(e) = read_header(source) {
        return Err(in_entry(0, e));
    }
    match read_entries(alloc, source) {
        Ok(part) => Ok(Tree::of(alloc, part)?),
        Err(e) => Err(e),
    }
}

/// The entries up to the line `end`. The lists of links by name are not built while reading them.
fn read_entries<S: Source>(alloc: Global, source: &mut S) -> Result<TreePart, InventoryError>
    ensures tree { ReadsTree (S.left source.old) (S.left source.new) result (entries_at MAX_ENTRIES 1 map.empty) }
    ensures stops { StopsInEntry (λ number taken. (1 ≤ number) × (entries_at MAX_ENTRIES 1 map.empty taken ≡ Err (InventoryFault.Truncated, number))) result (S.left source.old) (S.left source.new) }
    ensures counters { AccountsTree result (S.counters source.old) (S.counters source.new) }
{
    let mut tree = TreePart::empty(alloc)?;
    let mut pending = Vec::new(alloc);
    let mut number = 1;
    'entries: loop {
        match read_entry(alloc, source, number <= MAX_ENTRIES) {
            Ok(Some((path, entry))) => {
                add_entry(alloc, &mut tree, &mut pending, path, entry, number)?;
            }
            Ok(None) => {
                flush(alloc, &mut tree, &mut pending)?;
                return Ok(tree);
            }
            Err(e) => {
                flush(alloc, &mut tree, &mut pending)?;
                return Err(in_entry(number, e));
            }
        }
        number += 1;
    }
}

/// Adds an entry to the pending ones if it is at a slot; otherwise first inserts the pending ones
/// into the tree, then this one.
fn add_entry(
    alloc: Global,
    tree: &mut TreePart,
    pending: &mut Vec<PendingEntry>,
    path: TreePath,
    entry: Entry,
    number: u32,
) -> Result<(), InventoryError>
    requires { ArePending number pending.old.items }
    ensures read { GivesOn result (place_all tree.new pending.new.items) (with_entry (place_all tree.old pending.old.items) number (path, entry)) }
    ensures pending { OnOk result (ArePending (number + 1) pending.new.items) }
    ensures fault { IfErr result (IsDuplicateOrAt number (place_all tree.old pending.old.items)) }
{
    if Slot::of(&path).is_some() {
        if pending.len() >= most_pending(tree.len()) {
            flush(alloc, tree, pending)?;
        }
        let _path = path.text();
        let _valid = entry.bytes();
        let added = PendingEntry {
            path,
            entry,
            number,
        };
        match pending.push(added) {
            Ok(()) => return Ok(()),
            Err(_) => return Err(InventoryError::OutOfMemory),
        }
    }
    flush(alloc, tree, pending)?;
    match place(tree, path, entry) {
        Ok(()) => Ok(()),
        Err(e) => Err(in_entry(number, e)),
    }
}

/// Puts the pending entries into the tree.
fn flush(
    alloc: Global,
    tree: &mut TreePart,
    pending: &mut Vec<PendingEntry>,
) -> Result<(), InventoryError>
    requires slots { All IsAtSlot pending.old.items }
    requires rising { AreRising pending.old.items }
    ensures tree { GivesOn result (Ok tree.new) (place_all tree.old pending.old.items) }
    ensures empty { OnOk result (pending.new.items ≡ []) }
    ensures fault { IfErr result IsDuplicate }
{
    let entries = mem::replace(pending, Vec::new(alloc));
    match insert_all(tree, entries)? {
        None => Ok(()),
        Some(number) => Err(InventoryError::Fault(InventoryFault::Duplicate, number)),
    }
}

#[tactic(auto, unfolding(crate::specs::Inventory::placed))]
fn place(tree: &mut TreePart, path: TreePath, entry: Entry) -> Result<(), ReadError<InventoryFault>>
    ensures { Gives (λ _. tree.new) result (placed tree.old (path, entry)) }
{
    if tree.get(&path).is_some() {
        return Err(ReadError::Fault(InventoryFault::Duplicate));
    }
    if tree.is_crowded(&path)? {
        return Err(ReadError::Fault(InventoryFault::UnderEntry));
    }
    if path.is_bad_shape() {
        return Err(ReadError::Fault(InventoryFault::BadShape));
    }
    let _path = path.text();
    let _valid = entry.bytes();
    tree.insert(path, entry)?;
    Ok(())
}

fn read_header<S: Source>(source: &mut S) -> Result<(), ReadError<InventoryFault>>
    ensures header { (bytes : List ℕ) → S.left source.old ≡ Some bytes → ReadsFront (λ x. x) (S.left source.new) result (header_at bytes) }
    ensures stops { StopsInTime (IsCutPrefix header) result (S.left source.old) (S.left source.new) }
    ensures counters { AccountsRead result (S.counters source.old) (S.counters source.new) }
{
    if skip_prefix(HEADER, source)? {
        Ok(())
    } else {
        Err(ReadError::Fault(InventoryFault::BadHeader))
    }
}

/// Reads the next entry, or `None` for the line `end`, which is the only valid line if there is no
/// room for an entry.
fn read_entry<S: Source>(
    alloc: Global,
    source: &mut S,
    room: bool,
) -> Result<Option<(TreePath, Entry)>, ReadError<InventoryFault>>
    ensures entry { (bytes : List ℕ) → S.left source.old ≡ Some bytes → ReadsFront (λ x. x) (S.left source.new) result (entry_at room (front_line MAX_LINE bytes)) }
    ensures stops { StopsInTime (λ taken. entry_at room (front_line MAX_LINE taken) ≡ Err InventoryFault.Truncated) result (S.left source.old) (S.left source.new) }
    ensures room { IfOk result (λ entry. is_some entry ≡ true → IsTrue room) }
    ensures counters { AccountsRead result (S.counters source.old) (S.counters source.new) }
{
    let line = read_entry_line(alloc, source)?;
    if room {
        return read_entry_of(alloc, source, line);
    }
    match line {
        EntryLine::End => Ok(None),
        EntryLine::File(..) | EntryLine::Link(..) => {
            Err(ReadError::Fault(InventoryFault::TooMany))
        }
    }
}

/// Reads what follows the line of an entry: the bytes of a file, nothing for a link.
fn read_entry_of<S: Source>(
    alloc: Global,
    source: &mut S,
    line: EntryLine,
) -> Result<Option<(TreePath, Entry)>, ReadError<InventoryFault>>
    requires { IsSized line }
    ensures entry { (bytes : List ℕ) → S.left source.old ≡ Some bytes → ReadsFront (λ x. x) (S.left source.new) result (entry_of line bytes) }
    ensures stops { StopsInTime (λ taken. entry_of line taken ≡ Err InventoryFault.Truncated) result (S.left source.old) (S.left source.new) }
    ensures counters { AccountsRead result (S.counters source.old) (S.counters source.new) }
{
    match line {
        EntryLine::End => Ok(None),
        EntryLine::File(path, size) => {
            let contents = read_contents(alloc, source, size)?;
            Ok(Some((path, Entry::File(contents))))
        }
        EntryLine::Link(path, target) => Ok(Some((path, Entry::Link(target)))),
    }
}

fn read_entry_line<S: Source>(
    alloc: Global,
    source: &mut S,
) -> Result<EntryLine, ReadError<InventoryFault>>
    ensures line { (bytes : List ℕ) → S.left source.old ≡ Some bytes → ReadsFront (λ x. x) (S.left source.new) result (line_of_front (front_line MAX_LINE bytes)) }
    ensures stops { StopsInTime (λ taken. line_of_front (front_line MAX_LINE taken) ≡ Err InventoryFault.Truncated) result (S.left source.old) (S.left source.new) }
    ensures sized { IfOk result IsSized }
    ensures counters { AccountsRead result (S.counters source.old) (S.counters source.new) }
{
    let line = read_line(alloc, source, MAX_LINE, InventoryFault::BadLine)?;
    line_of_read(alloc, line)
}

fn line_of_read(alloc: Global, line: Line) -> Result<EntryLine, ReadError<InventoryFault>>
    ensures line { (left : Option (List ℕ)) → (front : Front) → IsFront line left front → ReadsFront (λ x. x) left result (line_of_front front) }
    ensures sized { IfOk result IsSized }
    ensures calm { result ≡ Err ReadError.ReadFault → ⊥ }
{
    match line {
        Line::Whole(line) => line_of(alloc, &line),
        Line::Last(_) => Err(ReadError::Fault(InventoryFault::Truncated)),
    }
}

/// Reads the bytes of a file and the line end after them.
fn read_contents<S: Source>(
    alloc: Global,
    source: &mut S,
    size: usize,
) -> Result<Contents, ReadError<InventoryFault>>
    requires { size ≤ MAX_FILE }
    ensures contents { (bytes : List ℕ) → S.left source.old ≡ Some bytes → ReadsFront (λ x. x) (S.left source.new) result (contents_at size bytes) }
    ensures stops { StopsInTime (λ taken. contents_at size taken ≡ Err InventoryFault.Truncated) result (S.left source.old) (S.left source.new) }
    ensures counters { AccountsRead result (S.counters source.old) (S.counters source.new) }
{
    let Some(bytes) = read_bytes(alloc, source, size)? else {
        return Err(ReadError::Fault(InventoryFault::Truncated));
    };
    match read_byte(source)? {
        Some(b'\n') => Ok(Contents::new(bytes)?),
        Some(_) => Err(ReadError::Fault(InventoryFault::BadLine)),
        None => Err(ReadError::Fault(InventoryFault::Truncated)),
    }
}

fn in_entry(number: u32, e: ReadError<InventoryFault>) -> InventoryError
    ensures { result ≡ numbered number e }
{
    match e {
        ReadError::Fault(fault) => InventoryError::Fault(fault, number),
        ReadError::ReadFault => InventoryError::ReadFault(number),
        ReadError::OutOfMemory => InventoryError::OutOfMemory,
    }
}
