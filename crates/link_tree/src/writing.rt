//! Writing trees: the unique text of a tree.
ghost use Rattle.std.specs.Prelude.{◌≡◌, ◌<◌, ◌^◌, ◌++◌, true, [], length, OnOk, IfErr};
ghost use Rattle.std.specs.FinMap as map;
ghost use Rattle.std.specs.Io.KnownBytes.{Appends};
ghost use Rattle.std.specs.List.{flat_map};
ghost use Rattle.byte_streams.specs.Streams.{Accounts};
ghost use Rattle.byte_streams.specs.Writes.{OrStops, Writes};
ghost use Rattle.link_tree.specs.Trees.{entry_line, inventory_text};
ghost use Rattle.link_tree.specs.Reads.{AccountsWrite, SentBefore};

use crate::entry::Entry;
use crate::piece::Piece;
use crate::tree::Tree;
use byte_streams::{BufferedWriter, Sink, WriteFault};
use std::alloc::Global;
use thiserror::Error;
use unit_paths::TreePath;

/// Why an inventory was not written.
#[derive(Clone, Copy, Debug, PartialEq, Eq, Hash, Error)]
pub enum WriteError {
    #[error("write fault after {0} bytes")]
    Fault(usize),
    #[error("out of memory")]
    OutOfMemory,
}

/// More entries than fit in memory, yet few enough that the bytes of their lines can be counted.
const MOST_ENTRIES: usize = 0x100_0000_0000;

/// More bytes than fit in memory, yet few enough that the bytes of `MOST_ENTRIES` entries can be
/// added.
const MOST_BYTES: usize = 0x4000_0000_0000_0000;

fn write_line<K: Sink>(
    writer: &mut BufferedWriter,
    path: &TreePath,
    entry: &Entry,
    sink: &mut K,
) -> Result<(), WriteFault>
    ensures writes { Writes (K.written sink.old) (K.written sink.new) writer.old writer.new result (entry_line (path.now, entry.now)) }
    ensures counters { Accounts result (K.counters sink.old) (K.counters sink.new) }
{
    match entry {
        Entry::File(contents) => {
            let mut digits = itoa::Buffer::new();
            let bytes = contents.bytes();
            let length = digits.format(bytes.len()).as_bytes();
            writer.write_pieces(
                &[b"F\t", length, b"\t", path.text(), b"\n", bytes, b"\n"],
                sink,
            )
        }
        Entry::Link(target) => writer.write_pieces(
            &[b"L\t", path.text(), b"\t", target.text(), b"\n"],
            sink,
        ),
    }
}

/// The lines of the entries of a piece.
fn write_piece<K: Sink>(
    writer: &mut BufferedWriter,
    piece: &Piece,
    sink: &mut K,
) -> Result<(), WriteFault>
    ensures writes { Writes (K.written sink.old) (K.written sink.new) writer.old writer.new result (flat_map entry_line piece.now) }
    ensures counters { Accounts result (K.counters sink.old) (K.counters sink.new) }
{
    for placed in piece.items() {
        write_line(writer, placed.path(), placed.entry(), sink)?;
    }
    Ok(())
}

/// The lines of the entries, in the order of their paths.
fn write_lines<K: Sink>(
    writer: &mut BufferedWriter,
    tree: &Tree,
    sink: &mut K,
) -> Result<(), WriteFault>
    ensures writes { Writes (K.written sink.old) (K.written sink.new) writer.old writer.new result (flat_map entry_line (map.entries tree.now)) }
    ensures counters { Accounts result (K.counters sink.old) (K.counters sink.new) }
{
    for piece in tree.pieces() {
        write_piece(writer, piece, sink)?;
    }
    Ok(())
}

fn write_tree<K: Sink>(
    writer: &mut BufferedWriter,
    tree: &Tree,
    sink: &mut K,
) -> Result<(), WriteFault>
    ensures writes { Writes (K.written sink.old) (K.written sink.new) writer.old writer.new result (inventory_text tree.now) }
    ensures counters { Accounts result (K.counters sink.old) (K.counters sink.new) }
{
    writer.write(b"unitadm-inventory 1\n", sink)?;
    write_lines(writer, tree, sink)?;
    writer.write(b"end\n", sink)
}

/// Writes a text followed by that of the tree, and flushes.
fn write_both<K: Sink>(
    mut writer: BufferedWriter,
    text: &[u8],
    tree: &Tree,
    sink: &mut K,
) -> Result<(), WriteFault>
    requires buffer { writer.buffer ≡ [] }
    requires sent { writer.sent ≡ 0 }
    requires counted { length (text.now ++ inventory_text tree.now) < 2 ^ 64 }
    ensures written { OrStops (Appends (K.written sink.old) (K.written sink.new) (text.now ++ inventory_text tree.now)) (K.written sink.old) (K.written sink.new) (text.now ++ inventory_text tree.now) result }
    ensures flushed { OnOk result (K.flushed sink.new ≡ true) }
    ensures counters { Accounts result (K.counters sink.old) (K.counters sink.new) }
{
    writer.write(text, sink)?;
    write_tree(&mut writer, tree, sink)?;
    writer.finish(sink)
}

/// Writes a text followed by the unique text of the tree, and flushes. All memory is allocated
/// before the first byte is sent, so if memory runs out, nothing is written. Over 2⁴⁰ entries, or
/// 2⁶² bytes of text, count as out of memory.
pub fn write_before_inventory<K: Sink>(
    alloc: Global,
    text: &[u8],
    tree: &Tree,
    sink: &mut K,
) -> Result<(), WriteError>
    ensures ok { OnOk result (Appends (K.written sink.old) (K.written sink.new) (text.now ++ inventory_text tree.now)) }
    ensures flushed { OnOk result (K.flushed sink.new ≡ true) }
    ensures fault { IfErr result (λ e. SentBefore e (K.written sink.old) (K.written sink.new) (text.now ++ inventory_text tree.now)) }
    ensures counters { AccountsWrite result (K.counters sink.old) (K.counters sink.new) }
{
    if text.len() > MOST_BYTES || tree.len() > MOST_ENTRIES {
        return Err(WriteError::OutOfMemory);
    }
    let Ok(writer) = BufferedWriter::new(alloc) else {
        return Err(WriteError::OutOfMemory);
    };
    tree.shape();
    match write_both(writer, text, tree, sink) {
        Ok(()) => Ok(()),
        Err(WriteFault(sent)) => Err(WriteError::Fault(sent)),
    }
}

/// Writes the unique text of the tree, and flushes. All memory is allocated before the first byte
/// is sent, so if memory runs out, nothing is written. Over 2⁴⁰ entries count as out of memory.
pub fn write_inventory<K: Sink>(alloc: Global, tree: &Tree, sink: &mut K) -> Result<(), WriteError>
    ensures ok { OnOk result (Appends (K.written sink.old) (K.written sink.new) (inventory_text tree.now)) }
    ensures flushed { OnOk result (K.flushed sink.new ≡ true) }
    ensures fault { IfErr result (λ e. SentBefore e (K.written sink.old) (K.written sink.new) (inventory_text tree.now)) }
    ensures counters { AccountsWrite result (K.counters sink.old) (K.counters sink.new) }
{
    write_before_inventory(alloc, b"", tree, sink)
}
