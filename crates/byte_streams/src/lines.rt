//! Reading lines.
#![tactic(auto, using(crate::proofs::Known::known))]

ghost use Rattle.std.specs.Prelude.{◌≡◌, ◌+◌, ◌-◌, ◌≤◌, length, take, IfOk};
ghost use Rattle.std.specs.Vec.{vec_len};
ghost use Rattle.byte_streams.specs.Lines.{Last, ReadsLine, front_line};
ghost use Rattle.byte_streams.specs.Pieces.{AddsPiece, IsPiece};
ghost use Rattle.byte_streams.specs.Reads.{AccountsRead, StopsInTime};
ghost use Rattle.byte_streams.specs.Streams.{HasNoLineEnd};
ghost use Rattle.byte_streams.specs.declared.lines.Growth.TheVariants.{Further};

use crate::read_error::ReadError;
use crate::reading::read_some_of_line;
use crate::stream::Source;
use std::alloc::{AllocError, Global};

/// A line as it was read, without its line end.
#[derive(Debug, Drop)]
pub enum Line {
    /// The line has a line end.
    Whole(Vec<u8>),
    /// The input ended before a line end.
    Last(Vec<u8>),
}

/// Initial capacity for a line, in bytes; enough for most lines.
const LINE_ROOM: usize = 128;

/// How many bytes of a line are read at a time.
const PIECE_ROOM: usize = 128;

/// The state of a line after one more piece was read.
#[derive(Clone, Copy)]
enum Growth {
    /// The line continues.
    Further,
    /// The line end was read.
    Whole,
    /// The line has more bytes than are allowed.
    TooLong,
}

/// A piece of a line without its line end, and whether it had one.
fn without_end(piece: &[u8]) -> (&[u8], bool)
    requires { HasNoLineEnd (take (length piece.now - 1) piece.now) }
    ensures { IsPiece piece.now result.0.now result.1 }
{
    match piece {
        [line @ .., b'\n'] => (line, true),
        _ => (piece, false),
    }
}

/// Appends a piece to the text of a line.
fn push_piece(text: &mut Vec<u8>, piece: &[u8], limit: usize) -> Result<Growth, AllocError>
    requires within { vec_len text.old ≤ limit }
    requires short { length piece.now ≤ limit - vec_len text.old + 1 }
    requires line { HasNoLineEnd (take (length piece.now - 1) piece.now) }
    ensures line { IfOk result (AddsPiece limit text.old.items text.new.items piece.now) }
    ensures within { vec_len text.new ≤ limit }
    ensures more { IfOk result (λ growth. growth ≡ Further → vec_len text.new ≡ vec_len text.old + length piece.now) }
{
    let (line, ended) = without_end(piece);
    if line.len() > limit - text.len() {
        return Ok(Growth::TooLong);
    }
    text.extend_from_slice(line)?;
    if ended {
        Ok(Growth::Whole)
    } else {
        Ok(Growth::Further)
    }
}

/// Reads up to the next LF, or to the end of the input: a line of at most `limit` bytes before its
/// end.
///
/// # Errors
///
/// `too_long`, if there are more bytes than that before an LF: no byte is read after the first one
/// beyond the limit. A read fault if the source fails, or is interrupted 1,000 times in a row,
/// before the line is complete or too long. Out of memory.
pub fn read_line<S: Source, F: Drop>(
    alloc: Global,
    source: &mut S,
    limit: usize,
    too_long: F,
) -> Result<Line, ReadError<F>>
    ensures line { ReadsLine limit too_long (S.left source.old) (S.left source.new) result }
    ensures taken { StopsInTime (λ taken. front_line limit taken ≡ Last taken) result (S.left source.old) (S.left source.new) }
    ensures counters { AccountsRead result (S.counters source.old) (S.counters source.new) }
{
    let mut text = Vec::with_capacity(alloc, LINE_ROOM)?;
    let mut room = [0; PIECE_ROOM];
    loop {
        // No byte is read after the one that makes the line too long.
        let most = (limit - text.len()).min(PIECE_ROOM - 1) + 1;
        let count = read_some_of_line(source, &mut room[..most])?;
        if count == 0 {
            return Ok(Line::Last(text));
        }
        match push_piece(&mut text, &room[..count], limit)? {
            Growth::Further => {}
            Growth::Whole => return Ok(Line::Whole(text)),
            Growth::TooLong => return Err(ReadError::Fault(too_long)),
        }
    }
}
