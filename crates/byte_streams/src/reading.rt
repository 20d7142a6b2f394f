//! Reading bytes, one or many at a time, with retries after interruptions.
#![tactic(auto, using(crate::proofs::Known::known))]

ghost use Rattle.std.specs.Prelude.{◌≡◌, ◌<◌, ◌≤◌, ◌-◌, ℕ, List, Some, None, Ok, false, length, take, if◌then◌else◌, IfOk, IfSome, OnErr};
ghost use Rattle.std.specs.Option.{option_map};
ghost use Rattle.std.specs.Io.KnownBytes.{Keeps};
ghost use Rattle.std.specs.Vec.{vec_capacity, vec_len};
ghost use Rattle.byte_streams.specs.Blocks.{IsBytes, IsCutPrefix, SkipsPrefix, after_prefix};
ghost use Rattle.byte_streams.specs.Reads.{AccountsRead, StopsInTime};
ghost use Rattle.byte_streams.specs.Streams.{Accounts, GivesNext, GivesSome, HasNoLineEnd, StopsAt, Takes};

use crate::read_error::{ReadError, ReadFault};
use crate::stream::{MAX_INTERRUPTIONS, Source, Stop};
use std::alloc::{AllocError, Global};

/// Reads the next byte, or `None` at the end.
///
/// # Errors
///
/// A read fault if the source fails, or is interrupted 1,000 times in a row.
#[inline]
pub fn read_byte<S: Source>(source: &mut S) -> Result<Option<u8>, ReadFault>
    ensures next { IfOk result (GivesNext (S.left source.old) (S.left source.new)) }
    ensures kept { OnErr result (Keeps (S.left source.old) (S.left source.new)) }
    ensures counters { Accounts result (S.counters source.old) (S.counters source.new) }
{
    for _tried in 0..MAX_INTERRUPTIONS {
        match source.byte() {
            Ok(byte) => return Ok(byte),
            Err(Stop::Failed) => return Err(ReadFault),
            Err(Stop::Interrupted) => {}
        }
    }
    Err(ReadFault)
}

/// Reads some of the next bytes into the front of `room`, and returns how many: 0 only at the end.
fn read_some<S: Source>(source: &mut S, room: &mut [u8]) -> Result<usize, ReadFault>
    requires { 0 < length room.old }
    ensures count { IfOk result (λ n. n ≤ length room.new) }
    ensures given { IfOk result (λ n. GivesSome (S.left source.old) (S.left source.new) (take n room.new)) }
    ensures kept { OnErr result (Keeps (S.left source.old) (S.left source.new)) }
    ensures counters { Accounts result (S.counters source.old) (S.counters source.new) }
{
    for _turn in 0..MAX_INTERRUPTIONS {
        match source.bytes(room) {
            Ok(count) => return Ok(count),
            Err(Stop::Failed) => return Err(ReadFault),
            Err(Stop::Interrupted) => {}
        }
    }
    Err(ReadFault)
}

/// Reads some of the next bytes into the front of `room`, at most through the next line end, and
/// returns how many: 0 only at the end.
#[inline]
pub(crate) fn read_some_of_line<S: Source>(
    source: &mut S,
    room: &mut [u8],
) -> Result<usize, ReadFault>
    requires { 0 < length room.old }
    ensures count { IfOk result (λ n. n ≤ length room.new) }
    ensures given { IfOk result (λ n. GivesSome (S.left source.old) (S.left source.new) (take n room.new)) }
    ensures kept { OnErr result (Keeps (S.left source.old) (S.left source.new)) }
    ensures line { IfOk result (λ n. HasNoLineEnd (take (n - 1) room.new)) }
    ensures counters { Accounts result (S.counters source.old) (S.counters source.new) }
{
    for _round in 0..MAX_INTERRUPTIONS {
        match source.line_bytes(room) {
            Ok(count) => return Ok(count),
            Err(Stop::Failed) => return Err(ReadFault),
            Err(Stop::Interrupted) => {}
        }
    }
    Err(ReadFault)
}

/// This number of zeros, in a list with exactly that capacity.
fn zeros(alloc: Global, size: usize) -> Result<Vec<u8>, AllocError>
    ensures len { IfOk result (λ zeros. vec_len zeros ≡ size) }
    ensures room { IfOk result (λ zeros. vec_capacity zeros ≡ size) }
{
    let mut zeros = Vec::with_capacity(alloc, size)?;
    for _index in 0..size {
        zeros.push_reserved(0);
    }
    Ok(zeros)
}

/// Reads the next bytes into all of `room`, and returns whether there were enough.
fn fill<S: Source>(source: &mut S, room: &mut [u8]) -> Result<bool, ReadFault>
    ensures bytes { IfOk result (λ whole. (bytes : List ℕ) → S.left source.old ≡ Some bytes → IsBytes (length room.new) bytes (S.left source.new) (if whole then Some room.new else None)) }
    ensures taken { OnErr result (Takes (S.left source.old) (S.left source.new) (λ taken rest. length taken < length room.old)) }
    ensures counters { Accounts result (S.counters source.old) (S.counters source.new) }
{
    let mut filled = 0;
    'pieces: while filled < room.len() {
        let count = read_some(source, &mut room[filled..])?;
        if count == 0 {
            return Ok(false);
        }
        filled += count;
    }
    Ok(true)
}

/// Reads exactly `size` bytes, or `None` if the input ends before. No more memory is allocated than
/// they need.
///
/// # Errors
///
/// A read fault if the source fails, or is interrupted 1,000 times in a row, before all are read;
/// out of memory.
pub fn read_bytes<S: Source, F>(
    alloc: Global,
    source: &mut S,
    size: usize,
) -> Result<Option<Vec<u8>>, ReadError<F>>
    ensures bytes { IfOk result (λ read. (bytes : List ℕ) → S.left source.old ≡ Some bytes → IsBytes size bytes (S.left source.new) (option_map (λ read. read.items) read)) }
    ensures size { IfOk result (λ read. IfSome read (λ read. length read.items ≡ size)) }
    ensures room { IfOk result (λ read. IfSome read (λ read. vec_capacity read ≡ size)) }
    ensures fault { (fault : F) → result ≡ Err (ReadError.Fault fault) → ⊥ }
    ensures taken { StopsInTime (λ taken. length taken < size) result (S.left source.old) (S.left source.new) }
    ensures counters { AccountsRead result (S.counters source.old) (S.counters source.new) }
{
    let mut bytes = zeros(alloc, size)?;
    if fill(source, &mut bytes)? {
        Ok(Some(bytes))
    } else {
        Ok(None)
    }
}

/// Reads a prefix, byte by byte, and returns whether it was there: no byte is read after the first
/// that differs.
///
/// # Errors
///
/// A read fault if the source fails, or is interrupted 1,000 times in a row, before a byte differs
/// or all are read.
pub fn skip_prefix<S: Source>(prefix: &[u8], source: &mut S) -> Result<bool, ReadFault>
    ensures prefix { IfOk result (λ found. (bytes : List ℕ) → S.left source.old ≡ Some bytes → SkipsPrefix (S.left source.new) found (after_prefix prefix.now bytes)) }
    ensures missed { result ≡ Ok false → Takes (S.left source.old) (S.left source.new) (StopsAt (IsCutPrefix prefix.now)) }
    ensures taken { OnErr result (Takes (S.left source.old) (S.left source.new) (λ taken rest. IsCutPrefix prefix.now taken)) }
    ensures counters { Accounts result (S.counters source.old) (S.counters source.new) }
{
    for expected in prefix {
        match read_byte(source)? {
            None => return Ok(false),
            Some(byte) => {
                if byte != *expected {
                    return Ok(false);
                }
            }
        }
    }
    Ok(true)
}
