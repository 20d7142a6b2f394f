//! Scripts: the lines after an inventory.
ghost use Rattle.std.specs.Prelude.{◌≡◌, ℕ, List, [], Option, Some, OnOk};
ghost use Rattle.byte_streams.specs.Lines.{Front, IsFront, Last, front_line};
ghost use Rattle.byte_streams.specs.Reads.{AccountsRead, ReadsWhole, StopsInTime};
ghost use Rattle.unit_script.specs.Script.{call_of_front, with_call, at_limit, is_no_line, is_calls_line, after_calls_line, calls_at, script_of};
ghost use Rattle.unit_script.specs.ScriptReads.{CallOf, CallsLineOf, IsOpenCalls, ReadsCall};
ghost use Rattle.unit_script.specs.OpenScripts.{IsOpenScript};
ghost use Rattle.unit_script.specs.declared.call.Call.{Call as CallSeen};

use crate::call::Call;
use crate::lines::call_of_line;
use crate::reason::{Reason, ScriptFault, in_line};
use byte_streams::{Line, ReadError, Source, read_line};
use std::alloc::{AllocError, Global};

/// The longest line of a script, in bytes before its end.
pub const MAX_LINE: usize = 65_536;

/// The most lines after `== calls`, including skipped ones.
pub const MAX_LINES: u32 = 2_000_000;

/// A line's call, if it isn't skipped, and whether the line had a line end: a line without one is
/// the script's last.
#[derive(Debug, Drop)]
struct ReadCall {
    call: Option<Call>,
    has_end: bool,
}

fn call_of_read(alloc: Global, line: Line) -> Result<ReadCall, ReadError<Reason>>
    ensures call { (left : Option (List ℕ)) → (front : Front) → IsFront line left front → CallOf left result (call_of_front front) }
    ensures calm { result ≡ Err ReadError.ReadFault → ⊥ }
{
    match line {
        Line::Whole(text) => Ok(ReadCall {
            call: call_of_line(alloc, &text)?,
            has_end: true,
        }),
        Line::Last(text) => Ok(ReadCall {
            call: call_of_line(alloc, &text)?,
            has_end: false,
        }),
    }
}

fn read_call<S: Source>(alloc: Global, source: &mut S) -> Result<ReadCall, ReadError<Reason>>
    ensures call { ReadsCall (S.left source.old) (S.left source.new) result }
    ensures stops { StopsInTime (λ taken. front_line 65536 taken ≡ Last taken) result (S.left source.old) (S.left source.new) }
    ensures counters { AccountsRead result (S.counters source.old) (S.counters source.new) }
{
    let line = read_line(alloc, source, MAX_LINE, Reason::LineTooLong)?;
    call_of_read(alloc, line)
}

fn is_no_line(line: Line) -> bool
    ensures { (left : Option (List ℕ)) → (front : Front) → IsFront line left front → result ≡ is_no_line front }
{
    match line {
        Line::Whole(_) => false,
        Line::Last(text) => text.is_empty(),
    }
}

/// Checks that nothing remains: otherwise the line of this number is one too many.
fn read_end<S: Source>(
    alloc: Global,
    source: &mut S,
    number: u32,
) -> Result<(), ReadError<ScriptFault>>
    ensures end { (bytes : List ℕ) → S.left source.old ≡ Some bytes → (calls : List CallSeen) → ReadsWhole (λ _. calls) result (at_limit number calls (front_line 0 bytes)) }
    ensures stops { StopsInTime (λ taken. taken ≡ []) result (S.left source.old) (S.left source.new) }
    ensures counters { AccountsRead result (S.counters source.old) (S.counters source.new) }
{
    let too_many = ScriptFault::Bad(number, Reason::TooManyLines);
    let line = read_line(alloc, source, 0, too_many)?;
    if is_no_line(line) {
        Ok(())
    } else {
        Err(ReadError::Fault(too_many))
    }
}

fn add_call(calls: &mut Vec<Call>, call: Option<Call>) -> Result<(), AllocError>
    ensures { OnOk result (calls.new.items ≡ with_call calls.old.items call) }
{
    match call {
        Some(call) => Ok(calls.push(call)?),
        None => Ok(()),
    }
}

fn read_calls<S: Source>(alloc: Global, source: &mut S) -> Result<Vec<Call>, ReadError<ScriptFault>>
    ensures calls { (bytes : List ℕ) → S.left source.old ≡ Some bytes → ReadsWhole (λ calls. calls.items) result (calls_at 2000000 1 [] bytes) }
    ensures stops { StopsInTime IsOpenCalls result (S.left source.old) (S.left source.new) }
    ensures counters { AccountsRead result (S.counters source.old) (S.counters source.new) }
{
    let mut calls = Vec::new(alloc);
    let mut number = 1;
    'lines: loop {
        if number > MAX_LINES {
            return match read_end(alloc, source, number) {
                Ok(()) => Ok(calls),
                Err(e) => Err(e),
            };
        }
        let read = match read_call(alloc, source) {
            Ok(read) => read,
            Err(e) => return Err(in_line(number, e)),
        };
        let has_end = read.has_end;
        match add_call(&mut calls, read.call) {
            Ok(()) => {}
            Err(AllocError) => return Err(ReadError::OutOfMemory),
        }
        if !has_end {
            return Ok(calls);
        }
        number += 1;
    }
}

fn is_calls_line(text: &[u8]) -> bool
    ensures { result ≡ is_calls_line text.now }
{
    text == b"== calls".as_slice()
}

fn calls_line_of(line: Line) -> Result<bool, ReadError<ScriptFault>>
    ensures first { (left : Option (List ℕ)) → (front : Front) → IsFront line left front → CallsLineOf left result (after_calls_line front) }
    ensures calm { result ≡ Err ReadError.ReadFault → ⊥ }
{
    match line {
        Line::Whole(text) if is_calls_line(&text) => Ok(true),
        Line::Last(text) if is_calls_line(&text) => Ok(false),
        _ => Err(ReadError::Fault(ScriptFault::NoCalls)),
    }
}

/// Reads the line before all calls, and returns whether it had a line end.
fn read_calls_line<S: Source>(alloc: Global, source: &mut S) -> Result<bool, ReadError<ScriptFault>>
    ensures first { (bytes : List ℕ) → S.left source.old ≡ Some bytes → CallsLineOf (S.left source.new) result (after_calls_line (front_line 8 bytes)) }
    ensures stops { StopsInTime (λ taken. front_line 8 taken ≡ Last taken) result (S.left source.old) (S.left source.new) }
    ensures counters { AccountsRead result (S.counters source.old) (S.counters source.new) }
{
    let line = read_line(alloc, source, 8, ScriptFault::NoCalls)?;
    calls_line_of(line)
}

/// Reads a whole script, up to the end of the source: the line `== calls`, and a call from each
/// line after it that isn't skipped. Lines without a word and those that begin with `#` are
/// skipped. The last line, even if it is `== calls`, may lack its line end, and then the source
/// isn't read again.
///
/// # Errors
///
/// The first of these in the order of reading:
///
/// - `Fault(NoCalls)`: the first line isn't `== calls`.
/// - `Fault(Bad(n, reason))`: line n is refused, counted from 1 after `== calls`, including skipped
///   ones; `Reason` lists the reasons in the order of the checks. A line may have `MAX_LINE` bytes
///   before its line end, and there may be `MAX_LINES` lines after `== calls`.
/// - `ReadFault`: the source failed, or was interrupted 1,000 times in a row.
/// - `OutOfMemory`.
///
/// A fault is reported with the byte that decides it, or at the end, and a read fault occurs only
/// while nothing is decided.
pub fn read_script<S: Source>(
    alloc: Global,
    source: &mut S,
) -> Result<Vec<Call>, ReadError<ScriptFault>>
    ensures calls { (bytes : List ℕ) → S.left source.old ≡ Some bytes → ReadsWhole (λ calls. calls.items) result (script_of bytes) }
    ensures stops { StopsInTime IsOpenScript result (S.left source.old) (S.left source.new) }
    ensures counters { AccountsRead result (S.counters source.old) (S.counters source.new) }
{
    match read_calls_line(alloc, source) {
        Ok(true) => read_calls(alloc, source),
        Ok(false) => Ok(Vec::new(alloc)),
        Err(e) => Err(e),
    }
}
