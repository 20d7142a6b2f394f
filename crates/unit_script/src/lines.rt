//! The words of a line, and the call that they specify.
ghost use Rattle.std.specs.Prelude.{◌≡◌, map, IfOk};
ghost use Rattle.unit_script.specs.Script.{words_of, call_of_words, call_if_any, is_comment, call_of_line};
ghost use Rattle.byte_streams.specs.Reads.{Gives};

use crate::call::Call;
use crate::reason::Reason;
use crate::requests::request_of;
use byte_streams::ReadError;
use history::{BadOperator, Operator};
use std::alloc::{AllocError, Global};

/// The words of a line without its line end: the nonempty parts between its spaces. It fails only
/// if memory runs out.
#[tactic(auto, unfolding(crate::specs::Script::words_of))]
pub fn words_of<'a>(alloc: Global, line: &'a [u8]) -> Result<Vec<&'a [u8]>, AllocError>
    ensures { IfOk result (λ words. map (λ word. word.now) words.items ≡ words_of line.now) }
{
    line.split(|b| *b == b' ')
        .filter(|word| !word.is_empty())
        .collect(alloc)
}

/// The call of an operator with the words after the operator's name: the verb, its option and its
/// arguments, as in a line of a script. Each word is used as it is and never split, so a path may
/// contain blanks.
///
/// # Errors
///
/// - `Fault(BadOperator)`: the operator isn't 1 to 32 of `a` to `z`, `0` to `9` and `-`.
/// - `Fault(reason)`: the words are refused; `Reason` lists the reasons in the order of the checks.
/// - `OutOfMemory`. The error is never `ReadFault`.
#[tactic(auto, unfolding(crate::specs::Script::call_of_words))]
pub fn call_of_words(
    alloc: Global,
    operator: &[u8],
    words: &[&[u8]],
) -> Result<Call, ReadError<Reason>>
    ensures { Gives (λ x. x) result (call_of_words operator.now (map (λ word. word.now) words.now)) }
{
    match Operator::parse(operator) {
        Ok(operator) => {
            let request = request_of(alloc, words)?;
            Ok(Call { operator, request })
        }
        Err(BadOperator) => Err(ReadError::Fault(Reason::BadOperator)),
    }
}

/// The call made of all words of a line, or none if there is no word.
fn call_if_any(alloc: Global, words: &[&[u8]]) -> Result<Option<Call>, ReadError<Reason>>
    ensures { Gives (λ x. x) result (call_if_any (map (λ word. word.now) words.now)) }
{
    match words {
        [] => Ok(None),
        [operator, words @ ..] => Ok(Some(call_of_words(alloc, operator, words)?)),
    }
}

fn is_comment(line: &[u8]) -> bool
    ensures { result ≡ is_comment line.now }
{
    match line {
        [] => false,
        [first, ..] => *first == b'#',
    }
}

/// The call of a line without its line end, or none if the line is skipped: it has no word, or
/// begins with `#`. Words are separated by spaces. The line may have any length.
///
/// # Errors
///
/// The same as for `call_of_words`, with the first word as the operator.
#[tactic(auto, unfolding(crate::specs::Script::call_of_line))]
pub fn call_of_line(alloc: Global, line: &[u8]) -> Result<Option<Call>, ReadError<Reason>>
    ensures { Gives (λ x. x) result (call_of_line line.now) }
{
    if is_comment(line) {
        return Ok(None);
    }
    let words = words_of(alloc, line)?;
    call_if_any(alloc, &words)
}
