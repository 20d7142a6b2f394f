//! Which word of a line of a script is at fault, and what would be right.
ghost use Rattle.std.specs.Prelude.{◌≡◌, ◌++◌, map, codes, IfOk, OnOk, OnErr};
ghost use Rattle.std.specs.Str.{bytes_eq};
ghost use Rattle.unit_name.specs.Name.{is_unit_name};
ghost use Rattle.unit_paths.specs.Paths.{is_path};
ghost use Rattle.root_runs.specs.BadWords.{takes_runtime, is_other_verb, is_running_verb, is_verb, verb_in, is_option, is_argument, is_at_fault, bad_place, IsBadPlace, is_dashed, verb_hint, name_hint, path_hint};

use crate::escapes::push_each_shown;
use std::alloc::{AllocError, Global};
use unit_name::is_unit_name;
use unit_paths::{PathError, TreePath};
use unit_script::Reason;

/// What would be right, of a line that is refused.
#[derive(Clone, Copy, Debug, PartialEq, Eq)]
pub enum Hint {
    /// It is not known.
    Nothing,
    /// The word lacks the type of a unit.
    NoSuffix,
    /// The line begins with a verb.
    NoOperator,
    /// The word looks like an option.
    UnknownOption,
    /// The word is a verb of systemctl that works on a running machine.
    RunningVerb,
}

impl Hint {
    ghost use Rattle.root_runs.specs.BadWords.{hint_of, before_hint, hinted, after_hint, hint_text};

    /// What would be right, of a line with this operator that is refused for this word. It fails
    /// only if memory runs out.
    pub fn of(
        alloc: Global,
        reason: Reason,
        operator: &[u8],
        word: &[u8],
    ) -> Result<Hint, AllocError>
        ensures { IfOk result (λ hint. hint ≡ hint_of reason operator.now word.now) }
    {
        match reason {
            Reason::UnknownVerb => Ok(verb_hint(operator, word)),
            Reason::BadName => name_hint(alloc, word),
            Reason::BadPath => Ok(path_hint(word)),
            Reason::TooManyLines | Reason::LineTooLong | Reason::BadOperator => Ok(Hint::Nothing),
            Reason::WrongArguments | Reason::BadTarget => Ok(Hint::Nothing),
            Reason::BadText | Reason::BadNumber => Ok(Hint::Nothing),
        }
    }

    /// Appends the hint as it follows the fault of a line, as `: unknown option`; nothing if there
    /// is none. If memory runs out, nothing has been appended.
    pub fn push(self, out: &mut Vec<u8>, operator: &[u8], word: &[u8]) -> Result<(), AllocError>
        ensures ok { OnOk result (out.new.items ≡ out.old.items ++ hint_text self operator.now word.now) }
        ensures err { OnErr result (out.new.items ≡ out.old.items) }
    {
        let mut text = Vec::new(*out.allocator());
        self.push_part(&mut text, operator, word)?;
        out.extend_from_slice(&text)
    }

    /// The same, but if memory runs out, a part of the text may have been appended.
    fn push_part(self, out: &mut Vec<u8>, operator: &[u8], word: &[u8]) -> Result<(), AllocError>
        ensures { OnOk result (out.new.items ≡ out.old.items ++ hint_text self operator.now word.now) }
    {
        out.extend_from_slice(self.before().as_bytes())?;
        push_each_shown(out, self.hinted(operator, word))?;
        out.extend_from_slice(self.after().as_bytes())
    }

    fn before(self) -> &'static str
        ensures { result.now ≡ before_hint self }
    {
        match self {
            Hint::Nothing => "",
            Hint::NoSuffix => ": names have a suffix, ",
            Hint::NoOperator => ": ",
            Hint::UnknownOption => ": unknown option",
            Hint::RunningVerb => ": a verb of running machines",
        }
    }

    /// The word that the hint names, if it names one.
    fn hinted<'a>(self, operator: &'a [u8], word: &'a [u8]) -> &'a [u8]
        ensures { result.now ≡ hinted self operator.now word.now }
    {
        match self {
            Hint::NoSuffix => word,
            Hint::NoOperator => operator,
            Hint::Nothing | Hint::UnknownOption | Hint::RunningVerb => b"",
        }
    }

    fn after(self) -> &'static str
        ensures { result.now ≡ after_hint self }
    {
        match self {
            Hint::NoSuffix => ".service?",
            Hint::NoOperator => " is a verb: the operator is missing",
            Hint::Nothing | Hint::UnknownOption | Hint::RunningVerb => "",
        }
    }
}

/// Whether a word is this one.
fn is(word: &[u8], other: &[u8]) -> bool
    ensures { result ≡ bytes_eq word.now other.now }
{
    word == other
}

/// Whether a word is a verb that takes the option `--runtime`.
#[tactic(auto, unfolding(crate::specs::BadWords::takes_runtime))]
fn takes_runtime(word: &[u8]) -> bool
    ensures { result ≡ takes_runtime word.now }
{
    is(word, b"enable")
        || is(word, b"disable")
        || is(word, b"reenable")
        || is(word, b"preset")
        || is(word, b"mask")
        || is(word, b"unmask")
        || is(word, b"link")
        || is(word, b"add-wants")
        || is(word, b"add-requires")
}

/// Whether a word is another verb of scripts.
#[tactic(auto, unfolding(crate::specs::BadWords::is_other_verb))]
fn is_other_verb(word: &[u8]) -> bool
    ensures { result ≡ is_other_verb word.now }
{
    is(word, b"set-default")
        || is(word, b"place")
        || is(word, b"remove")
        || is(word, b"is-enabled")
        || is(word, b"get-default")
        || is(word, b"dependencies")
        || is(word, b"undo")
        || is(word, b"redo")
}

fn is_verb(word: &[u8]) -> bool
    ensures { result ≡ is_verb word.now }
{
    takes_runtime(word) || is_other_verb(word)
}

/// Whether a word is a verb of systemctl that works on a running machine.
#[tactic(auto, unfolding(crate::specs::BadWords::is_running_verb))]
fn is_running_verb(word: &[u8]) -> bool
    ensures { result ≡ is_running_verb word.now }
{
    is(word, b"start")
        || is(word, b"stop")
        || is(word, b"restart")
        || is(word, b"try-restart")
        || is(word, b"reload")
        || is(word, b"reload-or-restart")
        || is(word, b"kill")
        || is(word, b"isolate")
        || is(word, b"is-active")
        || is(word, b"is-failed")
        || is(word, b"reset-failed")
        || is(word, b"daemon-reload")
        || is(word, b"daemon-reexec")
        || is(word, b"list-units")
}

/// The verb among the words of a line, or nothing.
fn verb_in<'a>(words: &[&'a [u8]]) -> &'a [u8]
    ensures { result.now ≡ verb_in (map (λ word. word.now) words.now) }
{
    match words {
        [_, verb, ..] => verb,
        [] | [_] => b"",
    }
}

/// Whether a word after this verb is its option.
fn is_option(verb: &[u8], word: &[u8]) -> bool
    ensures { result ≡ is_option verb.now word.now }
{
    is(word, b"--runtime") && takes_runtime(verb)
        || is(word, b"--reverse") && is(verb, b"dependencies")
}

/// Whether the word at this place is an argument of the verb.
fn is_argument(verb: &[u8], place: usize, word: &[u8]) -> bool
    ensures { result ≡ is_argument verb.now place word.now }
{
    2 < place || (place == 2 && !is_option(verb, word))
}

fn is_path(alloc: Global, word: &[u8]) -> Result<bool, AllocError>
    ensures { IfOk result (λ is. is ≡ is_path word.now) }
{
    match TreePath::parse(alloc, word) {
        Ok(_path) => Ok(true),
        Err(PathError::BadPath) => Ok(false),
        Err(PathError::OutOfMemory) => Err(AllocError),
    }
}

/// Whether the word at this place can be what a line with this verb is refused for.
fn is_at_fault(
    alloc: Global,
    reason: Reason,
    verb: &[u8],
    place: usize,
    word: &[u8],
) -> Result<bool, AllocError>
    ensures { IfOk result (λ is. is ≡ is_at_fault reason verb.now place word.now) }
{
    match reason {
        Reason::TooManyLines | Reason::LineTooLong | Reason::WrongArguments => Ok(false),
        Reason::BadOperator => Ok(place == 0),
        Reason::UnknownVerb => Ok(place == 1),
        Reason::BadName => Ok(is_argument(verb, place, word) && !is_unit_name(word)),
        Reason::BadPath => {
            let is_path = is_path(alloc, word)?;
            Ok(is_argument(verb, place, word) && !is_path)
        }
        Reason::BadTarget | Reason::BadText => Ok(place == 4),
        Reason::BadNumber => Ok(place == 2),
    }
}

/// The first place of a word that can be at fault.
#[tactic(auto, unfolding(crate::specs::BadWords::first_place))]
pub(crate) fn first_at_fault(
    alloc: Global,
    words: &[&[u8]],
    reason: Reason,
) -> Result<Option<usize>, AllocError>
    ensures { IfOk result (λ place. place ≡ bad_place reason (map (λ word. word.now) words.now)) }
{
    let verb = verb_in(words);
    for (place, word) in words.iter().enumerate() {
        if is_at_fault(alloc, reason, verb, place, word)? {
            return Ok(Some(place));
        }
    }
    Ok(None)
}

/// The place of the word for which a line is refused, among its words with the operator first, from
/// 0. It is the least that can be at fault: the operator, the verb, the number of a row, the target
/// or the text at its place; the first argument that is no name or no path, if that is the reason.
/// If too many or too few words are given, or the line is too long or one too many, no word is at
/// fault.
///
/// It fails only if memory runs out.
#[tactic(auto, using(crate::proofs::FirstPlaces::bad_place_is_least))]
pub fn bad_word_at(
    alloc: Global,
    words: &[&[u8]],
    reason: Reason,
) -> Result<Option<usize>, AllocError>
    ensures { IfOk result (λ place. IsBadPlace reason (map (λ word. word.now) words.now) place) }
{
    let place = first_at_fault(alloc, words, reason)?;
    Ok(place)
}

fn is_dashed(word: &[u8]) -> bool
    ensures { result ≡ is_dashed word.now }
{
    word.starts_with(b"-")
}

/// What is known of a word that is no verb.
fn verb_hint(operator: &[u8], verb: &[u8]) -> Hint
    ensures { result ≡ verb_hint operator.now verb.now }
{
    if is_running_verb(verb) {
        Hint::RunningVerb
    } else if is_verb(operator) {
        Hint::NoOperator
    } else if is_dashed(verb) {
        Hint::UnknownOption
    } else {
        Hint::Nothing
    }
}

/// Whether a word is a name once it has a type.
fn lacks_suffix(alloc: Global, word: &[u8]) -> Result<bool, AllocError>
    ensures { IfOk result (λ lacks. lacks ≡ is_unit_name (word.now ++ codes ".service")) }
{
    let mut name = Vec::from_slice(alloc, word)?;
    name.extend_from_slice(b".service")?;
    Ok(is_unit_name(&name))
}

/// What is known of a word that is no name.
fn name_hint(alloc: Global, word: &[u8]) -> Result<Hint, AllocError>
    ensures { IfOk result (λ hint. hint ≡ name_hint word.now) }
{
    let lacks_suffix = lacks_suffix(alloc, word)?;
    Ok(if is_dashed(word) {
        Hint::UnknownOption
    } else if lacks_suffix {
        Hint::NoSuffix
    } else {
        Hint::Nothing
    })
}

/// What is known of a word that is no path.
fn path_hint(word: &[u8]) -> Hint
    ensures { result ≡ path_hint word.now }
{
    if is_dashed(word) {
        Hint::UnknownOption
    } else {
        Hint::Nothing
    }
}
