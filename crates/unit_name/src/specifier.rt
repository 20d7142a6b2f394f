ghost use Rattle.std.specs.Prelude.{◌≡◌, ◌<◌, length, IfOk, IfSome, IfNone, Some, None};
ghost use Rattle.std.specs.List.{after_last};
ghost use Rattle.std.specs.Option.{option_copied};
ghost use Rattle.unit_name.specs.Specifiers.{expansion, onto, specifier, is_dash};

use crate::cut::cut_at_last;
use crate::fault::ExpandError;
use crate::name::UnitName;
use crate::part::{prefix_in, stem_in};
use std::alloc::Global;

/// The word with each specifier replaced by its value for the name: `%i` the instance, or nothing
/// if there is none, `%n` the whole name, `%N` the name without dot and type, `%p` the prefix, `%j`
/// what follows the last dash of the prefix, `%%` a percent sign.
///
/// systemd.unit(5), "Specifiers".
pub fn expand(alloc: Global, word: &[u8], name: &UnitName) -> Result<Vec<u8>, ExpandError>
    ensures text { IfOk result (λ text. expansion name.now word.now ≡ Some text.items) }
    ensures unknown { result ≡ Err ExpandError.UnknownSpecifier → expansion name.now word.now ≡ None }
{
    let mut text = Vec::new(alloc);
    let mut rest = word;
    'pieces: while !rest.is_empty() {
        let Some((piece, after)) = first_piece(name, rest) else {
            return Err(ExpandError::UnknownSpecifier);
        };
        text.extend_from_slice(piece)?;
        rest = after;
    }
    Ok(text)
}

/// The value of the first byte or specifier of a word, and the rest of the word.
#[tactic(auto, unfolding(crate::specs::Specifiers::expansion))]
fn first_piece<'a>(name: &'a UnitName, word: &'a [u8]) -> Option<(&'a [u8], &'a [u8])>
    requires { 0 < length word.now }
    ensures piece { IfSome result (λ cut. expansion name.now word.now ≡ onto cut.0.now (expansion name.now cut.1.now)) }
    ensures shorter { IfSome result (λ cut. length cut.1.now < length word.now) }
    ensures unknown { IfNone result (expansion name.now word.now ≡ None) }
{
    match word {
        [b'%', letter, rest @ ..] => match specifier_text(name, *letter) {
            Some(value) => Some((value, rest)),
            None => None,
        },
        [b'%'] => None,
        _ => Some((&word[..1], &word[1..])),
    }
}

/// The value of the specifier `%` with this letter.
#[tactic(auto, unfolding(crate::specs::Specifiers::specifier))]
fn specifier_text(name: &UnitName, letter: u8) -> Option<&[u8]>
    ensures { option_copied result ≡ specifier name.now letter }
{
    match letter {
        b'i' => Some(name.instance().unwrap_or(&[])),
        b'n' => Some(name.text()),
        b'N' => Some(stem_in(name.text())),
        b'p' => Some(prefix_in(name.text())),
        b'j' => Some(after_last_dash(prefix_in(name.text()))),
        b'%' => Some(b"%"),
        _ => None,
    }
}

fn after_last_dash(text: &[u8]) -> &[u8]
    ensures { result.now ≡ after_last is_dash text.now }
{
    match cut_at_last(text, b'-') {
        Some((_, after)) => after,
        None => text,
    }
}
