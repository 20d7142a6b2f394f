//! The number that a word represents.
ghost use Rattle.std.specs.Prelude.{◌≡◌, ◌∷◌, []};
ghost use Rattle.script_words.specs.Numbers.{number_from, number_of};

#[tactic(auto, unfolding(crate::specs::Numbers::number_from))]
fn with_digit(number: u32, b: u8) -> Option<u32>
    ensures { result ≡ number_from number (b ∷ []) }
{
    if !b.is_ascii_digit() {
        return None;
    }
    number.checked_mul(10)?.checked_add(u32::from(b - b'0'))
}

fn number_of_digits(word: &[u8]) -> Option<u32>
    ensures { result ≡ number_from 0 word.now }
{
    let mut number: u32 = 0;
    for b in word {
        match with_digit(number, *b) {
            Some(next) => number = next,
            None => return None,
        }
    }
    Some(number)
}

/// The number that a word represents: at least one decimal digit, with leading zeros allowed, and
/// below 2^32. Any other word is none.
#[tactic(auto, unfolding(crate::specs::Numbers::number_of))]
pub fn number_of(word: &[u8]) -> Option<u32>
    ensures { result ≡ number_of word.now }
{
    match word {
        [] => None,
        _ => number_of_digits(word),
    }
}
