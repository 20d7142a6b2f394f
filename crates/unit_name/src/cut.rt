//! A text, split at one byte.
ghost use Rattle.std.specs.Prelude.{◌≡◌, ◌==◌, true, false, MatchOption};
ghost use Rattle.std.specs.List.{list_any, before_first, after_first, before_last, after_last};

/// The text before the first `byte`, and the text after it.
pub(crate) fn cut_at_first(text: &[u8], byte: u8) -> Option<(&[u8], &[u8])>
    ensures { MatchOption result (list_any (λ b. b == byte) text.now ≡ false) (λ cut. (list_any (λ b. b == byte) text.now ≡ true) × (cut.0.now ≡ before_first (λ b. b == byte) text.now) × (cut.1.now ≡ after_first (λ b. b == byte) text.now)) }
{
    for (i, b) in text.iter().enumerate() {
        if *b == byte {
            return Some((&text[..i], &text[i + 1..]));
        }
    }
    None
}

/// The text before the last `byte`, and the text after it.
pub(crate) fn cut_at_last(text: &[u8], byte: u8) -> Option<(&[u8], &[u8])>
    ensures { MatchOption result (list_any (λ b. b == byte) text.now ≡ false) (λ cut. (list_any (λ b. b == byte) text.now ≡ true) × (cut.0.now ≡ before_last (λ b. b == byte) text.now) × (cut.1.now ≡ after_last (λ b. b == byte) text.now)) }
{
    for i in (0..text.len()).rev() {
        if text[i] == byte {
            return Some((&text[..i], &text[i + 1..]));
        }
    }
    None
}
