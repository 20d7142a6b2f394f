//! Splitting texts at slashes.
ghost use Rattle.std.specs.Prelude.{◌≡◌, ◌+◌, ◌≤◌, ◌<◌, IfSome, length, take};
ghost use Rattle.std.specs.Option.{option_map};
ghost use Rattle.std.specs.List.{position};
ghost use Rattle.unit_paths.specs.Paths.{is_slash, parent, name_at};
ghost use Rattle.unit_paths.specs.Canonical.{cut_at_slash, begins_with_slash};

/// What comes before the last slash and after it; nothing and the whole text if there is no slash.
pub(crate) fn cut_at_last_slash(text: &[u8]) -> (&[u8], &[u8])
    ensures parent { result.0.now ≡ parent text.now }
    ensures name { result.1.now ≡ name_at text.now }
{
    for i in (0..text.len()).rev() {
        if text[i] == b'/' {
            return (&text[..i], &text[i + 1..]);
        }
    }
    (&[], text)
}

/// The number of bytes before the last slash.
pub(crate) fn parent_len(text: &[u8]) -> usize
    ensures len { take result text.now ≡ parent text.now }
    ensures within { result ≤ length text.now }
{
    cut_at_last_slash(text).0.len()
}

#[tactic(auto, unfolding(crate::specs::Canonical::begins_with_slash))]
pub(crate) fn begins_with_slash(text: &[u8]) -> bool
    ensures { result ≡ begins_with_slash text.now }
{
    match text {
        [first, ..] => *first == b'/',
        [] => false,
    }
}

fn find_slash(text: &[u8]) -> Option<usize>
    ensures place { result ≡ position is_slash text.now }
    ensures within { IfSome result (λ i. i < length text.now) }
{
    text.iter().position(|b| *b == b'/')
}

/// What comes before the first slash and after it; `None` if there is no slash.
pub(crate) fn cut_at_slash(text: &[u8]) -> Option<(&[u8], &[u8])>
    ensures cut { option_map (λ cut. (cut.0.now, cut.1.now)) result ≡ cut_at_slash text.now }
    ensures shorter { IfSome result (λ cut. length cut.0.now + length cut.1.now < length text.now) }
{
    match find_slash(text) {
        Some(i) => Some((&text[..i], &text[i + 1..])),
        None => None,
    }
}
