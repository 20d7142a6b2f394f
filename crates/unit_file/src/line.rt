//! One line: the blanks at its ends, and whether it is a comment, opens a section or sets a key.
//!
//! systemd.syntax(7), "Introduction".
ghost use Rattle.std.specs.Prelude.{◌≡◌, ◌<◌, true, false, not, length, IsTrue, MatchOption, IfSome, Some, None};
ghost use Rattle.std.specs.List.{find, position};
ghost use Rattle.unit_file.specs.Lines.{is_blank, begins_with, ends_with, without_leading, without_trailing, stripped, is_comment, is_continued, without_last};
ghost use Rattle.unit_file.specs.Install.{opens_section, is_equals_sign, assignment};

/// Whether a byte is a blank: a space, a TAB or a CR. Takes no memory.
pub fn is_blank(b: u8) -> bool
    ensures { result ≡ is_blank b }
{
    matches!(b, b' ' | b'\t' | b'\r')
}

fn without_leading(text: &[u8]) -> &[u8]
    ensures { result.now ≡ without_leading text.now }
{
    for (i, b) in text.iter().enumerate() {
        if !is_blank(*b) {
            return &text[i..];
        }
    }
    &[]
}

fn without_trailing(text: &[u8]) -> &[u8]
    ensures { result.now ≡ without_trailing text.now }
{
    for i in (0..text.len()).rev() {
        if !is_blank(text[i]) {
            return &text[..i + 1];
        }
    }
    &[]
}

/// A text without the blanks at both ends. Takes no memory.
#[tactic(auto, unfolding(crate::specs::Lines::stripped))]
pub fn stripped(text: &[u8]) -> &[u8]
    ensures { result.now ≡ stripped text.now }
{
    without_trailing(without_leading(text))
}

fn first_not_blank(text: &[u8]) -> Option<u8>
    ensures { result ≡ find (λ b. not (is_blank b)) text.now }
{
    text.iter().copied().find(|b| !is_blank(*b))
}

/// Whether the first byte that isn't blank is `#` or `;`.
#[tactic(auto, unfolding(crate::specs::Lines::is_comment))]
pub(crate) fn is_comment(line: &[u8]) -> bool
    ensures { result ≡ is_comment line.now }
{
    match first_not_blank(line) {
        Some(b) => b == b'#' || b == b';',
        None => false,
    }
}

#[tactic(auto, unfolding(crate::specs::Lines::begins_with))]
fn begins_with(text: &[u8], b: u8) -> bool
    ensures { result ≡ begins_with b text.now }
{
    match text.first() {
        Some(first) => *first == b,
        None => false,
    }
}

#[tactic(auto, unfolding(crate::specs::Lines::ends_with))]
fn ends_with(text: &[u8], b: u8) -> bool
    ensures test { result ≡ ends_with b text.now }
    ensures not_empty { IsTrue result → 0 < length text.now }
{
    match text.last() {
        Some(last) => *last == b,
        None => false,
    }
}

/// What is before the backslash at the end of a line that continues on the next one.
pub(crate) fn before_backslash(line: &[u8]) -> Option<&[u8]>
    ensures { MatchOption result (is_continued line.now ≡ false) (λ front. (is_continued line.now ≡ true) × (front.now ≡ without_last line.now)) }
{
    if ends_with(line, b'\\') {
        Some(&line[..line.len() - 1])
    } else {
        None
    }
}

/// Whether the line is `[NAME]`, whatever the bytes of NAME.
#[tactic(auto, unfolding(crate::specs::Install::opens_section))]
pub(crate) fn opens_section(line: &[u8]) -> bool
    ensures { result ≡ opens_section line.now }
{
    begins_with(line, b'[') && ends_with(line, b']')
}

fn equals_sign(line: &[u8]) -> Option<usize>
    ensures at { result ≡ position is_equals_sign line.now }
    ensures within { IfSome result (λ at. at < length line.now) }
{
    line.iter().position(|b| *b == b'=')
}

/// The key and the value of a line `KEY=VALUE`, without the blanks around the first `=`.
#[tactic(auto, unfolding(crate::specs::Install::assignment))]
pub(crate) fn assignment(line: &[u8]) -> Option<(&[u8], &[u8])>
    ensures { MatchOption result (assignment line.now ≡ None) (λ pair. assignment line.now ≡ Some (pair.0.now, pair.1.now)) }
{
    match equals_sign(line) {
        Some(at) => Some((stripped(&line[..at]), stripped(&line[at + 1..]))),
        None => None,
    }
}
