//! The texts that paths and targets may have.
ghost use Rattle.std.specs.Prelude.{◌≡◌};
ghost use Rattle.std.specs.List.{list_all, slice_split};
ghost use Rattle.unit_paths.specs.Paths.{is_text_byte, is_part, is_slash, is_absolute, is_path, is_target};

use crate::fault::MAX_PATH;

#[tactic(auto, unfolding(crate::specs::Paths::is_text_byte))]
fn is_text_byte(b: u8) -> bool
    ensures { result ≡ is_text_byte b }
{
    !(b == b'\0' || b == b'\t' || b == b'\n')
}

fn has_text_bytes(text: &[u8]) -> bool
    ensures { result ≡ list_all is_text_byte text.now }
{
    text.iter().all(|b| is_text_byte(*b))
}

/// Whether a text may be a part between two slashes of a path.
#[tactic(auto, unfolding(crate::specs::Paths::is_part))]
pub(crate) fn is_part(part: &[u8]) -> bool
    ensures { result ≡ is_part part.now }
{
    match part {
        [] => false,
        [a] => *a != b'.',
        [a, b] => !(*a == b'.' && *b == b'.'),
        _ => true,
    }
}

fn has_parts(text: &[u8]) -> bool
    ensures { result ≡ list_all is_part (slice_split is_slash text.now) }
{
    text.split(|b| *b == b'/').all(|part| is_part(part))
}

#[tactic(auto, unfolding(crate::specs::Paths::is_absolute))]
fn is_absolute(text: &[u8]) -> bool
    ensures { result ≡ is_absolute text.now }
{
    match text {
        [] => false,
        [first, rest @ ..] => *first == b'/' && has_parts(rest),
    }
}

#[tactic(auto, unfolding(crate::specs::Paths::is_path))]
pub(crate) fn is_path(text: &[u8]) -> bool
    ensures { result ≡ is_path text.now }
{
    text.len() <= MAX_PATH && has_text_bytes(text) && is_absolute(text)
}

#[tactic(auto, unfolding(crate::specs::Paths::is_target))]
pub(crate) fn is_target(text: &[u8]) -> bool
    ensures { result ≡ is_target text.now }
{
    !text.is_empty() && text.len() <= MAX_PATH && has_text_bytes(text)
}
