//! Sums: SHA-256, FIPS 180-4.
ghost use Rattle.std.specs.Prelude.{◌≡◌, ◌++◌, OnOk};
ghost use Rattle.std.specs.Option.{option_map};
ghost use Rattle.std.specs.Str.{bytes_eq};
ghost use Rattle.hex.specs.Hex.{encode_lower};
ghost use Rattle.kept_texts.specs.Sums.{sum_of, next_sum, sum_words};
ghost use Rattle.kept_texts.specs.Sayings.{bytes_of};
ghost use Rattle.kept_texts.specs.Readings.{same_sum};

use hex::FromHex;
use sha2::{Digest, Sha256};
use std::alloc::AllocError;

/// A SHA-256. It is written `sha256:` and 64 digits of `0` to `9` and `a` to `f`.
#[derive(Clone, Copy, Debug, PartialEq, Eq, Hash)]
pub struct Sum {
    pub bytes: [u8; 32],
}

/// The sum of some bytes.
pub(crate) fn sum_of(bytes: &[u8]) -> Sum
    ensures { result ≡ sum_of bytes.now }
{
    Sum {
        bytes: Sha256::digest(bytes),
    }
}

/// The sum of some bytes and others after them.
pub(crate) fn sum_of_both(first: &[u8], second: &[u8]) -> Sum
    ensures { result ≡ sum_of (first.now ++ second.now) }
{
    let mut hasher = Sha256::new();
    hasher.update(first);
    hasher.update(second);
    Sum {
        bytes: hasher.finalize(),
    }
}

/// The sum of a run with this text, after the sum of what comes before it.
pub(crate) fn next_sum(before: &Sum, text: &[u8]) -> Sum
    ensures { result ≡ next_sum before.now text.now }
{
    sum_of_both(&before.bytes, text)
}

pub(crate) fn is_same(one: &Sum, other: &Sum) -> bool
    ensures { result ≡ same_sum one.now other.now }
{
    one.bytes.as_slice() == other.bytes.as_slice()
}

/// Appends bytes as hexadecimal digits.
pub(crate) fn push_hex(line: &mut Vec<u8>, bytes: &[u8]) -> Result<(), AllocError>
    ensures { OnOk result (line.new.items ≡ line.old.items ++ encode_lower bytes.now) }
{
    let digits = hex::encode(*line.allocator(), bytes)?;
    line.extend_from_slice(digits.as_bytes())
}

/// Appends the words of a sum.
#[tactic(auto, unfolding(crate::specs::Sums::sum_words))]
pub(crate) fn push_sum(line: &mut Vec<u8>, sum: &Sum) -> Result<(), AllocError>
    ensures { OnOk result (line.new.items ≡ line.old.items ++ sum_words sum.now) }
{
    line.extend_from_slice(b"sha256:")?;
    push_hex(line, &sum.bytes)
}

/// The bytes of a sum that hexadecimal digits may represent.
pub(crate) fn sum_bytes(digits: &[u8]) -> Option<[u8; 32]>
    ensures { result ≡ bytes_of 32 digits.now }
{
    match <[u8; 32] as FromHex>::from_hex(digits) {
        Ok(bytes) => Some(bytes),
        Err(_) => None,
    }
}

/// The bytes of the name of a history that hexadecimal digits may represent.
pub(crate) fn id_bytes(digits: &[u8]) -> Option<[u8; 16]>
    ensures { result ≡ bytes_of 16 digits.now }
{
    match <[u8; 16] as FromHex>::from_hex(digits) {
        Ok(bytes) => Some(bytes),
        Err(_) => None,
    }
}
