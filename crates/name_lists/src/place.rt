//! Where the list of a name is stored.
ghost use Rattle.std.specs.Prelude.{◌≡◌, ◌<◌, ◌/◌, ◌^◌};
ghost use Rattle.name_lists.specs.Lists.{hash_from, mixed, shelf_of, bucket_of};
ghost use Rattle.name_lists.specs.declared.place.TheConstants.{BUCKETS, SHELVES};

/// The maximum number of shelves.
pub(crate) const SHELVES: u64 = 32;

/// The maximum number of buckets on a shelf.
pub(crate) const BUCKETS: u64 = 32;

/// The hash of the empty text: the initial value of the FNV hash.
const FNV_START: u64 = 14_695_981_039_346_656_037;

/// The multiplier of FNV.
const FNV_PRIME: u64 = 1_099_511_628_211;

/// The shelf of a name.
pub(crate) fn shelf_of(name: &[u8]) -> usize
    ensures shelf { result ≡ shelf_of name.now }
    ensures bound { result < 32 }
{
    (high_bits(name) / BUCKETS % SHELVES) as usize
}

/// The bucket of a name on its shelf.
pub(crate) fn bucket_of(name: &[u8]) -> usize
    ensures bucket { result ≡ bucket_of name.now }
    ensures bound { result < 32 }
{
    (high_bits(name) % BUCKETS) as usize
}

/// The upper half of the hash of a name.
fn high_bits(name: &[u8]) -> u64
    ensures { result ≡ hash_from FNV_START name.now / 2 ^ 32 }
{
    hash_from(FNV_START, name) >> 32
}

/// The hash of a text, continued from this hash of its first bytes.
fn hash_from(mut hash: u64, bytes: &[u8]) -> u64
    ensures { result ≡ hash_from hash bytes.now }
{
    for byte in bytes {
        hash = mixed(hash, *byte);
    }
    hash
}

/// The hash with one more byte.
#[inline]
fn mixed(hash: u64, byte: u8) -> u64
    ensures { result ≡ mixed hash byte }
{
    hash.wrapping_add(u64::from(byte)).wrapping_mul(FNV_PRIME)
}
