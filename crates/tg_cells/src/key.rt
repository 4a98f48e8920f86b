//! The key that determines in which bucket of the index an edge lies.
ghost use Rattle.std.specs.Prelude.{◌≡◌, ◌<◌, ◌≤◌};
ghost use Rattle.tg_cells.specs.Inner.Index.{bucket_of};

/// The key of an index. Any two numbers will do, and no answer depends on them. Odd numbers with well-mixed bits are
/// meant to spread edges evenly, and numbers that nobody can guess, to keep anybody from choosing edges that all lie in
/// one bucket. No contract says that they do.
#[derive(Clone, Copy)]
pub struct Key {
    /// What an edge's owner is multiplied by.
    pub owner: u64,
    /// What the edge's serial is multiplied by, without its lowest six bits.
    pub serial: u64,
}

impl Key {
    /// The key that is used if none is given. Everybody can read it here, and with it choose edges that all lie in one
    /// bucket.
    pub const FIXED: Key = Key {
        owner: 0x9E37_79B9_7F4A_7C15,
        serial: 0x9FB2_1C65_1E98_DF25,
    };
}

/// The bucket of an edge, among this many, a power of two. One owner's edges to a block of 64 serials, which differ
/// only in their lowest six bits, lie side by side in the heads, so that they share lines of the processor's cache, and
/// among 64 buckets or more no two of them lie in one. The key determines where each block begins, for each owner.
#[tactic(auto, unfolding(crate::specs::Inner::Index::bucket_of))]
pub(crate) fn bucket_of(key: Key, owner: u32, serial: u64, buckets: usize) -> usize
    requires { 1 ≤ buckets }
    ensures is { result ≡ bucket_of key buckets owner serial }
    ensures within { result < buckets }
{
    let block = (serial >> 6).wrapping_mul(key.serial);
    let mixed = block.wrapping_add((owner as u64).wrapping_mul(key.owner));
    (serial.wrapping_add(mixed >> 32) as usize) & (buckets - 1)
}
