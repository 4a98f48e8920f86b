//! The key of a server's vault, chosen at random.
ghost use Rattle.std.specs.Prelude.{◌≡◌, ◌%◌, ◌/◌, ◌^◌, bit_or};

use std::random::RandomSource;
use tg_vault::Key;

/// A key of random numbers, of which the source promises that nobody can guess them; or the fixed one if it returns
/// none.
pub(crate) fn key_or_fixed<S: RandomSource>(source: &S) -> Key {
    let mut bytes = [0; 16];
    match source.fill_bytes(&mut bytes) {
        Ok(()) => key_of(u128::from_le_bytes(bytes)),
        Err(_) => Key::FIXED,
    }
}

/// The key of random bits: two odd numbers, of one half of them each.
fn key_of(bits: u128) -> Key
    ensures owner { result.owner ≡ bit_or (bits % 2 ^ 64) 1 }
    ensures serial { result.serial ≡ bit_or (bits / 2 ^ 64) 1 }
{
    Key {
        owner: (bits & 0xFFFF_FFFF_FFFF_FFFF) as u64 | 1,
        serial: (bits >> 64) as u64 | 1,
    }
}
