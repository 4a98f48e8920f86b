//! Parts of a line, each written before what stands in a room already.
//!
//! So the digits of a number are written without being counted, and a line grows once for all its parts.

ghost use Rattle.std.specs.Prelude.{◌≡◌, ◌+◌, ◌≤◌, ◌++◌, decimal, drop, length};
ghost use Rattle.json.specs.Print.{quoted};
ghost use Rattle.tg_rights.specs.Promise.Written.{rights_text};

use itoa::write_digits;
use tg_rights::Rights;

/// The letters of rights in quotes, by their bits: as many of the eight bytes as the number says, the last ones.
const LETTERS: [([u8; 8], usize); 16] = [
    (*b"      \"\"", 2),
    (*b"     \"r\"", 3),
    (*b"     \"w\"", 3),
    (*b"    \"rw\"", 4),
    (*b"     \"t\"", 3),
    (*b"    \"rt\"", 4),
    (*b"    \"wt\"", 4),
    (*b"   \"rwt\"", 5),
    (*b"     \"g\"", 3),
    (*b"    \"rg\"", 4),
    (*b"    \"wg\"", 4),
    (*b"   \"rwg\"", 5),
    (*b"    \"tg\"", 4),
    (*b"   \"rtg\"", 5),
    (*b"   \"wtg\"", 5),
    (*b"  \"rwtg\"", 6),
];

// Each returns where what it writes starts.
/// Some bytes.
#[inline(always)]
pub(crate) fn bytes_before(room: &mut [u8], end: usize, bytes: &[u8]) -> usize
    requires room { length bytes.now ≤ end }
    requires end { end ≤ length room.old }
    ensures size { result + length bytes.now ≡ end }
    ensures text { drop result room.new ≡ bytes.now ++ drop end room.old }
{
    let start = end - bytes.len();
    room[start..end].copy_from_slice(bytes);
    start
}

/// A number's digits, twenty at most.
#[inline(always)]
pub(crate) fn number_before(room: &mut [u8], end: usize, number: u64) -> usize
    requires room { 20 ≤ end }
    requires end { end ≤ length room.old }
    ensures low { end ≤ result + 20 }
    ensures high { result ≤ end }
    ensures text { drop result room.new ≡ decimal number ++ drop end room.old }
{
    write_digits(number, room, end)
}

/// The letters of rights, in quotes: up to six bytes, for which eight are written.
#[inline(always)]
pub(crate) fn letters_before(room: &mut [u8], end: usize, rights: Rights) -> usize
    requires room { 8 ≤ end }
    requires end { end ≤ length room.old }
    ensures low { end ≤ result + 6 }
    ensures high { result ≤ end }
    ensures text { drop result room.new ≡ quoted (rights_text rights) ++ drop end room.old }
{
    let (bytes, size) = &LETTERS[rights.bits() as usize];
    room[end - 8..end].copy_from_slice(bytes);
    end - *size
}
