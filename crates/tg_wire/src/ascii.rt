//! Whether bytes are ASCII, as those of most lines are. Two vectors that overlap cover a short line.

ghost use Rattle.std.specs.Prelude.{◌+◌, ◌≤◌, length};
ghost use Rattle.std.specs.Bool.{OnTrue};
ghost use Rattle.tg_wire.specs.Inner.Runs.{AsciiBetween};

use std::simd::prelude::*;

/// Whether each byte is ASCII.
#[inline(always)]
pub(crate) fn is_ascii(bytes: &[u8]) -> bool
    ensures { OnTrue result (AsciiBetween bytes.now 0 (length bytes.now)) }
{
    let len = bytes.len();
    if len < 16 {
        bytes.is_ascii()
    } else if len <= 32 {
        ascii_16(bytes, 0) && ascii_16(bytes, len - 16)
    } else if len <= 64 {
        ascii_32(bytes, 0) && ascii_32(bytes, len - 32)
    } else {
        ascii_long(bytes)
    }
}

#[inline(never)]
fn ascii_long(bytes: &[u8]) -> bool
    requires { 64 ≤ length bytes.now }
    ensures { OnTrue result (AsciiBetween bytes.now 0 (length bytes.now)) }
{
    let mut at = 0;
    while bytes.len() - at > 64 {
        if !ascii_64(bytes, at) {
            return false;
        }
        at += 64;
    }
    ascii_64(bytes, bytes.len() - 64)
}

#[inline(always)]
fn ascii_64(bytes: &[u8], at: usize) -> bool
    requires { at + 64 ≤ length bytes.now }
    ensures { OnTrue result (AsciiBetween bytes.now at (at + 64)) }
{
    let some = u8x64::from_slice(&bytes[at..]);
    some.simd_ge(u8x64::splat(0x80)).to_bitmask() == 0
}

#[inline(always)]
fn ascii_32(bytes: &[u8], at: usize) -> bool
    requires { at + 32 ≤ length bytes.now }
    ensures { OnTrue result (AsciiBetween bytes.now at (at + 32)) }
{
    let some = u8x32::from_slice(&bytes[at..]);
    some.simd_ge(u8x32::splat(0x80)).to_bitmask() == 0
}

#[inline(always)]
fn ascii_16(bytes: &[u8], at: usize) -> bool
    requires { at + 16 ≤ length bytes.now }
    ensures { OnTrue result (AsciiBetween bytes.now at (at + 16)) }
{
    let some = u8x16::from_slice(&bytes[at..]);
    some.simd_ge(u8x16::splat(0x80)).to_bitmask() == 0
}
