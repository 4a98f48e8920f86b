//! Keys from sources that return what is known, or nothing.

use crate::key::key_or_fixed;
use std::io;
use std::io::ErrorKind;
use std::random::RandomSource;
use tg_vault::Key;

/// Returns the bytes 0, 1, 2 and so on.
#[derive(Clone, Copy)]
struct Counting;

impl RandomSource for Counting {
    fn fill_bytes(&self, buf: &mut [u8]) -> io::Result<()> {
        let mut next = 0u8;
        for byte in buf.iter_mut() {
            *byte = next;
            next = next.wrapping_add(1);
        }
        Ok(())
    }
}

/// Returns nothing.
#[derive(Clone, Copy)]
struct Broken;

impl RandomSource for Broken {
    fn fill_bytes(&self, _buf: &mut [u8]) -> io::Result<()> {
        Err(io::Error::from(ErrorKind::Other))
    }
}

#[test]
fn a_server_takes_a_random_key_or_the_fixed_one(rt: HostRuntime) {
    assert!(rt; key_or_fixed(&Counting).owner == 0x0706_0504_0302_0101);
    assert!(rt; key_or_fixed(&Counting).serial == 0x0F0E_0D0C_0B0A_0909);
    assert!(rt; key_or_fixed(&Broken).owner == Key::FIXED.owner);
    assert!(rt; key_or_fixed(&Broken).serial == Key::FIXED.serial);
}
