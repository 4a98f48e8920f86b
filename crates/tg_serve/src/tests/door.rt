//! How long a client that cannot be accepted is tried again, and for which failures; and who comes late.

use crate::door::{Door, Rests, Taken, is_in_vain, is_tick, is_want};
use std::io;
use std::io::ErrorKind;
use std::net::{TcpListener, TcpStream};
use std::sync::Mutex;

/// The rests in milliseconds, each twice the one before, up to half a second.
const FIRST: [u64; 11] = [1, 2, 4, 8, 16, 32, 64, 128, 256, 500, 500];

/// The rests that are left, added up.
fn rests_left(rests: &mut Rests) -> u64 {
    let mut all = 0u64;
    for _ in 0..1_000u32 {
        let Some(rest) = rests.take() else {
            break;
        };
        all = all.saturating_add(rest);
    }
    all
}

#[test]
fn rests_grow_for_ten_seconds(rt: HostRuntime) {
    let mut rests = Rests::new();
    for rest in FIRST {
        assert_eq!(rt; rests.take(), Some(rest));
    }
    // 1,511 milliseconds are over, and seventeen rests of half a second are left.
    assert_eq!(rt; rests_left(&mut rests), 8_500);
}

#[test]
fn only_want_of_descriptors_or_memory_is_tried_again(rt: HostRuntime) {
    for number in [12, 23, 24, 105] {
        assert!(rt; is_want(&io::Error::from_raw_os_error(number)));
    }
    for number in [4, 11, 22, 103, 104] {
        assert!(rt; !is_want(&io::Error::from_raw_os_error(number)));
    }
    assert!(rt; !is_want(&io::Error::from(ErrorKind::OutOfMemory)));
}

#[test]
fn a_tick_is_no_failure(rt: HostRuntime) {
    assert!(rt; is_tick(&io::Error::from_raw_os_error(11)));
    assert!(rt; is_tick(&io::Error::from(ErrorKind::TimedOut)));
    assert!(rt; !is_tick(&io::Error::from_raw_os_error(4)));
    assert!(rt; !is_tick(&io::Error::from_raw_os_error(104)));
}

#[test]
fn ticks_and_signals_are_waits_in_vain(rt: HostRuntime) {
    assert!(rt; is_in_vain(&io::Error::from_raw_os_error(11)));
    assert!(rt; is_in_vain(&io::Error::from_raw_os_error(4)));
    assert!(rt; !is_in_vain(&io::Error::from_raw_os_error(104)));
}

/// A client that comes while the door of a round is being closed is the first of the next round, though another one
/// waits, and counts there alone.
#[test]
fn who_comes_late_is_in_the_next_round(rt: HostRuntime) -> io::Result<()> {
    let listener = TcpListener::bind(&rt, "127.0.0.1:0")?;
    let address = listener.local_addr()?;
    let late = Mutex::new(None);
    let door = Door::new(&listener, &late, 3);
    let _early = TcpStream::connect(&rt, address)?;
    let (stream, _) = listener.accept()?;
    door.close();
    let mut left = 3;
    assert!(rt; door.let_in(&rt, &mut left, stream).is_none());
    assert_eq!(rt; left, 3);
    let _waiting = TcpStream::connect(&rt, address)?;
    let next = Door::new(&listener, &late, 3);
    assert!(rt; matches!(next.take(&rt), Some(Taken::Client(_))));
    assert!(rt; late.lock(&rt).is_none());
    assert_eq!(rt; next.left(&rt), 2);
    assert!(rt; matches!(next.take(&rt), Some(Taken::Client(_))));
    assert_eq!(rt; next.left(&rt), 1);
    Ok(())
}
