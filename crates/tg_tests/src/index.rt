//! Scripts of calls on the buckets of an index, and the rows that they must leave. The helpers stop a test if a call's
//! condition is not met.
ghost use Rattle.std.specs.Prelude.{◌≡◌, ◌<◌, length, MatchBool, IfOk};
ghost use Rattle.tg_lists.specs.Promise.Membership.{Contains};
ghost use Rattle.tg_index.specs.Promise.Rows.{row, IsHeld, IsUnheld};

use std::alloc::{AllocError, Global};
use std::process::Abort;
use tg_index::Buckets;

/// One call of a script, or what must be seen after the calls before it. A bucket comes first.
#[derive(Clone, Copy)]
enum Act {
    /// A number is put in front of the row.
    Put(usize, u32),
    /// A number leaves the row.
    Take(usize, u32),
    /// The whole row, newest first.
    Row(usize, &'static [u32]),
}

use Act::{Put, Row, Take};

/// Whether the bucket's row has the number.
fn has(index: &Buckets, bucket: usize, number: u32) -> bool
    requires { bucket < length index.now.lists }
    ensures { MatchBool result (Contains (row index.now.lists bucket) number) (Contains (row index.now.lists bucket) number → ⊥) }
{
    index.soundness();
    let mut cursor = index.first(bucket);
    while let Some(current) = cursor {
        if current == number {
            return true;
        }
        cursor = index.next(current);
    }
    false
}

/// The number is in the bucket's row.
fn is_in(rt: &impl Abort, index: &Buckets, bucket: usize, number: u32)
    ensures row { Contains (row index.now.lists bucket) number }
    ensures held { IsHeld index.now.lists number }
{
    assert!(rt; bucket < index.buckets());
    assert!(rt; has(index, bucket, number));
}

/// The number is not in the bucket's row.
fn is_not_in(rt: &impl Abort, index: &Buckets, bucket: usize, number: u32)
    requires { bucket < length index.now.lists }
    ensures { Contains (row index.now.lists bucket) number → ⊥ }
{
    assert!(rt; !has(index, bucket, number));
}

/// The number is in no row.
fn is_unheld(rt: &impl Abort, index: &Buckets, number: u32)
    ensures { IsUnheld index.now.lists number }
{
    for bucket in 0..index.buckets() {
        is_not_in(rt, index, bucket, number);
    }
}

/// Puts one of the 8 numbers in front of the bucket's row, and returns how many of them were used then.
fn put(rt: &impl Abort, index: &mut Buckets, used: u32, bucket: usize, number: u32) -> u32
    requires used { index.old.used ≡ used }
    requires size { index.old.size ≡ 8 }
    ensures used { index.new.used ≡ result }
    ensures size { index.new.size ≡ 8 }
{
    assert!(rt; bucket < index.buckets());
    assert!(rt; number <= used);
    assert!(rt; number < 8);
    is_unheld(rt, index, number);
    index.put(bucket, number);
    if number < used {
        return used;
    }
    used + 1
}

fn take(rt: &impl Abort, index: &mut Buckets, bucket: usize, number: u32)
    ensures used { index.new.used ≡ index.old.used }
    ensures size { index.new.size ≡ index.old.size }
{
    is_in(rt, index, bucket, number);
    index.take(bucket, number);
}

/// The bucket's row is this one, from its first number to the next and the next.
fn has_row(rt: &impl Abort, index: &Buckets, bucket: usize, wanted: &[u32]) {
    assert!(rt; bucket < index.buckets());
    let mut next = index.first(bucket);
    for number in wanted {
        assert!(rt; next == Some(*number));
        is_in(rt, index, bucket, *number);
        next = index.next(*number);
    }
    assert!(rt; next.is_none());
}

/// Carries out one line of a script, and returns how many of the 8 numbers were used then.
fn play(rt: &impl Abort, index: &mut Buckets, used: u32, act: Act) -> u32
    requires used { index.old.used ≡ used }
    requires size { index.old.size ≡ 8 }
    ensures used { index.new.used ≡ result }
    ensures size { index.new.size ≡ 8 }
{
    match act {
        Put(bucket, number) => put(rt, index, used, bucket, number),
        Take(bucket, number) => {
            take(rt, index, bucket, number);
            used
        }
        Row(bucket, wanted) => {
            has_row(rt, index, bucket, wanted);
            used
        }
    }
}

/// Carries out a script over an index of 8 numbers, none of which was used.
fn play_all(rt: &impl Abort, index: &mut Buckets, acts: &[Act])
    requires used { index.old.used ≡ 0 }
    requires size { index.old.size ≡ 8 }
{
    let mut used = 0;
    for act in acts {
        used = play(rt, index, used, *act);
    }
}

/// The first number of a row leaves it, one in the middle, the last and the only one; then they come back in another
/// order, and others leave. Meanwhile rows that are not named stay.
const COME_AND_GO: &[Act] = &[
    Put(1, 0),
    Put(1, 1),
    Put(2, 2),
    Put(1, 3),
    Put(1, 4),
    Row(0, &[]),
    Row(1, &[4, 3, 1, 0]),
    Row(2, &[2]),
    Take(1, 4),
    Row(1, &[3, 1, 0]),
    Take(1, 1),
    Row(1, &[3, 0]),
    Take(1, 0),
    Row(1, &[3]),
    Take(2, 2),
    Row(2, &[]),
    Put(2, 1),
    Put(1, 0),
    Put(2, 4),
    Put(1, 2),
    Put(3, 5),
    Row(0, &[]),
    Row(1, &[2, 0, 3]),
    Row(2, &[4, 1]),
    Row(3, &[5]),
    Take(1, 0),
    Row(1, &[2, 3]),
    Take(1, 3),
    Take(2, 1),
    Take(3, 5),
    Row(1, &[2]),
    Row(2, &[4]),
    Row(3, &[]),
    Put(0, 5),
    Put(0, 6),
    Put(0, 7),
    Put(0, 0),
    Row(0, &[0, 7, 6, 5]),
    Take(0, 7),
    Take(0, 6),
    Row(0, &[0, 5]),
    Take(0, 5),
    Take(0, 0),
    Row(0, &[]),
    Row(1, &[2]),
    Row(2, &[4]),
];

#[test]
fn numbers_come_and_go(rt: HostRuntime) -> Result<(), AllocError> {
    let mut index = Buckets::new(rt.alloc(), 4, 8)?;
    play_all(&rt, &mut index, COME_AND_GO);
    Ok(())
}

/// Four buckets for 8 numbers, made again if memory runs out: tests/faults/growths.py makes each allocation fail in
/// turn.
fn made_again(rt: &impl Print, alloc: Global) -> Result<Buckets, AllocError>
    ensures { IfOk result (λ r. (r.used ≡ 0) × (r.size ≡ 8)) }
{
    match Buckets::new(alloc, 4, 8) {
        Ok(index) => Ok(index),
        Err(_) => {
            let _ = rt.println("no memory");
            Buckets::new(alloc, 4, 8)
        }
    }
}

/// All rows are empty after a failed allocation too, and one is filled and emptied.
const ALL_EMPTY: &[Act] = &[
    Row(0, &[]),
    Row(3, &[]),
    Put(3, 0),
    Put(3, 1),
    Row(3, &[1, 0]),
    Take(3, 0),
    Take(3, 1),
    Row(3, &[]),
];

#[test]
fn growth_refused_in_new_buckets(rt: HostRuntime) -> Result<(), AllocError> {
    let mut index = made_again(&rt, rt.alloc())?;
    play_all(&rt, &mut index, ALL_EMPTY);
    Ok(())
}
