//! Parts in slots: taken and put by one thread and by two.
ghost use Rattle.std.specs.Prelude.{◌≡◌, ◌≢◌, ◌<◌, ◌≤◌, []};
ghost use Rattle.shard_slots.specs.Shards.{count_of};

use shard_slots::{ShardSeat, Shards};
use std::sync::Arc;
use std::test::*;
use std::thread;
use std::thread::Threads;

#[test]
fn one_thread_takes_and_puts(rt: HostRuntime) -> Result<(), Fail> {
    let (shards, mut seat) = Shards::new(vec![in rt.alloc(); 10u32, 20]?)?;
    assert_eq!(rt; shards.count(), 2);
    let mut second = shards.split(&mut seat);
    assert_eq!(rt; shards.take_shard(&mut seat, 0), Some(10));
    assert_eq!(rt; shards.take_shard(&mut second, 0), None);
    shards.put_shard(&mut seat, 0, 11);
    assert_eq!(rt; shards.take_shard(&mut second, 0), Some(11));
    shards.put_shard(&mut second, 0, 11);
    shards.join(&mut seat, second);
    let closed = shards.close(seat);
    assert!(rt; closed.as_slice() == [11, 20].as_slice());
    Ok(())
}

#[test]
fn parts_are_put_in_another_order(rt: HostRuntime) -> Result<(), Fail> {
    let shared = Arc::new(rt.alloc(), 7u8)?;
    let zero = (0u32, Arc::try_clone(&shared)?);
    let one = (1u32, Arc::try_clone(&shared)?);
    let two = (2u32, Arc::try_clone(&shared)?);
    let parts = vec![in rt.alloc(); zero, one, two]?;
    let (shards, mut seat) = Shards::new(parts)?;
    assert!(rt; swap_parts(&shards, &mut seat, 0, 1) && swap_parts(&shards, &mut seat, 2, 0));
    assert_eq!(rt; Arc::strong_count(&shared), 4);
    let Some(part) = shards.take_shard(&mut seat, 2) else {
        panic!(rt; "a seat with all the weight finds each part");
    };
    assert_eq!(rt; part.0, 1);
    drop(part);
    assert_eq!(rt; Arc::strong_count(&shared), 3);
    drop(shards);
    assert_eq!(rt; Arc::strong_count(&shared), 1);
    Ok(())
}

/// Takes two parts and puts each into the other's slot, if both are in their slots.
fn swap_parts<T: Drop>(shards: &Shards<T>, seat: &mut ShardSeat<T>, n: u32, m: u32) -> bool
    requires of { seat.old.of ≡ shards.now }
    requires parts { (n < count_of shards.now) × (m < count_of shards.now) × (n ≢ m) }
    requires held { seat.old.held ≡ [] }
    ensures { seat.new ≡ seat.old }
{
    let Some(first) = shards.take_shard(seat, n) else {
        return false;
    };
    let Some(second) = shards.take_shard(seat, m) else {
        shards.put_shard(seat, n, first);
        return false;
    };
    shards.put_shard(seat, n, second);
    shards.put_shard(seat, m, first);
    true
}

/// Adds one to a part, if it is in its slot, and tells how often it did.
fn add_one(shards: &Shards<u64>, seat: &mut ShardSeat<u64>, n: u32) -> u64
    requires of { seat.old.of ≡ shards.now }
    requires part { n < count_of shards.now }
    requires held { seat.old.held ≡ [] }
    ensures { seat.new ≡ seat.old }
{
    match shards.take_shard(seat, n) {
        Some(part) => {
            shards.put_shard(seat, n, part.wrapping_add(1));
            1
        }
        None => 0,
    }
}

/// Goes over four parts again and again.
fn add_often(shards: &Shards<u64>, mut seat: ShardSeat<u64>) -> (ShardSeat<u64>, u64)
    requires of { seat.of ≡ shards.now }
    requires parts { 4 ≤ count_of shards.now }
    requires held { seat.held ≡ [] }
    ensures { result.0 ≡ seat }
{
    let mut count = 0u64;
    for round in 0..2000u32 {
        count = count.wrapping_add(add_one(shards, &mut seat, round % 4));
    }
    (seat, count)
}

fn add_in_two_threads<R: Threads + Sync>(
    rt: &R,
    shards: &Shards<u64>,
    first: ShardSeat<u64>,
    second: ShardSeat<u64>,
) -> ((ShardSeat<u64>, u64), (ShardSeat<u64>, u64))
    requires of { (first.of ≡ shards.now) × (second.of ≡ shards.now) }
    requires parts { 4 ≤ count_of shards.now }
    requires held { (first.held ≡ []) × (second.held ≡ []) }
    ensures { (result.0.0 ≡ first) × (result.1.0 ≡ second) }
{
    thread::join(
        rt,
        || add_often(shards, first),
        || add_often(shards, second),
    )
}

#[test]
fn two_threads_lose_no_change(rt: HostRuntime) -> Result<(), Fail> {
    let (shards, mut seat) = Shards::new(vec![in rt.alloc(); 0u64, 0, 0, 0]?)?;
    let second = shards.split(&mut seat);
    let ((mut seat, ours), (second, theirs)) = add_in_two_threads(&rt, &shards, seat, second);
    shards.join(&mut seat, second);
    let closed = shards.close(seat);
    let sum = closed
        .iter()
        .fold(0u64, |sum, part| sum.wrapping_add(*part));
    assert_eq!(rt; sum, ours.wrapping_add(theirs));
    assert!(rt; sum > 0);
    Ok(())
}

/// Takes a part of any type in each of two threads.
fn take_in_two_threads<T: Drop + Send + Sync, R: Threads + Sync>(
    rt: &R,
    shards: &Shards<T>,
    mut first: ShardSeat<T>,
    mut second: ShardSeat<T>,
) -> (Option<T>, Option<T>)
    requires of { (first.of ≡ shards.now) × (second.of ≡ shards.now) }
    requires parts { 0 < count_of shards.now }
    requires held { (first.held ≡ []) × (second.held ≡ []) }
{
    thread::join(
        rt,
        || shards.take_shard(&mut first, 0),
        || shards.take_shard(&mut second, 0),
    )
}

#[test]
fn one_of_two_threads_takes_a_part(rt: HostRuntime) -> Result<(), Fail> {
    let (shards, mut seat) = Shards::new(vec![in rt.alloc(); 7u8]?)?;
    let second = shards.split(&mut seat);
    let (one, other) = take_in_two_threads(&rt, &shards, seat, second);
    assert_eq!(rt; one.or(other), Some(7));
    assert!(rt; one.is_none() || other.is_none());
    Ok(())
}
