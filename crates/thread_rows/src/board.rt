//! The board: keys that are published and read by one thread and by two.
use edge_publish::{About, Board, looks_give_own};
use std::sync::Wait;
use std::test::*;
use std::thread;
use std::thread::Threads;

/// The rule that holds of every key.
struct Anything;

impl About<u32> for Anything {
    ghost use Rattle.std.specs.Prelude.{⊤};

    ghost holds = { λ _. ⊤ };
}

#[test]
fn one_key_is_read_back(rt: HostRuntime) -> Result<(), Fail> {
    let board: Board<u32, Anything> = Board::new(rt.alloc())?;
    assert!(rt; board.look(0, None).next().is_none());
    let Ok(receipt) = board.publish(&rt, 7) else {
        panic!(rt; "memory");
    };
    assert_eq!(rt; *board.at(&receipt), 7);
    assert_eq!(rt; receipt.index(), 0);
    let mut look = board.look(0, Some(&receipt));
    let Some((index, key)) = look.next() else {
        panic!(rt; "the look ended");
    };
    assert_eq!(rt; (index, *key), (0, 7));
    assert!(rt; look.receipt().is_some_and(|seen| seen.index() == 0));
    assert!(rt; look.next().is_none());
    assert!(rt; board.look(1, Some(&receipt)).next().is_none());
    Ok(())
}

/// Publishes 200 keys that rise by one from a key on, and tells whether each is found again through its receipt.
fn publishes(rt: &impl Wait, board: &Board<u32, Anything>, from: u32) -> bool {
    let mut are_found = true;
    for number in 0..200u32 {
        let key = from.wrapping_add(number);
        are_found &= match board.publish(rt, key) {
            Ok(receipt) => {
                let first = board.look(receipt.index(), Some(&receipt)).next();
                *board.at(&receipt) == key
                    && first.is_some_and(|pair| pair.0 == receipt.index() && *pair.1 == key)
            }
            Err(_) => false,
        };
    }
    are_found
}

fn publish_twice<R: Threads + Wait + Sync>(rt: &R, board: &Board<u32, Anything>) -> (bool, bool) {
    thread::join(
        rt,
        || publishes(rt, board, 0),
        || publishes(rt, board, 1000),
    )
}

#[test]
fn threads_publish_side_by_side(rt: HostRuntime) -> Result<(), Fail> {
    let board: Board<u32, Anything> = Board::new(rt.alloc())?;
    assert_eq!(rt; publish_twice(&rt, &board), (true, true));
    let mut count = 0u64;
    let mut sum = 0u64;
    for (_, key) in board.look(0, None) {
        count = count.wrapping_add(1);
        sum = sum.wrapping_add(*key as u64);
    }
    assert_eq!(rt; (count, sum), (400, 2 * 19900 + 200 * 1000));
    Ok(())
}
