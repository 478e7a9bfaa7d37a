//! The rows of the commands by workers, and of how many are wanted.
use crate::module::{REPORT, by_one, by_workers, words_of};
use bt_command::{Status, wanted};
use std::alloc::Global;
use std::test::Fail;
use worker_pool::NoGate;

/// Words, and how many workers they ask for, or that they are refused.
const WANTED: [(&str, Option<u32>); 14] = [
    ("bound i c a", Some(1)),
    ("graph i c a", Some(1)),
    ("decode i", Some(1)),
    ("bound i c a --workers 1", Some(1)),
    ("bound i c a --workers 8", Some(8)),
    ("bound --workers=64 i c a", Some(64)),
    ("graph i --workers 2 c a", Some(2)),
    ("bound i c a --workers 0", None),
    ("bound i c a --workers 65", None),
    ("bound i c a --workers two", None),
    ("graph i c a --workers", None),
    ("graph i c a --workers 2 --workers 2", None),
    ("decode i --workers 2", None),
    ("bound i c", None),
];

/// Whether words ask for so many workers, or are refused.
fn is_wanted(alloc: Global, words: &str, count: Option<u32>) -> Result<bool, Fail> {
    let words = words_of(alloc, words)?;
    Ok(match (wanted(alloc, &words), count) {
        (Ok(found), Some(count)) => found == count,
        (Err(status), None) => status == Status::Usage,
        _ => false,
    })
}

// Words ask for as many workers as they name, for one, or are refused.
#[test]
fn words_ask_for_workers(rt: HostRuntime) -> Result<(), Fail> {
    let alloc = rt.alloc();
    for (words, count) in &WANTED {
        assert!(rt; is_wanted(alloc, words, *count)?, "of {words}");
    }
    Ok(())
}

// One, two and eight workers write the same report.
#[test]
fn workers_write_the_report(rt: HostRuntime) -> Result<(), Fail> {
    let alloc = rt.alloc();
    for workers in [1, 2, 8] {
        let words = format!(in alloc; "bound i c a --workers {workers}")?;
        let answer = by_workers(&rt, alloc, words.as_str(), &NoGate)?;
        assert_eq!(rt; answer.status, Status::Bounded, "by {workers}");
        assert!(rt; answer.text.as_slice() == REPORT.as_bytes(), "by {workers}");
    }
    Ok(())
}

/// Words without a number of workers.
const CALLS: [&str; 6] = [
    "bound i c a",
    "graph i c a",
    "graph i c b",
    "graph i a a",
    "bound a c a",
    "bound i c c",
];

// Workers answer to each call what one alone does.
#[test]
fn workers_answer_as_one_does(rt: HostRuntime) -> Result<(), Fail> {
    let alloc = rt.alloc();
    for call in &CALLS {
        let alone = by_one(alloc, call)?;
        for workers in [2, 8] {
            let words = format!(in alloc; "{call} --workers {workers}")?;
            let answer = by_workers(&rt, alloc, words.as_str(), &NoGate)?;
            assert_eq!(rt; answer.status, alone.status, "of {words}");
            assert!(rt; answer.text == alone.text, "of {words}");
        }
    }
    Ok(())
}
