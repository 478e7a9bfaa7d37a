//! Calls, and what their words ask for.
use bt_words::{NoRequest, Request, request_of};
use std::alloc::{AllocError, Global};
use std::test::Fail;

/// Words that are refused.
const REFUSED: [&str; 72] = [
    "",
    "bound",
    "bound i",
    "bound i c",
    "bound i c a d",
    "bound i c a --workers 0",
    "bound i c a --workers 65",
    "bound i c a --workers 18446744073709551617",
    "bound i c a --workers -1",
    "bound i c a --workers=-1",
    "bound i c a --workers=-0",
    "bound i c a --workers x",
    "bound i c a --workers 1x",
    "bound i c a --workers ''",
    "bound i c a --workers=",
    "bound i c a --workers",
    "bound i c a --workers -- 2",
    "bound --workers i c a",
    "bound --workers 1 i c a --workers 1",
    "bound --workers=2 --workers=2 i c a",
    "bound i c a --worker 2",
    "bound i c a --work=2",
    "bound i c a -w 2",
    "bound i c a -w2",
    "bound i c a --version",
    "bound i c a -V",
    "--version",
    "-V",
    "--workers 2 bound i c a",
    "--workers=2 bound i c a",
    "help",
    "help bound",
    "--help",
    "-h",
    "bound --help",
    "bound i c a -h",
    "bound i c a --help",
    "-- bound i c a",
    "--",
    "bound -i c a",
    "bound i c --a",
    "bound i c a -- --workers 2",
    "bounds i c a",
    "boun i c a",
    "'' i c a",
    "i",
    "decode",
    "decode i j",
    "decode -i",
    "decode --workers 1 i",
    "decode i --workers=1",
    "decode -h",
    "gen",
    "gen 0",
    "gen 4001",
    "gen -1",
    "gen=4",
    "gen x",
    "gen 4x",
    "gen ''",
    "gen 18446744073709551617",
    "gen 3 4",
    "gen -- -1",
    "gen --workers 2",
    "gen 3 --workers",
    "gen 3 --workers 0",
    "gen 3 --workers 65",
    "gen 3 --workers 1 --workers 1",
    "gen -h",
    "--workers 1 gen 3",
    "generate 3",
    "ge 3",
];

/// Words that ask for a bound, and what they ask for. A number may have a sign + and leading zeros.
const BOUND: [(&str, &str, &str, &str, u32); 24] = [
    ("bound i c a", "i", "c", "a", 1),
    ("bound --workers 2 i c a", "i", "c", "a", 2),
    ("bound i --workers 2 c a", "i", "c", "a", 2),
    ("bound i c --workers=2 a", "i", "c", "a", 2),
    ("bound --workers=2 i c a", "i", "c", "a", 2),
    ("bound i c a --workers 2", "i", "c", "a", 2),
    ("bound i c a --workers=2", "i", "c", "a", 2),
    ("bound i c a --workers 1", "i", "c", "a", 1),
    ("bound i c a --workers 64", "i", "c", "a", 64),
    ("bound i c a --workers +1", "i", "c", "a", 1),
    ("bound i c a --workers 01", "i", "c", "a", 1),
    ("bound i c a --workers=+0064", "i", "c", "a", 64),
    ("bound i c -- --help", "i", "c", "--help", 1),
    ("bound help c a", "help", "c", "a", 1),
    ("bound i c help", "i", "c", "help", 1),
    ("bound - c a", "-", "c", "a", 1),
    ("bound i - -", "i", "-", "-", 1),
    ("bound i c ''", "i", "c", "", 1),
    ("bound '' '' ''", "", "", "", 1),
    ("bound -- -i c --a", "-i", "c", "--a", 1),
    ("bound i -- --workers a", "i", "--workers", "a", 1),
    ("bound i -- -- --", "i", "--", "--", 1),
    ("bound i --workers 3 c -- -a", "i", "c", "-a", 3),
    ("bound bound decode bound", "bound", "decode", "bound", 1),
];

/// Words that ask for a listing, and its image.
const LISTED: [(&str, &str); 4] = [
    ("decode i", "i"),
    ("decode -- -i", "-i"),
    ("decode ''", ""),
    ("decode help", "help"),
];

/// Words that ask for an executable that is made: how many functions it has, and the workers.
const GENERATED: [(&str, u32, u32); 9] = [
    ("gen 1", 1, 1),
    ("gen 4000", 4000, 1),
    ("gen +4", 4, 1),
    ("gen 0040", 40, 1),
    ("gen -- 4", 4, 1),
    ("gen --workers 2 4", 4, 2),
    ("gen 4 --workers 64", 4, 64),
    ("gen 4 --workers=+08", 4, 8),
    ("gen --workers=3 -- 4", 4, 3),
];

/// The words of a call, parted by blanks; `''` stands for the empty word.
fn call(alloc: Global, text: &str) -> Result<Vec<String>, AllocError> {
    let mut words = Vec::new(alloc);
    for word in text.split_whitespace() {
        let word = if word == "''" { "" } else { word };
        words.push(String::from_str(alloc, word)?)?;
    }
    Ok(words)
}

/// Whether a call is refused.
fn is_refused(alloc: Global, text: &str) -> Result<bool, AllocError> {
    let words = call(alloc, text)?;
    Ok(request_of(alloc, &words) == Err(NoRequest::Usage))
}

/// Whether a call asks for this.
fn asks_for(alloc: Global, text: &str, want: Request) -> Result<bool, AllocError> {
    let words = call(alloc, text)?;
    Ok(request_of(alloc, &words) == Ok(want))
}

#[test]
fn refused_words(rt: HostRuntime) -> Result<(), Fail> {
    for text in &REFUSED {
        assert!(rt; is_refused(rt.alloc(), text)?, "at {text}");
    }
    Ok(())
}

#[test]
fn requests_for_bounds(rt: HostRuntime) -> Result<(), Fail> {
    for (text, image, cycles, assertions, workers) in &BOUND {
        let want = Request::Bound {
            image,
            cycles,
            assertions,
            workers: *workers,
        };
        assert!(rt; asks_for(rt.alloc(), text, want)?, "at {text}");
    }
    Ok(())
}

#[test]
fn requests_for_executables(rt: HostRuntime) -> Result<(), Fail> {
    for (text, functions, workers) in &GENERATED {
        let want = Request::Generate {
            functions: *functions,
            workers: *workers,
        };
        assert!(rt; asks_for(rt.alloc(), text, want)?, "at {text}");
    }
    Ok(())
}

#[test]
fn requests_for_listings(rt: HostRuntime) -> Result<(), Fail> {
    for (text, image) in &LISTED {
        assert!(rt;
            asks_for(rt.alloc(), text, Request::Decode { image })?,
            "at {text}"
        );
    }
    Ok(())
}
