//! The rows of the command `gen`. It asks for no file, so a read that would fail changes nothing.
use crate::calls::{NEVER, files_of, says};
use std::alloc::Global;
use std::test::Fail;

/// Words, and the line. An image of `n` functions has 8 `n` + 3 program points, but one fewer for each function whose loop
/// runs once, as that of function 97 does.
const LINES: [(&str, &str); 7] = [
    ("gen 1", "gen 1 nodes 11 contexts 2 bound 43\n"),
    ("gen 2", "gen 2 nodes 19 contexts 3 bound 194\n"),
    ("gen 3", "gen 3 nodes 27 contexts 4 bound 456\n"),
    ("gen 3 --workers 2", "gen 3 nodes 27 contexts 4 bound 456\n"),
    ("gen --workers=8 4", "gen 4 nodes 35 contexts 5 bound 529\n"),
    ("gen +010", "gen 10 nodes 83 contexts 11 bound 1498\n"),
    ("gen 98", "gen 98 nodes 786 contexts 99 bound 15206\n"),
];

/// Whether a call writes this line.
fn is_written(alloc: Global, words: &str, line: &str) -> Result<bool, Fail> {
    let files = files_of(alloc, "")?;
    says(alloc, words, files, (0, NEVER), "boundt: 0 Bounded", line)
}

/// Words that are refused.
const REFUSED: [&str; 8] = [
    "gen",
    "gen 0",
    "gen 4001",
    "gen -1",
    "gen x",
    "gen 3 4",
    "gen 3 --workers 0",
    "gen 3 --workers 65",
];

// Executables are made and told by a line; words of none, and a sink that takes nothing, are refused.
#[test]
fn generates(rt: HostRuntime) -> Result<(), Fail> {
    let alloc = rt.alloc();
    for (words, line) in &LINES {
        assert!(rt; is_written(alloc, words, line)?, "of {words}");
    }
    for words in &REFUSED {
        let files = files_of(alloc, "")?;
        assert!(rt;
            says(alloc, words, files, (0, 0), "boundt: 2 Usage", "")?,
            "of {words}"
        );
    }
    let files = files_of(alloc, "")?;
    let cut = "boundt: 7 WriteFault written 0";
    assert!(rt; says(alloc, "gen 3", files, (NEVER, 0), cut, "")?);
    Ok(())
}
