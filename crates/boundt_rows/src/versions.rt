//! The rows of tables of cycles of both versions.
use crate::calls::{NEVER, files_of, files_with, report, says, table_with};
use std::alloc::Global;
use std::test::Fail;

/// A table of version 2: the lines of version 1, in which every class costs one cycle, and these.
fn second(alloc: Global, lines: &str) -> Result<Vec<u8>, Fail> {
    let mut table = table_with(alloc, "annulled 1\n")?;
    if let Some(version) = table.get_mut(7) {
        *version = b'2';
    }
    table.extend_from_slice(lines.as_bytes())?;
    Ok(table)
}

/// Tables that are refused: whether they are of version 2, what ends them, and the message.
const REFUSED: [(bool, &str, &str); 9] = [
    (true, "", "boundt: 4 Missing class loaduse"),
    (
        true,
        "divide 1\nloaduse 1\n",
        "boundt: 4 Missing class multiply",
    ),
    (
        true,
        "loaduse 1\nmultiply 1\n",
        "boundt: 4 Missing class divide",
    ),
    (true, "loaduse 0\n", "boundt: 4 Zero class loaduse n 29"),
    (
        true,
        "divide 1\ndivide 1\n",
        "boundt: 4 Twice class divide n 30",
    ),
    (true, "multiply 1 1\n", "boundt: 4 Line n 29 why Extra"),
    (true, "multiplies 1\n", "boundt: 4 Line n 29 why Class"),
    (false, "loaduse 1\n", "boundt: 4 Line n 29 why Class"),
    (false, "multiply\n", "boundt: 4 Line n 29 why Class"),
];

/// Whether a table is refused so.
fn is_refused(alloc: Global, new: bool, lines: &str, message: &str) -> Result<bool, Fail> {
    let mut files = files_of(alloc, "root f\n")?;
    files.table = if new {
        second(alloc, lines)?
    } else {
        let all = format!(in alloc; "annulled 1\n{lines}")?;
        table_with(alloc, all.as_str())?
    };
    says(alloc, "bound i c a", files, (NEVER, NEVER), message, "")
}

/// Straight code, what a use behind a load costs where all else costs one cycle, and the bound: only the first word can
/// be one, since any register may be loaded right before it.
const USES: [(&str, u32, u64); 4] = [
    ("81c3e008 01000000 00000000 ffffffff", 1, 3),
    ("81c3e008 01000000 00000000 ffffffff", 4, 6),
    ("11000001 90122005 81c3e008 01000000", 4, 4),
    ("90122005 90122005 81c3e008 01000000", 4, 8),
];

/// Whether code has this bound by a table of version 2.
fn is_bounded(alloc: Global, code: &str, uses: u32, bound: u64) -> Result<bool, Fail> {
    let mut files = files_with(alloc, code, "root f\n")?;
    let lines = format!(in alloc; "divide 1\nloaduse {uses}\nmultiply 1\n")?;
    files.table = second(alloc, lines.as_str())?;
    let text = report(alloc, "f", bound)?;
    says(
        alloc,
        "bound i c a",
        files,
        (NEVER, NEVER),
        "boundt: 0 Bounded",
        text.as_str(),
    )
}

#[test]
fn versions(rt: HostRuntime) -> Result<(), Fail> {
    let alloc = rt.alloc();
    for (new, lines, message) in &REFUSED {
        assert!(rt; is_refused(alloc, *new, lines, message)?, "at {message}");
    }
    for (code, uses, bound) in &USES {
        assert!(rt; is_bounded(alloc, code, *uses, *bound)?, "of {code}");
    }
    Ok(())
}
