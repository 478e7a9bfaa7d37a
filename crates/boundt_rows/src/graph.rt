//! The rows of the command `graph`.
use crate::calls::{NEVER, files_of, files_with, says, table_with};
use std::alloc::Global;
use std::test::Fail;

/// Words of code, and the graph from its first.
const GRAPHS: [(&str, &str); 4] = [
    // It returns.
    (
        "81c3e008 01000000",
        "boundt graph 1\n\
        sub 02000000 f returns\n\
        node 02000000/0\n\
        node 02000004>back/0\n\
        edge 02000000/0 02000004>back/0\n\
        end\n",
    ),
    // It goes on to a return.
    (
        "110000019012200581c3e00801000000",
        "boundt graph 1\n\
        sub 02000000 f returns\n\
        node 02000000/0\n\
        node 02000004/0\n\
        node 02000008/0\n\
        node 0200000c>back/0\n\
        edge 02000000/0 02000004/0\n\
        edge 02000004/0 02000008/0\n\
        edge 02000008/0 0200000c>back/0\n\
        end\n",
    ),
    // It branches back to its first word for ever, and no instruction stands in the last.
    (
        "0100000010bfffff01000000ffffffff",
        "boundt graph 1\n\
        sub 02000000 f stays\n\
        node 02000000/0\n\
        node 02000004/0\n\
        node 02000008>02000000/0\n\
        edge 02000000/0 02000004/0\n\
        edge 02000004/0 02000008>02000000/0\n\
        edge 02000008>02000000/0 02000000/0\n\
        end\n",
    ),
    // Its second word is no instruction.
    (
        "01000000ffffffff81c3e00801000000",
        "boundt graph 1\n\
        sub 02000000 f stays\n\
        node 02000000/0\n\
        node 02000004/0\n\
        edge 02000000/0 02000004/0\n\
        gap instr 02000004\n\
        end\n",
    ),
];

/// Whether code has this graph.
fn is_shown(alloc: Global, code: &str, text: &str) -> Result<bool, Fail> {
    let files = files_with(alloc, code, "root f\n")?;
    says(
        alloc,
        "graph i c a",
        files,
        (NEVER, NEVER),
        "boundt: 0 Bounded",
        text,
    )
}

/// Assertions by which there is no subprogram: a stub is none.
const ROOTLESS: [&str; 2] = ["", "stub f time 3\n"];

/// Whether assertions lead to no subprogram.
fn is_empty(alloc: Global, assertions: &str) -> Result<bool, Fail> {
    let files = files_of(alloc, assertions)?;
    says(
        alloc,
        "graph --workers 2 i c a",
        files,
        (NEVER, NEVER),
        "boundt: 0 Bounded",
        "boundt graph 1\nend\n",
    )
}

/// How many bytes of the image, what ends the table, the assertions, and the message.
const REFUSED: [(usize, &str, &str, &str); 5] = [
    (51, "", "roots f\n", "boundt: 3 Short need 52 have 51"),
    (256, "", "roots f\n", "boundt: 4 Missing class annulled"),
    (
        256,
        "annulled 1\n",
        "roots f\n",
        "boundt: 5 Line n 1 column 1 expected Keyword",
    ),
    (256, "annulled 1\n", "root g\n", "boundt: 5 NoName line 1"),
    (
        256,
        "annulled 1\n",
        "root f\nloop f repeats 3\n",
        "boundt: 5 Unmatched line 2",
    ),
];

/// Whether files are refused so.
fn is_refused(
    alloc: Global,
    size: usize,
    lines: &str,
    assertions: &str,
    message: &str,
) -> Result<bool, Fail> {
    let mut files = files_of(alloc, assertions)?;
    files.image.truncate(size);
    files.table = table_with(alloc, lines)?;
    says(alloc, "graph i c a", files, (NEVER, NEVER), message, "")
}

/// The words, the read and the write that fail, and the message.
const CALLS: [(&str, u64, u64, &str); 6] = [
    ("graph i c a", 0, NEVER, "boundt: 6 ReadFault file 1"),
    ("graph i d a", NEVER, NEVER, "boundt: 6 ReadFault file 2"),
    ("graph i c b", NEVER, NEVER, "boundt: 6 ReadFault file 3"),
    ("graph i c a", NEVER, 0, "boundt: 7 WriteFault written 0"),
    ("graph i c", NEVER, NEVER, "boundt: 2 Usage"),
    ("graph c c a", NEVER, NEVER, "boundt: 3 Magic"),
];

#[test]
fn graph(rt: HostRuntime) -> Result<(), Fail> {
    let alloc = rt.alloc();
    for (code, text) in &GRAPHS {
        assert!(rt; is_shown(alloc, code, text)?, "of {code}");
    }
    for assertions in &ROOTLESS {
        assert!(rt; is_empty(alloc, assertions)?, "of {assertions}");
    }
    for (size, lines, assertions, message) in &REFUSED {
        assert!(rt;
            is_refused(alloc, *size, lines, assertions, message)?,
            "at {message}"
        );
    }
    for (words, read, write, message) in &CALLS {
        let files = files_of(alloc, "root f\n")?;
        assert!(rt;
            says(alloc, words, files, (*read, *write), message, "")?,
            "of {words}"
        );
    }
    Ok(())
}
