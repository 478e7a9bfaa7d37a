//! Devices that fail or are slow, and names that aren't there.
use crate::calls::{BOUNDED, Devices, Files, NEVER, call, leaf, module, says};
use std::alloc::Global;
use std::test::Fail;

/// What each command writes of the leaf.
const LEAF_TEXTS: [(&str, &str); 3] = [
    (
        "decode i",
        "02000000 81c3e008 jmpl %o7+8, %g0\n02000004 01000000 sethi 0x00000000, %g0\n",
    ),
    (
        "graph i c a",
        "boundt graph 1\n\
        sub 02000000 f returns\n\
        node 02000000/0\n\
        node 02000004>back/0\n\
        edge 02000000/0 02000004>back/0\n\
        end\n",
    ),
    (
        "bound i c a",
        "boundt report 1\n\
        root 02000000 f bounded 2\n\
        context 02000000 f plain bounded 2\n\
        end\n",
    ),
];

/// The report of the module.
const MODULE_REPORT: &str = "boundt report 1\n\
    root 020000ac main bounded 1473\n\
    context 02000000 isum plain bounded 55\n\
    loop 02000008/0 at most 10 by %o1 step -4 from 4 to 40\n\
    context 02000020 sel plain bounded 13\n\
    context 02000070 delay plain bounded 123\n\
    loop 02000070/0 at most 40 by %o0 step -1 from 1 to 40\n\
    context 02000088 scale plain bounded 1145\n\
    loop 02000090/1 at most 12 by %l0.1 step -1 from 1 to 12\n\
    context 020000ac main plain bounded 1473\n\
    end\n";

/// How many bytes files have.
#[derive(Clone, Copy)]
struct Sizes {
    image: u64,
    table: u64,
    assertions: u64,
}

/// How many bytes these files have.
fn sizes_of(files: &Files) -> Sizes {
    Sizes {
        image: files.image.len() as u64,
        table: files.table.len() as u64,
        assertions: files.assertions.len() as u64,
    }
}

/// How many reads of one byte a command makes: one for each byte of a file, and one that finds its end.
fn reads_of(words: &str, sizes: Sizes) -> u64 {
    if words.starts_with("decode") {
        return sizes.image.saturating_add(1);
    }
    let all = sizes.image.saturating_add(sizes.table);
    all.saturating_add(sizes.assertions).saturating_add(3)
}

/// The file that a read of one byte is of.
fn file_of(sizes: Sizes, read: u64) -> u32 {
    if read <= sizes.image {
        1
    } else if read - sizes.image - 1 <= sizes.table {
        2
    } else {
        3
    }
}

/// Whether the failure of a read of one byte is told with its file, and nothing is written.
fn is_read_fault(alloc: Global, words: &str, files: Files, read: u64) -> Result<bool, Fail> {
    let file = file_of(sizes_of(&files), read);
    let message = format!(in alloc; "boundt: 6 ReadFault file {file}")?;
    let devices = Devices {
        read,
        write: NEVER,
        most: 1,
    };
    let said = call(alloc, words, files, devices)?;
    Ok(said.message.as_str() == message.as_str() && said.text.is_empty())
}

/// Whether the failure of a write of one byte is told with how much was written before, and just that stands there. A
/// write behind the last one never comes.
fn is_write_fault(
    alloc: Global,
    words: &str,
    files: Files,
    write: usize,
    text: &str,
) -> Result<bool, Fail> {
    let devices = Devices {
        read: NEVER,
        write: write as u64,
        most: 1,
    };
    let said = call(alloc, words, files, devices)?;
    let message = if write < text.len() {
        format!(in alloc; "boundt: 7 WriteFault written {write}")?
    } else {
        String::from_str(alloc, BOUNDED)?
    };
    let part = &text.as_bytes()[..write.min(text.len())];
    Ok(said.message.as_str() == message.as_str() && said.text.as_slice() == part)
}

/// Calls that name a file that isn't there, and the message.
#[rattlefmt::skip]
const NAMES: [(&str, &str); 16] = [
    ("decode j", "boundt: 6 ReadFault file 1"),
    ("decode I", "boundt: 6 ReadFault file 1"),
    ("decode ii", "boundt: 6 ReadFault file 1"),
    ("decode -", "boundt: 6 ReadFault file 1"),
    ("decode ../i", "boundt: 6 ReadFault file 1"),
    ("decode -- --workers", "boundt: 6 ReadFault file 1"),
    ("graph j c a", "boundt: 6 ReadFault file 1"),
    ("graph j d b", "boundt: 6 ReadFault file 1"),
    ("graph i d b", "boundt: 6 ReadFault file 2"),
    ("graph i c b", "boundt: 6 ReadFault file 3"),
    ("bound j c a", "boundt: 6 ReadFault file 1"),
    ("bound j d b", "boundt: 6 ReadFault file 1"),
    ("bound i d b", "boundt: 6 ReadFault file 2"),
    ("bound i c b", "boundt: 6 ReadFault file 3"),
    ("bound a d b", "boundt: 3 Short need 52 have 7"),
    ("bound i a b", "boundt: 4 Line n 1 why Header"),
];

#[test]
fn failing_reads(rt: HostRuntime) -> Result<(), Fail> {
    let alloc = rt.alloc();
    for (words, _) in &LEAF_TEXTS {
        for read in 0..reads_of(words, sizes_of(&leaf(alloc)?)) {
            assert!(rt;
                is_read_fault(alloc, words, leaf(alloc)?, read)?,
                "{words} at {read}"
            );
        }
    }
    for read in 0..reads_of("bound", sizes_of(&module(alloc)?)) {
        assert!(rt;
            is_read_fault(alloc, "bound i c a", module(alloc)?, read)?,
            "of the module at {read}"
        );
    }
    Ok(())
}

#[test]
fn failing_writes(rt: HostRuntime) -> Result<(), Fail> {
    let alloc = rt.alloc();
    for (words, text) in &LEAF_TEXTS {
        for write in 0..=text.len() {
            assert!(rt;
                is_write_fault(alloc, words, leaf(alloc)?, write, text)?,
                "{words} at {write}"
            );
        }
    }
    for write in 0..=40usize {
        assert!(rt;
            is_write_fault(alloc, "bound i c a", module(alloc)?, write, MODULE_REPORT)?,
            "of the module at {write}"
        );
    }
    let last = MODULE_REPORT.len();
    assert!(rt; is_write_fault(alloc, "bound i c a", module(alloc)?, last, MODULE_REPORT)?);
    Ok(())
}

#[test]
fn missing_names(rt: HostRuntime) -> Result<(), Fail> {
    for (words, message) in &NAMES {
        assert!(rt;
            says(rt.alloc(), words, leaf(rt.alloc())?, message, b"")?,
            "of {words}"
        );
    }
    Ok(())
}
