//! Whole calls, and the files that they are given.
use crate::executables::{bytes_of, executable};
use bt_base::{MemoryShelf, MemorySink};
use bt_command::run_alone;
use std::alloc::Global;
use std::test::Fail;

/// The number of a read or write that never comes.
pub const NEVER: u64 = u64::MAX;

/// The image of a leaf that only returns, as it stands in a file.
pub const LEAF: &str =
    "7f454c46010201000000000000000000000200020000000102000000000000000000006000000000003400000000002800040003\
    81c3e00801000000\
    0000000000000000000000000000000000000001020000000000000812000001\
    00660000\
    00000000000000000000000000000000000000000000000000000000000000000000000000000000\
    00000000000000010000000602000000000000340000000800000000000000000000000400000000\
    000000000000000200000000000000000000003c0000002000000003000000010000000400000010\
    000000000000000300000000000000000000005c0000000300000000000000000000000100000000";

/// A table in which every class costs one cycle, but for its last lines.
const CLASSES: &str =
    "cycles 1\nalu 1\nshift 1\nsethi 1\ntagged 1\nmulscc 1\nsave 1\nrestore 1\nbranch 1\nfloatbranch 1\ncall 1\njump 1\nload 1\nloaddouble 1\nstore 1\nstoredouble 1\natomic 1\nready 1\nwritey 1\nflush 1\nfloatop 1\nfloatcmp 1\nfloatload 1\nfloatloaddouble 1\nfloatstore 1\nfloatstoredouble 1\ntrap 1\n";

/// The files of a call: the image `i`, the table `c` and the assertions `a`.
#[derive(Drop)]
pub struct Files {
    pub image: Vec<u8>,
    pub table: Vec<u8>,
    pub assertions: Vec<u8>,
}

/// The table of those classes and further lines.
pub fn table_with(alloc: Global, lines: &str) -> Result<Vec<u8>, Fail> {
    let mut table = Vec::from_slice(alloc, CLASSES.as_bytes())?;
    table.extend_from_slice(lines.as_bytes())?;
    Ok(table)
}

/// What instructions cost.
#[derive(Clone, Copy)]
pub enum Costs {
    /// One cycle each.
    Ones,
    /// A delay instruction that is passed over three cycles, and all else one.
    DearPassing,
    /// A load of one word and a jump two cycles, and all else one.
    DearLoads,
}

/// The table of these costs.
pub fn table_of(alloc: Global, costs: Costs) -> Result<Vec<u8>, Fail> {
    match costs {
        Costs::Ones => table_with(alloc, "annulled 1\n"),
        Costs::DearPassing => table_with(alloc, "annulled 3\n"),
        Costs::DearLoads => {
            let cheap = CLASSES.replace(alloc, "jump 1\nload 1\n", "jump 2\nload 2\n")?;
            let mut table = Vec::from_slice(alloc, cheap.as_bytes())?;
            table.extend_from_slice(b"annulled 1\n")?;
            Ok(table)
        }
    }
}

/// The leaf, a table in which every class costs one cycle, and these assertions.
pub fn files_of(alloc: Global, assertions: &str) -> Result<Files, Fail> {
    Ok(Files {
        image: hex::decode(alloc, LEAF)?,
        table: table_with(alloc, "annulled 1\n")?,
        assertions: Vec::from_slice(alloc, assertions.as_bytes())?,
    })
}

/// The same of an image with this code, whose one function is at its start.
pub fn files_with(alloc: Global, code: &str, assertions: &str) -> Result<Files, Fail> {
    let mut files = files_of(alloc, assertions)?;
    files.image = executable(
        alloc,
        &bytes_of(alloc, code)?,
        &[("f", 0x0200_0000)],
        b"",
        false,
    )?;
    Ok(files)
}

/// The report of the leaf of this name with this bound.
pub fn report(alloc: Global, name: &str, bound: u64) -> Result<String, Fail> {
    Ok(format!(in alloc;
        "boundt report 1\nroot 02000000 {name} bounded {bound}\ncontext 02000000 {name} plain bounded {bound}\nend\n"
    )?)
}

/// The words of a call.
fn words_of(alloc: Global, text: &str) -> Result<Vec<String>, Fail> {
    let mut words = Vec::new(alloc);
    for word in text.split_whitespace() {
        words.push(String::from_str(alloc, word)?)?;
    }
    Ok(words)
}

/// Makes a call, of which one read and one write fail; whether it answers this message and writes this text.
pub fn says(
    alloc: Global,
    words: &str,
    files: Files,
    (read, write): (u64, u64),
    message: &str,
    text: &str,
) -> Result<bool, Fail> {
    let files = vec![in alloc;
        (String::from_str(alloc, "i")?, files.image),
        (String::from_str(alloc, "c")?, files.table),
        (String::from_str(alloc, "a")?, files.assertions),
    ]?;
    let mut shelf = MemoryShelf::new(alloc, files, vec![in alloc; read]?)?;
    let mut out = MemorySink::new(alloc, 4000, 16, vec![in alloc; write]?)?;
    let call = words_of(alloc, words)?;
    let said = run_alone(alloc, &call, &mut shelf, &mut out).message(alloc)?;
    Ok(said.as_str() == message && out.bytes() == text.as_bytes())
}
