//! Whole calls over files and devices in memory.
use crate::SlowShelf;
use crate::images::{LEAF, MODULE, bytes_of};
use bt_base::{MemoryShelf, MemorySink};
use bt_command::run_alone;
use std::alloc::Global;
use std::test::Fail;

/// The number of a read or write that never comes.
pub const NEVER: u64 = u64::MAX;

/// The commands over the image, and over all three files.
pub const COMMANDS: [&str; 3] = ["decode i", "graph i c a", "bound i c a"];

/// The message of a call that writes its whole text, in which each root has a bound.
pub const BOUNDED: &str = "boundt: 0 Bounded";

/// The message of a call that writes its whole report, in which some root has no bound.
pub const UNBOUNDED: &str = "boundt: 1 Unbounded";

/// The files of a call: the image `i`, the table `c` and the assertions `a`.
#[derive(Drop)]
pub struct Files {
    pub image: Vec<u8>,
    pub table: Vec<u8>,
    pub assertions: Vec<u8>,
}

/// The table in which a load of one word and a jump cost so much, and all else one cycle.
fn table_of(alloc: Global, dear: u32) -> Result<Vec<u8>, Fail> {
    let text = format!(in alloc;
        "cycles 1\nalu 1\nshift 1\nsethi 1\ntagged 1\nmulscc 1\nsave 1\nrestore 1\nbranch 1\nfloatbranch 1\ncall 1\njump {dear}\nload {dear}\nloaddouble 1\nstore 1\nstoredouble 1\natomic 1\nready 1\nwritey 1\nflush 1\nfloatop 1\nfloatcmp 1\nfloatload 1\nfloatloaddouble 1\nfloatstore 1\nfloatstoredouble 1\ntrap 1\nannulled 1\n"
    )?;
    Ok(Vec::from_slice(alloc, text.as_bytes())?)
}

/// This image, the table in which all costs one cycle, and one root.
pub fn files_of(alloc: Global, image: Vec<u8>) -> Result<Files, Fail> {
    Ok(Files {
        image,
        table: table_of(alloc, 1)?,
        assertions: Vec::from_slice(alloc, b"root f\n")?,
    })
}

/// The files of the leaf.
pub fn leaf(alloc: Global) -> Result<Files, Fail> {
    files_of(alloc, bytes_of(alloc, &LEAF)?)
}

/// The files of the module.
pub fn module(alloc: Global) -> Result<Files, Fail> {
    Ok(Files {
        image: bytes_of(alloc, &MODULE)?,
        table: table_of(alloc, 2)?,
        assertions: Vec::from_slice(
            alloc,
            b"# module\nroot main\nstub .umul time 90\nat sel %o0 0..9\nloop isum+0x8 repeats 12\n",
        )?,
    })
}

/// The devices of a call: the numbers of the read and of the write that fail, and the most bytes that each gives or takes.
#[derive(Clone, Copy)]
pub struct Devices {
    pub read: u64,
    pub write: u64,
    pub most: usize,
}

/// Devices that fail nothing on purpose.
pub const SOUND: Devices = Devices {
    read: NEVER,
    write: NEVER,
    most: 65536,
};

/// What a call answers, and what it writes.
#[derive(Drop)]
pub struct Answer {
    pub message: String,
    pub text: Vec<u8>,
}

/// The words of a call.
fn words_of(alloc: Global, text: &str) -> Result<Vec<String>, Fail> {
    let mut words = Vec::new(alloc);
    for word in text.split_whitespace() {
        words.push(String::from_str(alloc, word)?)?;
    }
    Ok(words)
}

/// The shelf of a call.
fn shelf_of(alloc: Global, files: Files, devices: Devices) -> Result<SlowShelf, Fail> {
    let named = vec![in alloc;
        (String::from_str(alloc, "i")?, files.image),
        (String::from_str(alloc, "c")?, files.table),
        (String::from_str(alloc, "a")?, files.assertions),
    ]?;
    let inner = MemoryShelf::new(alloc, named, vec![in alloc; devices.read]?)?;
    Ok(SlowShelf::new(inner, devices.most.max(1)))
}

/// Makes a call.
pub fn call(alloc: Global, words: &str, files: Files, devices: Devices) -> Result<Answer, Fail> {
    let mut shelf = shelf_of(alloc, files, devices)?;
    let fail = vec![in alloc; devices.write]?;
    let mut out = MemorySink::new(alloc, 1_048_576, devices.most.max(1), fail)?;
    let list = words_of(alloc, words)?;
    let message = run_alone(alloc, &list, &mut shelf, &mut out).message(alloc)?;
    let text = Vec::from_slice(alloc, out.bytes())?;
    Ok(Answer { message, text })
}

/// Whether a call over sound devices answers this message and writes this text.
pub fn says(
    alloc: Global,
    words: &str,
    files: Files,
    message: &str,
    text: &[u8],
) -> Result<bool, Fail> {
    let said = call(alloc, words, files, SOUND)?;
    Ok(said.message.as_str() == message && said.text.as_slice() == text)
}

/// Whether a call wrote its whole text or nothing, as its message says.
pub fn is_whole(said: &Answer) -> bool {
    let text = said.text.as_slice();
    match said.message.as_str() {
        BOUNDED => text.is_empty() || text.ends_with(b"\n"),
        UNBOUNDED => text.ends_with(b"end\n"),
        _ => text.is_empty(),
    }
}
