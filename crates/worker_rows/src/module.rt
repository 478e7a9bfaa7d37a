//! A module as a compiler makes it, with what it costs and what is asserted of it, and calls over these files.
use bt_base::{MemoryShelf, MemorySink};
use bt_command::{Status, run, run_alone};
use std::alloc::Global;
use std::sync::Wait;
use std::test::Fail;
use std::thread::Threads;
use worker_pool::Gate;

/// The executable of the module, as it stands in a file: its header, code, data, symbols, their names, and sections.
const IMAGE: &str =
    "7f454c4601020100000000000000000000020002000000010200000000000000000001bd0000000000340000000000280005\
    0004\
    9210202894102000c202000992a2600412bffffe9402800181c3e0089010000a80a2200518800011832a2002050080408410\
    a000c200800181c060000100000081c3e0089010200181c3e0089010200281c3e0089010200381c3e0089010200481c3e008\
    9010200581c3e0089010200090a2200112bfffff0100000081c3e00801000000000000009de3bfa0a010200c7ffffffd0100\
    0000a0a4200112bffffd0100000081c7e00881e800009de3bfa07fffffd4010000007fffffda010000007fffffec90102003\
    7fffffea901020287fffffee0100000081c7e00881e80000\
    020000400200004802000050020000580200004002000060\
    0000000000000000000000000000000000000001020000000000000412000001000000060200002000000004120000010000\
    000a02000070000000041200000100000010020000840000000412000001000000160200008800000004120000010000001c\
    020000ac0000000412000001\
    006973756d0073656c0064656c6179002e756d756c007363616c65006d61696e00\
    00000000000000000000000000000000000000000000000000000000000000000000000000000000\
    0000000000000001000000060200000000000034000000e000000000000000000000000400000000\
    00000000000000010000000202010000000001140000001800000000000000000000000400000000\
    000000000000000200000000000000000000012c0000007000000004000000010000000400000010\
    000000000000000300000000000000000000019c0000002100000000000000000000000100000000";

/// A load of one word and a jump cost two cycles, and all else one.
const COSTS: &str =
    "cycles 1\nalu 1\nshift 1\nsethi 1\ntagged 1\nmulscc 1\nsave 1\nrestore 1\nbranch 1\n\
    floatbranch 1\ncall 1\njump 2\nload 2\nloaddouble 1\nstore 1\nstoredouble 1\natomic 1\n\
    ready 1\nwritey 1\nflush 1\nfloatop 1\nfloatcmp 1\nfloatload 1\nfloatloaddouble 1\n\
    floatstore 1\nfloatstoredouble 1\ntrap 1\nannulled 1\n";

/// What is asserted of the module.
const ASSERTIONS: &str =
    "# module\nroot main\nstub .umul time 90\nat sel %o0 0..9\nloop isum+0x8 repeats 12\n";

/// The report of the module.
pub const REPORT: &str = "boundt report 1\n\
    root 020000ac main bounded 1473\n\
    context 02000000 isum plain bounded 55\n\
    loop 02000008/0 at most 10 by %o1 step -4 from 4 to 40\n\
    context 02000020 sel plain bounded 13\n\
    context 02000070 delay plain bounded 123\n\
    loop 02000070/0 at most 40 by %o0 step -1 from 1 to 40\n\
    context 02000088 scale plain bounded 1145\n\
    loop 02000090/1 at most 12 by %l0.1 step -1 from 1 to 12\n\
    context 020000ac main plain bounded 1473\n\
    end\n";

/// A shelf with the image `i`, the table `c` and the assertions `a`.
fn shelf(alloc: Global) -> Result<MemoryShelf, Fail> {
    let files = vec![in alloc;
        (String::from_str(alloc, "i")?, hex::decode(alloc, IMAGE)?),
        (
            String::from_str(alloc, "c")?,
            Vec::from_slice(alloc, COSTS.as_bytes())?
        ),
        (
            String::from_str(alloc, "a")?,
            Vec::from_slice(alloc, ASSERTIONS.as_bytes())?
        ),
    ]?;
    Ok(MemoryShelf::new(alloc, files, Vec::new(alloc))?)
}

/// The words of a call.
pub fn words_of(alloc: Global, text: &str) -> Result<Vec<String>, Fail> {
    let mut words = Vec::new(alloc);
    for word in text.split_whitespace() {
        words.push(String::from_str(alloc, word)?)?;
    }
    Ok(words)
}

/// What a call answers.
#[derive(Drop)]
pub struct Answer {
    pub status: Status,
    pub text: Vec<u8>,
}

/// What one worker answers to words.
pub fn by_one(alloc: Global, words: &str) -> Result<Answer, Fail> {
    let words = words_of(alloc, words)?;
    let mut shelf = shelf(alloc)?;
    let mut out = MemorySink::new(alloc, 20_000, 64, Vec::new(alloc))?;
    let status = run_alone(alloc, &words, &mut shelf, &mut out);
    let text = Vec::from_slice(alloc, out.bytes())?;
    Ok(Answer { status, text })
}

/// What workers who pass a gate answer to words, as many as the words ask for.
pub fn by_workers<R: Threads + Wait + Sync, G: Gate + Sync>(
    rt: &R,
    alloc: Global,
    words: &str,
    gate: &G,
) -> Result<Answer, Fail> {
    let words = words_of(alloc, words)?;
    let mut shelf = shelf(alloc)?;
    let mut out = MemorySink::new(alloc, 20_000, 64, Vec::new(alloc))?;
    let status = run(rt, alloc, &words, &mut shelf, &mut out, gate);
    let text = Vec::from_slice(alloc, out.bytes())?;
    Ok(Answer { status, text })
}
