//! The rows of the command `decode`.
use crate::calls::{NEVER, files_of, files_with, says};
use std::alloc::Global;
use std::test::Fail;

/// Words of code, and their lines.
const LISTINGS: [(&str, &str); 3] = [
    (
        "92102028 94102000 c2020009 92a26004 12bffffe 94028001 81c3e008 9010000a",
        "02000000 92102028 or %g0, 40, %o1\n\
        02000004 94102000 or %g0, 0, %o2\n\
        02000008 c2020009 ld [%o0+%o1], %g1\n\
        0200000c 92a26004 subcc %o1, 4, %o1\n\
        02000010 12bffffe bne 02000008\n\
        02000014 94028001 add %o2, %g1, %o2\n\
        02000018 81c3e008 jmpl %o7+8, %g0\n\
        0200001c 9010000a or %g0, %o2, %o0\n",
    ),
    (
        "11000001 90122005 81c3e008 01000000",
        "02000000 11000001 sethi 0x00000001, %o0\n\
        02000004 90122005 or %o0, 5, %o0\n\
        02000008 81c3e008 jmpl %o7+8, %g0\n\
        0200000c 01000000 sethi 0x00000000, %g0\n",
    ),
    (
        "92102028 12bffffe 30800001 ffffffff",
        "02000000 92102028 or %g0, 40, %o1\n\
        02000004 12bffffe bne 01fffffc\n\
        02000008 30800001 ba,a 0200000c\n\
        0200000c ffffffff .word 0xffffffff\n",
    ),
];

/// Whether code has these lines.
fn is_listed(alloc: Global, code: &str, lines: &str) -> Result<bool, Fail> {
    let files = files_with(alloc, code, "")?;
    says(
        alloc,
        "decode i",
        files,
        (NEVER, NEVER),
        "boundt: 0 Bounded",
        lines,
    )
}

/// The words, the read and the write that fail, and the message.
const CALLS: [(&str, u64, u64, &str); 7] = [
    ("decode i", 0, NEVER, "boundt: 6 ReadFault file 1"),
    ("decode j", NEVER, NEVER, "boundt: 6 ReadFault file 1"),
    ("decode i", NEVER, 0, "boundt: 7 WriteFault written 0"),
    ("decode i --workers 1", NEVER, NEVER, "boundt: 2 Usage"),
    ("decode", NEVER, NEVER, "boundt: 2 Usage"),
    ("decode i i", NEVER, NEVER, "boundt: 2 Usage"),
    ("decode c", NEVER, NEVER, "boundt: 3 Magic"),
];

#[test]
fn decode(rt: HostRuntime) -> Result<(), Fail> {
    let alloc = rt.alloc();
    for (code, lines) in &LISTINGS {
        assert!(rt; is_listed(alloc, code, lines)?, "of {code}");
    }
    for (words, read, write, message) in &CALLS {
        let files = files_of(alloc, "")?;
        assert!(rt;
            says(alloc, words, files, (*read, *write), message, "")?,
            "of {words}"
        );
    }
    Ok(())
}
