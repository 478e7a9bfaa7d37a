//! Words that an assembler made, with their lines, and images with their listings.
use bt_image::Image;
use sparc_text::{line, listing};
use std::alloc::{AllocError, Global};
use std::test::Fail;

/// Words of operations, with their lines at 02000000 behind the address and the word.
const OPERATIONS: [(u32, &str); 34] = [
    (0xbe020001, "add %o0, %g1, %i7"),
    (0xbe023fff, "add %o0, -1, %i7"),
    (0x82080017, "and %g0, %l7, %g1"),
    (0x92102028, "or %g0, 40, %o1"),
    (0xa01e3000, "xor %i0, -4096, %l0"),
    (0xbc23afff, "sub %o6, 4095, %i6"),
    (0x962a400a, "andn %o1, %o2, %o3"),
    (0x9632400a, "orn %o1, %o2, %o3"),
    (0x963a7ffe, "xnor %o1, -2, %o3"),
    (0x86404002, "addx %g1, %g2, %g3"),
    (0x86607ff8, "subx %g1, -8, %g3"),
    (0x94820009, "addcc %o0, %o1, %o2"),
    (0x808a20ff, "andcc %o0, 255, %g0"),
    (0x80900008, "orcc %g0, %o0, %g0"),
    (0x949a0009, "xorcc %o0, %o1, %o2"),
    (0x80a23ffb, "subcc %o0, -5, %g0"),
    (0x94aa0009, "andncc %o0, %o1, %o2"),
    (0x94b20009, "orncc %o0, %o1, %o2"),
    (0x94ba0009, "xnorcc %o0, %o1, %o2"),
    (0x86c04002, "addxcc %g1, %g2, %g3"),
    (0x86e07ff8, "subxcc %g1, -8, %g3"),
    (0x932a201f, "sll %o0, 31, %o1"),
    (0x932a3fff, "sll %o0, -1, %o1"),
    (0x9332000a, "srl %o0, %o2, %o1"),
    (0x933a2001, "sra %o0, 1, %o1"),
    (0xa5040011, "taddcc %l0, %l1, %l2"),
    (0xa50c3ffd, "tsubcc %l0, -3, %l2"),
    (0xa5140011, "taddcctv %l0, %l1, %l2"),
    (0xa51c2007, "tsubcctv %l0, 7, %l2"),
    (0x99230009, "mulscc %o4, %o1, %o4"),
    (0x9de3bfa0, "save %o6, -96, %o6"),
    (0x85e00001, "save %g0, %g1, %g2"),
    (0x81e80000, "restore %g0, %g0, %g0"),
    (0x91ec3fff, "restore %l0, -1, %o0"),
];

/// Words that load and store.
const MEMORY: [(u32, &str); 18] = [
    (0xc202400a, "ld [%o1+%o2], %g1"),
    (0xd00bbfff, "ldub [%o6-1], %o0"),
    (0xd017a05c, "lduh [%i6+92], %o0"),
    (0xd41c0000, "ldd [%l0+%g0], %o2"),
    (0xf0482fff, "ldsb [%g0+4095], %i0"),
    (0xf2563000, "ldsh [%i0-4096], %i1"),
    (0xc222400a, "st %g1, [%o1+%o2]"),
    (0xd02bbfff, "stb %o0, [%o6-1]"),
    (0xd037a05c, "sth %o0, [%i6+92]"),
    (0xd43c0000, "std %o2, [%l0+%g0]"),
    (0xd26a2000, "ldstub [%o0+0], %o1"),
    (0xd27a3ffc, "swap [%o0-4], %o1"),
    (0xc3020000, "ldf [%o0+%g0], %f1"),
    (0xc10a2008, "ldfsr [%o0+8]"),
    (0xfd1a3ff8, "lddf [%o0-8], %f30"),
    (0xff220009, "stf %f31, [%o0+%o1]"),
    (0xc12ba040, "stfsr [%o6+64]"),
    (0xc53bbff0, "stdf %f2, [%o6-16]"),
];

/// Words of calls, jumps, traps and states, and words that are no instruction.
const TRANSFERS: [(u32, &str); 30] = [
    (0x11000001, "sethi 0x00000001, %o0"),
    (0x3f3fffff, "sethi 0x003fffff, %i7"),
    (0x01000000, "sethi 0x00000000, %g0"),
    (0x81c3e008, "jmpl %o7+8, %g0"),
    (0x81c3e000, "jmpl %o7+0, %g0"),
    (0x81c04000, "jmpl %g1+%g0, %g0"),
    (0x9fc7fff8, "jmpl %i7-8, %o7"),
    (0x9fc40011, "jmpl %l0+%l1, %o7"),
    (0x40000000, "call 02000000"),
    (0x40000003, "call 0200000c"),
    (0x7fffffff, "call 01fffffc"),
    (0x60000000, "call 82000000"),
    (0x97400000, "rdy %o3"),
    (0x81822005, "wry %o0, 5"),
    (0x81820009, "wry %o0, %o1"),
    (0x81d86008, "iflush %g1+8"),
    (0x81d84002, "iflush %g1+%g2"),
    (0x91d02003, "ta %g0+3"),
    (0x83d04002, "te %g1+%g2"),
    (0x89d07fff, "tleu %g1-1"),
    (0x00001234, "unimp 0x00001234"),
    (0x94520009, ".word 0x94520009"),
    (0x94529fe9, ".word 0x94529fe9"),
    (0x94da2003, ".word 0x94da2003"),
    (0x947a0009, ".word 0x947a0009"),
    (0x94fa1fe9, ".word 0x94fa1fe9"),
    (0x85a00821, ".word 0x85a00821"),
    (0x81a80a21, ".word 0x81a80a21"),
    (0x01c00000, ".word 0x01c00000"),
    (0xffffffff, ".word 0xffffffff"),
];

/// Words of branches.
const BRANCHES: [(u32, &str); 25] = [
    (0x00800001, "bn 02000004"),
    (0x02800001, "be 02000004"),
    (0x04800001, "ble 02000004"),
    (0x06800001, "bl 02000004"),
    (0x08800001, "bleu 02000004"),
    (0x0a800001, "bcs 02000004"),
    (0x0c800001, "bneg 02000004"),
    (0x0e800001, "bvs 02000004"),
    (0x10800001, "ba 02000004"),
    (0x12800001, "bne 02000004"),
    (0x14800001, "bg 02000004"),
    (0x16800001, "bge 02000004"),
    (0x18800001, "bgu 02000004"),
    (0x1a800001, "bcc 02000004"),
    (0x1c800001, "bpos 02000004"),
    (0x1e800001, "bvc 02000004"),
    (0x20800001, "bn,a 02000004"),
    (0x30bfffff, "ba,a 01fffffc"),
    (0x32bffffe, "bne,a 01fffff8"),
    (0x109fffff, "ba 027ffffc"),
    (0x10a00000, "ba 01800000"),
    (0x01800001, "fb0 02000004"),
    (0x13800001, "fb9 02000004"),
    (0x1fbfffff, "fb15 01fffffc"),
    (0x3dbfffff, "fb14,a 01fffffc"),
];

/// Whether a word at 02000000 has a line with this text.
fn is_line(alloc: Global, word: u32, text: &str) -> Result<bool, Fail> {
    let want = format!(in alloc; "02000000 {word:08x} {text}")?;
    let got = line(alloc, 0x0200_0000, word)?;
    Ok(got.as_str() == want.as_str())
}

/// The first text of a table that the line of its word doesn't have.
fn first_wrong<'a>(alloc: Global, table: &[(u32, &'a str)]) -> Result<Option<&'a str>, Fail> {
    for (word, text) in table {
        if !is_line(alloc, *word, text)? {
            return Ok(Some(*text));
        }
    }
    Ok(None)
}

#[test]
fn writes_lines(rt: HostRuntime) -> Result<(), Fail> {
    let alloc = rt.alloc();
    assert_eq!(rt; first_wrong(alloc, &OPERATIONS)?, None);
    assert_eq!(rt; first_wrong(alloc, &MEMORY)?, None);
    assert_eq!(rt; first_wrong(alloc, &TRANSFERS)?, None);
    assert_eq!(rt; first_wrong(alloc, &BRANCHES)?, None);
    Ok(())
}

/// Addresses at both ends of memory, words of branches and calls, and their lines.
const TARGETS: [(u32, u32, &str); 5] = [
    (0, 0x10bfffff, "00000000 10bfffff ba fffffffc"),
    (0, 0x7fffffff, "00000000 7fffffff call fffffffc"),
    (0xfffffffc, 0x10800001, "fffffffc 10800001 ba 00000000"),
    (0xfffffffc, 0x40000002, "fffffffc 40000002 call 00000004"),
    (0x90000000, 0x60000000, "90000000 60000000 call 10000000"),
];

#[test]
fn wraps_targets(rt: HostRuntime) -> Result<(), Fail> {
    for (at, word, want) in &TARGETS {
        let got = line(rt.alloc(), *at, *word)?;
        assert!(rt; got.as_str() == *want, "{want}");
    }
    Ok(())
}

/// An executable of 256 bytes: one function `f` of two instructions at 02000000, in the section 1. Its symbol
/// table is section 2, and section 3 has the strings.
const WORDS: [u32; 64] = [
    0x7f454c46, 0x01020100, 0, 0, 0x00020002, 1, 0x02000000, 0, 0x60, 0, 0x00340000, 0x28,
    0x00040003, 0x81c3e008, 0x01000000, 0, 0, 0, 0, 1, 0x02000000, 8, 0x12000001, 0x00660000, 0, 0,
    0, 0, 0, 0, 0, 0, 0, 0, 0, 1, 6, 0x02000000, 0x34, 8, 0, 0, 4, 0, 0, 2, 0, 0, 0x3c, 0x20, 3, 1,
    4, 0x10, 0, 3, 0, 0, 0x5c, 3, 0, 0, 1, 0,
];

/// A loop that sums ten words.
const SUM: [u32; 8] = [
    0x92102028, 0x94102000, 0xc2020009, 0x92a26004, 0x12bffffe, 0x94028001, 0x81c3e008, 0x9010000a,
];

/// The bytes of the executable with the words at some places of it set, and more words behind it.
fn changed(alloc: Global, changes: &[(u32, u32)], more: &[u32]) -> Result<Vec<u8>, AllocError> {
    let mut words = Vec::from_slice(alloc, &WORDS)?;
    for (at, word) in changes {
        let place = *at as usize / 4;
        if place < words.len() {
            words[place] = *word;
        }
    }
    words.extend_from_slice(more)?;
    let mut bytes = Vec::new(alloc);
    for word in &words {
        bytes.extend_from_slice(&word.to_be_bytes())?;
    }
    Ok(bytes)
}

/// Changes of the executable, words behind it, and its listing.
const LISTINGS: [(&[(u32, u32)], &[u32], &str); 5] = [
    (
        &[],
        &[],
        "02000000 81c3e008 jmpl %o7+8, %g0\n02000004 01000000 sethi 0x00000000, %g0\n",
    ),
    (
        &[(80, 0xfffffff8), (148, 0xfffffff8)],
        &[],
        "fffffff8 81c3e008 jmpl %o7+8, %g0\nfffffffc 01000000 sethi 0x00000000, %g0\n",
    ),
    (
        &[(152, 0x100), (156, 32)],
        &SUM,
        "02000000 92102028 or %g0, 40, %o1\n\
        02000004 94102000 or %g0, 0, %o2\n\
        02000008 c2020009 ld [%o0+%o1], %g1\n\
        0200000c 92a26004 subcc %o1, 4, %o1\n\
        02000010 12bffffe bne 02000008\n\
        02000014 94028001 add %o2, %g1, %o2\n\
        02000018 81c3e008 jmpl %o7+8, %g0\n\
        0200001c 9010000a or %g0, %o2, %o0\n",
    ),
    (
        &[(224, 6), (228, 0x01000000), (236, 4)],
        &[],
        "01000000 00660000 .word 0x00660000\n\
        02000000 81c3e008 jmpl %o7+8, %g0\n\
        02000004 01000000 sethi 0x00000000, %g0\n",
    ),
    (&[(144, 2)], &[], ""),
];

/// Whether the executable that was so changed has this listing.
fn is_listed(
    alloc: Global,
    changes: &[(u32, u32)],
    more: &[u32],
    want: &str,
) -> Result<bool, Fail> {
    let bytes = changed(alloc, changes, more)?;
    match Image::read(alloc, &bytes) {
        Ok(image) => Ok(listing(alloc, &image)?.as_slice() == want.as_bytes()),
        Err(_) => Ok(false),
    }
}

#[test]
fn lists_code(rt: HostRuntime) -> Result<(), Fail> {
    for (changes, more, want) in &LISTINGS {
        assert!(rt; is_listed(rt.alloc(), changes, more, want)?, "{want}");
    }
    Ok(())
}
