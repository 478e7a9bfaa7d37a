//! Assertion files bound to a small image.
use assert_bind::*;
use assert_lang::parse;
use bt_image::Image;
use std::alloc::{AllocError, Global};
use std::test::Fail;

/// An executable with eight instructions at 02000000. Its functions are `f` at 02000000, `g` at 02000008 and at
/// 02000004, and `h` at 02000010.
const WORDS: [u32; 83] = [
    0x7f454c46, 0x01020100, 0, 0, 0x00020002, 1, 0x02000000, 0, 0xac, 0, 0x00340000, 0x28,
    0x00040003, 0x81c3e008, 0x01000000, 0x01000000, 0x01000000, 0x01000000, 0x01000000, 0x01000000,
    0x01000000, 0, 0, 0, 0, 1, 0x02000000, 8, 0x12000001, 3, 0x02000008, 8, 0x12000001, 3,
    0x02000004, 8, 0x12000001, 5, 0x02000010, 8, 0x12000001, 0x00660067, 0x00680000, 0, 0, 0, 0, 0,
    0, 0, 0, 0, 0, 0, 1, 6, 0x02000000, 0x34, 0x20, 0, 0, 4, 0, 0, 2, 0, 0, 0x54, 0x50, 3, 1, 4,
    0x10, 0, 3, 0, 0, 0xa4, 7, 0, 0, 1, 0,
];

/// The bytes of the words, the highest of each first.
fn bytes(alloc: Global) -> Result<Vec<u8>, AllocError> {
    let mut bytes = Vec::new(alloc);
    for word in &WORDS {
        bytes.extend_from_slice(&word.to_be_bytes())?;
    }
    Ok(bytes)
}

/// The image, if its bytes are not refused.
fn image(alloc: Global) -> Result<Option<Image>, AllocError> {
    let bytes = bytes(alloc)?;
    Ok(Image::read(alloc, &bytes).ok())
}

/// A text of assertions bound to the image, if it is a text of assertions.
fn bound(alloc: Global, image: &Image, text: &str) -> Option<Result<Binding, BindRefusal>> {
    if text.len() < 1_000_000 {
        let list = parse(alloc, text.as_bytes()).ok()?;
        Some(bind(alloc, list.as_slice(), image))
    } else {
        None
    }
}

/// Texts, and what is refused of them.
#[rattlefmt::skip]
const TEXTS: [(&str, Option<BindRefusal>); 52] = [
    ("", None),
    ("root f\nroot g\nroot h\nroot 0x200001c", None),
    ("\nroot q", Some(BindRefusal::NoName { line: 2 })),
    ("root f\nstub q time 1", Some(BindRefusal::NoName { line: 2 })),
    ("root q+0x4", Some(BindRefusal::NoName { line: 1 })),
    ("root ff", Some(BindRefusal::NoName { line: 1 })),
    ("root 0x1fffffc", Some(BindRefusal::NotCode { line: 1, addr: 0x01fffffc })),
    ("root f+0x20", Some(BindRefusal::NotCode { line: 1, addr: 0x02000020 })),
    ("never f+0x2", Some(BindRefusal::NotCode { line: 1, addr: 0x02000002 })),
    ("loop f+0xffffffff repeats 1", Some(BindRefusal::NotCode { line: 1, addr: 0x01ffffff })),
    ("never g\nnever h+0xfffffff4", Some(BindRefusal::Conflict { line: 2, other: 1 })),
    ("never g\nnever 0x2000004", Some(BindRefusal::Conflict { line: 2, other: 1 })),
    ("never g\nnever 0x2000008", None),
    ("jump f to q,0x0", Some(BindRefusal::NoName { line: 1 })),
    ("jump f to 0x0,q", Some(BindRefusal::NotCode { line: 1, addr: 0 })),
    ("jump 0x0 to q", Some(BindRefusal::NotCode { line: 1, addr: 0 })),
    ("jump q to 0x0", Some(BindRefusal::NoName { line: 1 })),
    ("call f to g,h,0x8", Some(BindRefusal::NotCode { line: 1, addr: 8 })),
    ("call f to g,g,g", None),
    ("at q %o0 1..0", Some(BindRefusal::NoName { line: 1 })),
    ("at 0x4 %o0 1..0", Some(BindRefusal::NotCode { line: 1, addr: 4 })),
    ("at f %o0 1..0", Some(BindRefusal::EmptyRange { line: 1 })),
    ("at f %o0 -1..-2", Some(BindRefusal::EmptyRange { line: 1 })),
    ("at f %o0 5..5", None),
    ("at f %o0 -2147483648..2147483647", None),
    ("at f %o0 0..5\nat f %o0 1..0", Some(BindRefusal::EmptyRange { line: 2 })),
    ("root f\nroot f+0x0", Some(BindRefusal::Conflict { line: 2, other: 1 })),
    ("root f\nstub f time 1", Some(BindRefusal::Conflict { line: 2, other: 1 })),
    ("stub f time 1\nroot f", Some(BindRefusal::Conflict { line: 2, other: 1 })),
    ("stub f time 1\nstub f time 1", Some(BindRefusal::Conflict { line: 2, other: 1 })),
    ("never f\n\nnever f", Some(BindRefusal::Conflict { line: 3, other: 1 })),
    ("loop f repeats 1\nloop f repeats 2", Some(BindRefusal::Conflict { line: 2, other: 1 })),
    ("jump f to g\njump f to g", Some(BindRefusal::Conflict { line: 2, other: 1 })),
    ("jump f to g\ncall f to g", Some(BindRefusal::Conflict { line: 2, other: 1 })),
    ("call f to g\njump f to g", Some(BindRefusal::Conflict { line: 2, other: 1 })),
    ("call f to g\ncall f to g", Some(BindRefusal::Conflict { line: 2, other: 1 })),
    ("at f %o0 0..5\nat f %o0 0..5", Some(BindRefusal::Conflict { line: 2, other: 1 })),
    ("at f %o6 0..5\nat f %sp 0..5", Some(BindRefusal::Conflict { line: 2, other: 1 })),
    ("at f %o0 0..5\nat f %o1 0..5", None),
    ("at f %o0 0..5\nat g %o0 0..5", None),
    ("root f\nnever f\nloop f repeats 1\njump f to f\nat f %o0 0..1", None),
    ("root f\nroot g\n\nroot h\nroot g\nroot q", Some(BindRefusal::Conflict { line: 5, other: 2 })),
    ("root q\nroot f\nroot f", Some(BindRefusal::NoName { line: 1 })),
    ("at f %o0 1..0\nroot q", Some(BindRefusal::EmptyRange { line: 1 })),
    ("never f\n# never f\n\nnever f+0x20", Some(BindRefusal::NotCode { line: 4, addr: 0x02000020 })),
    ("call f to g,q,0x8", Some(BindRefusal::NoName { line: 1 })),
    ("call f to g,h,f+0x3", Some(BindRefusal::NotCode { line: 1, addr: 0x02000003 })),
    ("call 0x2000001 to g", Some(BindRefusal::NotCode { line: 1, addr: 0x02000001 })),
    ("loop q repeats 1", Some(BindRefusal::NoName { line: 1 })),
    ("stub 0x2000002 time 1", Some(BindRefusal::NotCode { line: 1, addr: 0x02000002 })),
    ("stub f time 1\nstub g time 1\nstub f time 2", Some(BindRefusal::Conflict { line: 3, other: 1 })),
    ("at f %o0 0..5\nat f %o1 0..5\nat f+0x0 %o1 9..9", Some(BindRefusal::Conflict { line: 3, other: 2 })),
];

/// Whether a text of assertions is bound, or this is refused of it.
fn is_bound(alloc: Global, image: &Image, text: &str, want: Option<BindRefusal>) -> bool {
    match bound(alloc, image, text) {
        Some(result) => result.err() == want,
        None => false,
    }
}

#[test]
fn refuses_the_first_that_does_not_bind(rt: HostRuntime) -> Result<(), Fail> {
    let image = image(rt.alloc())?.ok_or("refused")?;
    for (text, want) in &TEXTS {
        assert!(rt; is_bound(rt.alloc(), &image, text, *want), "at {text:?}");
    }
    Ok(())
}

/// A line of each kind and more of some.
const TEXT: &str =
    "root h\nstub g time 7\nroot f\nnever f+0x4\nat f %o0 -3..5\njump f+0x8 to h,f,f\n\ncall h to g # once\nloop f repeats 10\nstub 0x200001c time 4611686018427387903\nloop h repeats 1\nat f %sp 9..9\nnever f";

/// The lines on loops.
const LOOPS: [LoopLine; 2] = [
    LoopLine {
        line: 9,
        pc: 0x02000000,
        count: 10,
    },
    LoopLine {
        line: 11,
        pc: 0x02000010,
        count: 1,
    },
];

/// Addresses, and the time of a stub there, whether it is never reached, and the passes of a loop there.
const PLACES: [(u32, Option<u64>, bool, Option<u64>); 6] = [
    (0x02000000, None, true, Some(10)),
    (0x02000004, Some(7), true, None),
    (0x02000008, None, false, None),
    (0x02000010, None, false, Some(1)),
    (0x0200001c, Some(4611686018427387903), false, None),
    (0, None, false, None),
];

/// Addresses and registers, and the range of their values.
const RANGES: [(u32, u8, Option<(i32, i32)>); 4] = [
    (0x02000000, 8, Some((-3, 5))),
    (0x02000000, 14, Some((9, 9))),
    (0x02000000, 9, None),
    (0x02000004, 8, None),
];

/// Addresses, and the targets that are listed there.
const LISTED: [(u32, Option<&[u32]>); 3] = [
    (0x02000008, Some(&[0x02000010, 0x02000000, 0x02000000])),
    (0x02000010, Some(&[0x02000004])),
    (0x02000000, None),
];

/// Whether the lists of what is bound are those of the text.
fn are_lists(binding: &Binding) -> bool {
    binding.roots() == [0x02000010, 0x02000000].as_slice()
        && binding.stubs() == [0x02000004, 0x0200001c].as_slice()
        && binding.ends() == [-3, 5, 9, 9].as_slice()
        && binding.loops() == LOOPS.as_slice()
}

#[test]
fn looks_up(rt: HostRuntime) -> Result<(), Fail> {
    let image = image(rt.alloc())?.ok_or("refused")?;
    let binding = bound(rt.alloc(), &image, TEXT).ok_or("not parsed")??;
    assert!(rt; are_lists(&binding));
    for (pc, stub, never, repeats) in &PLACES {
        let got = (binding.stub(*pc), binding.never(*pc), binding.repeats(*pc));
        assert!(rt; got == (*stub, *never, *repeats), "at {pc:08x}");
    }
    for (pc, register, range) in &RANGES {
        assert!(rt;
            binding.range(*pc, *register) == *range,
            "{register} at {pc:08x}"
        );
    }
    for (pc, targets) in &LISTED {
        assert!(rt; binding.listed(*pc) == *targets, "at {pc:08x}");
    }
    Ok(())
}
