//! Whole runs of small images, and a case for each trap.
ghost use Rattle.std.specs.Prelude.{◌≡◌, ◌<◌};

use bt_image::Image;
use cycle_table::Cycles;
use sparc_machine::{Free, Machine, Straight, Trap, physical, step, straight_from};
use std::alloc::{AllocError, Global};
use std::test::Fail;

/// A table in which every class costs one cycle.
const ONES: &[u8] =
    b"cycles 1\nalu 1\nshift 1\nsethi 1\ntagged 1\nmulscc 1\nsave 1\nrestore 1\nbranch 1\nfloatbranch 1\ncall 1\njump 1\nload 1\nloaddouble 1\nstore 1\nstoredouble 1\natomic 1\nready 1\nwritey 1\nflush 1\nfloatop 1\nfloatcmp 1\nfloatload 1\nfloatloaddouble 1\nfloatstore 1\nfloatstoredouble 1\ntrap 1\nannulled 1\n";

/// A table of version 2 in which every class costs one cycle but uses behind a load four.
const DEAR_USES: &[u8] =
    b"cycles 2\nalu 1\nshift 1\nsethi 1\ntagged 1\nmulscc 1\nsave 1\nrestore 1\nbranch 1\nfloatbranch 1\ncall 1\njump 1\nload 1\nloaddouble 1\nstore 1\nstoredouble 1\natomic 1\nready 1\nwritey 1\nflush 1\nfloatop 1\nfloatcmp 1\nfloatload 1\nfloatloaddouble 1\nfloatstore 1\nfloatstoredouble 1\ntrap 1\nannulled 1\nloaduse 4\nmultiply 5\ndivide 6\n";

/// The bytes of words, big-endian.
fn put(bytes: &mut Vec<u8>, words: &[u32]) -> Result<(), AllocError> {
    for word in words {
        bytes.extend_from_slice(&word.to_be_bytes())?;
    }
    Ok(())
}

/// An ELF file with one section of code at 02000000.
#[rattlefmt::skip]
fn file(alloc: Global, code: &[u32]) -> Result<Vec<u8>, AllocError> {
    let size = (code.len() % 1000 * 4) as u32;
    let mut bytes = Vec::new(alloc);
    put(&mut bytes, &[0x7f45_4c46, 0x0102_0100, 0, 0, 0x0002_0002, 1, 0x0200_0000, 0])?;
    put(&mut bytes, &[52 + size, 0, 0x0034_0000, 0x0000_0028, 0x0002_0000])?;
    put(&mut bytes, code)?;
    put(&mut bytes, &[0, 0, 0, 0, 0, 0, 0, 0, 0, 0])?;
    put(&mut bytes, &[0, 1, 6, 0x0200_0000, 52, size, 0, 0, 4, 0])?;
    Ok(bytes)
}

/// A machine at the first word in window 3, called from 01000000.
fn entry() -> Machine
    ensures { (result.cwp ≡ 3) × (result.cycles ≡ 0) }
{
    let mut regs = [0; 136];
    regs[physical(3, 15)] = 0x0100_0000;
    regs[physical(3, 8)] = 0x4000_0000;
    Machine {
        regs,
        n: false,
        z: false,
        v: false,
        c: false,
        pc: 0x0200_0000,
        npc: 0x0200_0004,
        cwp: 3,
        wim: 64,
        cycles: 0,
        loaded: 0,
    }
}

/// What every read finds.
const FOUND: Free = Free {
    first: 0x8005,
    second: 7,
    flags: 0,
    taken: false,
};

/// The cycles of a table of less than 10,000 bytes, if it is not refused.
fn cycles_of(table: &[u8]) -> Option<Cycles> {
    if table.len() < 10_000 {
        Cycles::read(table).ok()
    } else {
        None
    }
}

/// The image of a file with some code, if it is not refused.
fn image_of(alloc: Global, code: &[u32]) -> Result<Option<Image>, AllocError> {
    let bytes = file(alloc, code)?;
    Ok(Image::read(alloc, &bytes).ok())
}

/// A step of a machine whose window is one and whose cycles are few.
fn step_of(
    m: &mut Machine,
    image: &Image,
    cycles: &Cycles,
    found: Free,
) -> Option<Result<(), Trap>> {
    if m.cwp < 8 && m.cycles < 100 && found.flags < 16 {
        Some(step(m, image, cycles, found))
    } else {
        None
    }
}

/// What is in a register of window 3.
fn content(m: &Machine, r: u8) -> u32
    requires { r < 32 }
{
    m.regs[physical(3, r)]
}

/// A sum over ten words, and a call with SAVE and RESTORE: the code, its steps, and what is in %o0 then.
#[rattlefmt::skip]
const RUNS: [([u32; 8], u64, u32); 2] = [
    (
        [
            0x9210_2028, 0x9410_2000, 0xc202_0009, 0x92a2_6004,
            0x12bf_fffe, 0x9402_8001, 0x81c3_e008, 0x9010_000a,
        ],
        44,
        10 * 0x8005,
    ),
    (
        [
            0x9de3_bfa0, 0x4000_0004, 0x0100_0000, 0x81c7_e008,
            0x91e8_2007, 0x9de3_bfa0, 0x81c7_e008, 0x81e8_0000,
        ],
        8,
        7,
    ),
];

/// Whether so many steps lead to the caller and leave this in %o0.
fn runs(image: &Image, cycles: &Cycles, steps: u64, found: u32) -> bool {
    let mut m = entry();
    for _ in 0..steps {
        if step_of(&mut m, image, cycles, FOUND) != Some(Ok(())) {
            return false;
        }
    }
    m.pc == 0x0100_0008 && m.cycles == steps && m.cwp == 3 && content(&m, 8) == found
}

#[test]
fn runs_to_the_end(rt: HostRuntime) -> Result<(), Fail> {
    let cycles = cycles_of(ONES).ok_or("no table")?;
    for (code, steps, found) in &RUNS {
        let image = image_of(rt.alloc(), code)?.ok_or("no image")?;
        assert!(rt; runs(&image, &cycles, *steps, *found), "{steps} steps");
    }
    Ok(())
}

/// The word at the program counter, and what a step over it comes to.
const STEPS: [(u32, Result<u32, Trap>); 12] = [
    (0x0000_0000, Err(Trap::Unmodelled)),
    (0x91d0_2003, Err(Trap::Unmodelled)),
    (0xc202_2001, Err(Trap::Misaligned)),
    (0x81c2_2002, Err(Trap::Misaligned)),
    (0xc220_0000, Ok(0x0200_0004)),
    (0xc223_0000, Err(Trap::ReadOnlyStore)),
    (0xc06b_0000, Err(Trap::ReadOnlyStore)),
    (0x9de3_bfa0, Ok(0x0200_0004)),
    (0x81e8_0000, Ok(0x0200_0004)),
    (0x30bf_ffff, Ok(0x01ff_fffc)),
    (0x2280_0004, Ok(0x0200_0008)),
    (0x1280_0004, Ok(0x0200_0004)),
];

/// Whether a step comes to this: it leads on, or it traps and leaves the machine as it was.
fn comes_to(image: &Image, cycles: &Cycles, want: Result<u32, Trap>) -> bool {
    let mut m = entry();
    m.regs[physical(3, 12)] = 0x0200_0000;
    let before = m;
    let got = step_of(&mut m, image, cycles, FOUND);
    match want {
        Ok(pc) => got == Some(Ok(())) && m.pc == pc,
        Err(trap) => got == Some(Err(trap)) && m == before,
    }
}

#[test]
fn annuls_extends_and_traps(rt: HostRuntime) -> Result<(), Fail> {
    let cycles = cycles_of(ONES).ok_or("no table")?;
    for (word, want) in &STEPS {
        let image = image_of(rt.alloc(), &[*word])?.ok_or("no image")?;
        assert!(rt; comes_to(&image, &cycles, *want), "at {word:08x}");
    }
    Ok(())
}

/// Program counters, the invalid windows, and the trap of a step: the windows beside the current one are invalid,
/// and then there is no code.
const TRAPS: [(u32, u8, Trap); 4] = [
    (0x0200_0000, 4, Trap::Overflow),
    (0x0200_0004, 16, Trap::Underflow),
    (0x0200_0008, 64, Trap::Fetch),
    (0x0200_0002, 64, Trap::Fetch),
];

/// Whether a step from a program counter traps so.
fn traps(image: &Image, cycles: &Cycles, pc: u32, wim: u8, trap: Trap) -> bool {
    let mut m = entry();
    m.pc = pc;
    m.npc = pc.wrapping_add(4);
    m.wim = wim;
    step_of(&mut m, image, cycles, FOUND) == Some(Err(trap))
}

#[test]
fn traps_beside_the_window(rt: HostRuntime) -> Result<(), Fail> {
    let cycles = cycles_of(ONES).ok_or("no table")?;
    let image = image_of(rt.alloc(), &[0x9de3_bfa0, 0x81e8_0000])?.ok_or("no image")?;
    for (pc, wim, trap) in &TRAPS {
        assert!(rt; traps(&image, &cycles, *pc, *wim, *trap), "at {pc:08x}");
    }
    Ok(())
}

/// Four words at an entry, and how many words of straight code begin there, or 0 where none does.
#[rattlefmt::skip]
const STRAIGHT: [(u32, [u32; 4], u32); 10] = [
    (0x0200_0000, [0x81c3_e008, 0x0100_0000, 0, 0], 2),
    (0x0200_0008, [0, 0, 0x81c3_e008, 0x0100_0000], 2),
    (0x0200_0000, [0x1100_0001, 0x9012_2005, 0x81c3_e008, 0x9e10_2000], 4),
    // r15 is written, condition codes are set, r31 is returned to, the delay instruction is missing or a branch
    (0x0200_0000, [0x9e10_2000, 0x9012_2005, 0x81c3_e008, 0x0100_0000], 0),
    (0x0200_0000, [0x1100_0001, 0x90a2_2001, 0x81c3_e008, 0x0100_0000], 0),
    (0x0200_0000, [0x1100_0001, 0x9012_2005, 0x81c7_e008, 0x0100_0000], 0),
    (0x0200_0000, [0x1100_0001, 0x9012_2005, 0x1100_0001, 0x81c3_e008], 0),
    (0x0200_0000, [0x1100_0001, 0x9012_2005, 0x81c3_e008, 0x12bf_fffe], 0),
    (0x0200_0010, [0x81c3_e008, 0x0100_0000, 0, 0], 0),
    (0x0200_0002, [0x81c3_e008, 0x0100_0000, 0, 0], 0),
];

/// Whether so many words of straight code begin at an entry, which cost a cycle each, or none does.
fn is_straight(image: &Image, cycles: &Cycles, entry: u32, count: u32) -> bool {
    match straight_from(image, cycles, entry) {
        None => count == 0,
        Some(code) => count > 0 && code.count == count && code.cycles == u64::from(count),
    }
}

#[test]
fn bounds_straight_code_alone(rt: HostRuntime) -> Result<(), Fail> {
    let cycles = cycles_of(ONES).ok_or("no table")?;
    for (entry, code, count) in &STRAIGHT {
        let image = image_of(rt.alloc(), code)?.ok_or("no image")?;
        assert!(rt;
            is_straight(&image, &cycles, *entry, *count),
            "at {entry:08x} of {code:?}"
        );
    }
    Ok(())
}

/// Whether a step leads to this word.
fn leads_to(m: &mut Machine, image: &Image, cycles: &Cycles, pc: u32) -> bool {
    step_of(m, image, cycles, FOUND) == Some(Ok(())) && m.pc == pc
}

#[test]
fn runs_the_first_leaf(rt: HostRuntime) -> Result<(), Fail> {
    let cycles = cycles_of(ONES).ok_or("no table")?;
    let image = image_of(rt.alloc(), &LEAF)?.ok_or("no image")?;
    let mut m = entry();
    let returned = leads_to(&mut m, &image, &cycles, 0x0200_0004)
        && leads_to(&mut m, &image, &cycles, 0x0100_0008);
    assert!(rt; returned && m.cycles == 2);
    Ok(())
}

/// The leaf of two words.
const LEAF: [u32; 2] = [0x81c3_e008, 0x0100_0000];

/// A load into %g1, a sum of %g1, a return, a double load into %o2 and %o3, a sum of %o3, one of %o2.
const LOADS: [u32; 6] = [
    0xc202_2000,
    0x9000_6001,
    0x0100_0000,
    0xd41a_2000,
    0x9002_c008,
    0x9002_8008,
];

/// The registers that are loaded after each step of that code.
const LOADED: [u32; 6] = [0x2, 0, 0, 0xc00, 0, 0];

/// Whether a step in window 3 has spent so many cycles and loaded these registers.
fn charges(m: &mut Machine, image: &Image, cycles: &Cycles, spent: u64, loaded: u32) -> bool {
    m.regs[physical(3, 8)] = 0x4000_0000;
    step_of(m, image, cycles, FOUND) == Some(Ok(()))
        && m.cycles == spent
        && m.loaded == loaded
        && m.cwp == 3
}

/// Whether the steps of that code, behind a load of any register, spend so many cycles.
fn charges_all(image: &Image, cycles: &Cycles, spent: &[u64; 6]) -> bool {
    let mut m = entry();
    m.loaded = u32::MAX;
    for (cycles_then, loaded) in spent.iter().zip(&LOADED) {
        if !charges(&mut m, image, cycles, *cycles_then, *loaded) {
            return false;
        }
    }
    true
}

#[test]
fn charges_uses_behind_loads(rt: HostRuntime) -> Result<(), Fail> {
    let image = image_of(rt.alloc(), &LOADS)?.ok_or("no image")?;
    let ones = cycles_of(ONES).ok_or("no table")?;
    assert!(rt; charges_all(&image, &ones, &[1, 2, 3, 4, 5, 6]));
    let dear = cycles_of(DEAR_USES).ok_or("no table")?;
    assert!(rt; charges_all(&image, &dear, &[5, 10, 11, 12, 17, 18]));
    Ok(())
}

/// Words, what is in %o2 then, whether its flags are free, and the cycles, where %o0 is ffffffff and %o1 80000003.
const PRODUCTS: [(u32, u32, bool, u64); 8] = [
    (0x9452_0009, 0x7fff_fffd, false, 5),
    (0x945a_0009, 0x7fff_fffd, false, 5),
    (0x94d2_0009, 0x7fff_fffd, true, 5),
    (0x94da_2003, 0xffff_fffd, true, 5),
    (0x9472_0009, 0x8005, false, 6),
    (0x947a_0009, 0x8005, false, 6),
    (0x94f2_0009, 0x8005, true, 6),
    (0x94fa_2003, 0x8005, true, 6),
];

/// The machine before a product or a quotient.
fn before_product() -> Machine {
    let mut m = entry();
    m.regs[physical(3, 8)] = 0xffff_ffff;
    m.regs[physical(3, 9)] = 0x8000_0003;
    m
}

/// Whether a step over a product or a quotient is refused by a table, and leaves the machine as it was.
fn has_none(image: &Image, old: &Cycles) -> bool {
    let mut m = before_product();
    let found = Free { flags: 9, ..FOUND };
    step_of(&mut m, image, old, found) == Some(Err(Trap::Unmodelled)) && m == before_product()
}

/// Whether a step over a product or a quotient leaves this in %o2, with its flags free or all down.
fn has_one(image: &Image, new: &Cycles, found_then: u32, free: bool, spent: u64) -> bool {
    let mut m = before_product();
    let found = Free { flags: 9, ..FOUND };
    step_of(&mut m, image, new, found) == Some(Ok(()))
        && content(&m, 10) == found_then
        && (m.n, m.z, m.v, m.c) == (free, false, false, free)
        && m.cycles == spent
        && m.pc == 0x0200_0004
}

/// Products and quotients, which only a table of version 2 has steps for.
#[test]
fn multiplies_and_divides(rt: HostRuntime) -> Result<(), Fail> {
    let old = cycles_of(ONES).ok_or("no table")?;
    let new = cycles_of(DEAR_USES).ok_or("no table")?;
    for (word, found_then, free, spent) in &PRODUCTS {
        let image = image_of(rt.alloc(), &[*word])?.ok_or("no image")?;
        let well = has_none(&image, &old) && has_one(&image, &new, *found_then, *free, *spent);
        assert!(rt; well, "at {word:08x}");
    }
    Ok(())
}

/// A table of version 2 in which every class costs one cycle, uses behind a load too.
fn cheap_table(alloc: Global) -> Result<String, Fail> {
    let dear = String::from_utf8(Vec::from_slice(alloc, DEAR_USES)?).ok();
    Ok(
        dear.ok_or("no text")?
            .replace(alloc, "loaduse 4", "loaduse 1")?,
    )
}

/// Whether the leaf of two words costs so many cycles by a table.
fn leaf_costs(image: &Image, table: &[u8], bound: u64) -> bool {
    match cycles_of(table) {
        Some(cycles) => straight_from(image, &cycles, 0x0200_0000)
            == Some(Straight {
                count: 2,
                cycles: bound,
            }),
        None => false,
    }
}

/// The leaf of two words, by three tables: its start counts as a load of every register, and the return reads one.
#[test]
fn bounds_the_first_leaf(rt: HostRuntime) -> Result<(), Fail> {
    let image = image_of(rt.alloc(), &LEAF)?.ok_or("no image")?;
    let cheap = cheap_table(rt.alloc())?;
    assert!(rt; leaf_costs(&image, ONES, 2));
    assert!(rt; leaf_costs(&image, cheap.as_bytes(), 3));
    assert!(rt; leaf_costs(&image, DEAR_USES, 6));
    Ok(())
}
