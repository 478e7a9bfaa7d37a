//! States: what is written and what is forgotten.
use abs_state::*;
use call_effects::Mask;
use std::alloc::Global;
use std::test::Fail;
use value_lattice::Value;

/// What a test compares of a value: its one word, the return address, or any other.
#[derive(Clone, Copy, Debug, PartialEq)]
enum Seen {
    One(u32),
    Ret,
    Other,
}

/// What a test compares of a cell.
fn cell_of(s: &AbsState, c: u8) -> Seen {
    if c >= 48 {
        return Seen::Other;
    }
    match s.get(c) {
        Value::Words(words) => match words.members() {
            [only] => Seen::One(*only),
            _ => Seen::Other,
        },
        Value::Range { .. } => Seen::Other,
        Value::Ret => Seen::Ret,
    }
}

/// The flags of a comparison with a word.
fn compared(cell: u8, word: u32) -> Flags {
    Flags::Cmp {
        left: cell,
        right: Right::Word(word),
    }
}

#[test]
fn entry_of_a_subprogram(rt: HostRuntime) -> Result<(), Fail> {
    let s = AbsState::entry(rt.alloc())?;
    for (c, seen) in [
        (0, Seen::One(0)),
        (1, Seen::Other),
        (8, Seen::Other),
        (14, Seen::Other),
        (15, Seen::Ret),
        (16, Seen::Other),
        (31, Seen::Other),
        (47, Seen::Other),
    ] {
        assert_eq!(rt; cell_of(&s, c), seen, "at {c}");
    }
    assert_eq!(rt; s.flags(), Flags::Unknown);
    Ok(())
}

#[test]
fn writes(rt: HostRuntime) -> Result<(), Fail> {
    let alloc = rt.alloc();
    let pair = Flags::Cmp {
        left: 8,
        right: Right::Cell(9),
    };
    for (flags, cell, seen, after) in [
        (compared(8, 5), 8, Seen::One(7), Flags::Unknown),
        (compared(8, 5), 9, Seen::One(7), compared(8, 5)),
        (pair, 9, Seen::One(7), Flags::Unknown),
        (pair, 8, Seen::One(7), Flags::Unknown),
        (pair, 10, Seen::One(7), pair),
        (Flags::Res { cell: 40 }, 40, Seen::One(7), Flags::Unknown),
        (compared(0, 0), 1, Seen::One(7), compared(0, 0)),
        (compared(0, 0), 0, Seen::One(0), Flags::Unknown),
    ] {
        let mut s = AbsState::entry(alloc)?;
        assert!(rt; s.may_speak(flags));
        s.set_flags(flags);
        assert!(rt; cell < 48);
        s.set(cell, Value::word(7)?);
        assert_eq!(rt; cell_of(&s, cell), seen, "at {cell}");
        assert_eq!(rt; s.flags(), after, "at {cell}");
    }
    Ok(())
}

#[test]
fn flags_speak_of_no_return_address(rt: HostRuntime) -> Result<(), Fail> {
    let s = AbsState::entry(rt.alloc())?;
    for (flags, may) in [
        (Flags::Unknown, true),
        (compared(15, 8), false),
        (compared(8, 4294967295), true),
        (Flags::Res { cell: 15 }, false),
        (Flags::Res { cell: 48 }, false),
    ] {
        assert_eq!(rt; s.may_speak(flags), may, "at {flags:?}");
    }
    Ok(())
}

/// A state at whose entry these cells are any word.
fn without(alloc: Global, mask: Mask) -> Result<AbsState, Fail> {
    let mut s = AbsState::entry(alloc)?;
    s.set(16, Value::word(9)?);
    s.forget(mask);
    Ok(s)
}

#[test]
fn forgotten_cells(rt: HostRuntime) -> Result<(), Fail> {
    let alloc = rt.alloc();
    let none = without(alloc, Mask::none())?;
    assert_eq!(rt; cell_of(&none, 16), Seen::One(9));
    assert_eq!(rt; cell_of(&none, 15), Seen::Ret);
    let link = without(alloc, Mask::none().with(15))?;
    assert_eq!(rt; cell_of(&link, 15), Seen::Other);
    assert_eq!(rt; cell_of(&link, 16), Seen::One(9));
    assert_eq!(rt; cell_of(&link, 0), Seen::One(0));
    Ok(())
}
