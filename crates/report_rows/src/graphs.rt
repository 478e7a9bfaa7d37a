//! Texts of graphs in full.
ghost use Rattle.std.specs.List.Sorted.{IsStrictlyIncreasing};

use crate::images::image_of;
use crate::outcomes::at;
use abs_state::{GapKind, Key, Next, Place};
use bt_base::Want;
use bt_image::Image;
use flow_system::Facts;
use graph_text::graph_text;
use std::alloc::Global;
use std::test::Fail;

/// Facts that say nothing, at these keys.
fn facts_of(alloc: Global, keys: &[Key]) -> Result<Facts<Key, u8>, Want> {
    let mut facts = Facts::empty(alloc);
    for key in keys {
        facts.put(*key, 0)?;
    }
    Ok(facts)
}

/// The text of keys in any order, where these subprograms return.
fn text_of(alloc: Global, keys: &[Key], returning: &[u32], image: &Image) -> Result<Vec<u8>, Want>
    requires { IsStrictlyIncreasing returning.now }
{
    let facts = facts_of(alloc, keys)?;
    let keys = facts.keys(alloc)?;
    graph_text(alloc, &keys, returning, image)
}

/// A leaf of two words.
#[test]
fn leaf(rt: HostRuntime) -> Result<(), Fail> {
    let first = at(0x02000000, 0x02000000, 0);
    let last = Place {
        sub: 0x02000000,
        pc: 0x02000004,
        next: Next::Back,
        depth: 0,
    };
    let keys = [
        Key::Summary { sub: 0x02000000 },
        Key::Edge {
            from: first,
            to: last,
        },
        Key::Node(last),
        Key::Node(first),
    ];
    let image = image_of(&rt, &[(0x02000000, b"f")])?;
    let text = text_of(rt.alloc(), &keys, &[0x02000000], &image)?;
    let want = "boundt graph 1\n\
        sub 02000000 f returns\n\
        node 02000000/0\n\
        node 02000004>back/0\n\
        edge 02000000/0 02000004>back/0\n\
        end\n";
    assert_eq!(rt; text.as_slice(), want.as_bytes());
    Ok(())
}

/// Two subprograms with each kind of key, and a stub that has no lines.
#[test]
fn calls(rt: HostRuntime) -> Result<(), Fail> {
    let f = 0x02000000;
    let g = 0x02000014;
    let save = at(f, 0x02000000, 0);
    let call = at(f, 0x02000004, 1);
    let delay = Place {
        sub: f,
        pc: 0x02000008,
        next: Next::Into(g),
        depth: 1,
    };
    let jump = Place {
        sub: f,
        pc: 0x0200000c,
        next: Next::At(f),
        depth: 1,
    };
    let other = at(g, g, 0);
    let keys = [
        Key::Gap {
            sub: g,
            pc: g,
            why: GapKind::Call,
        },
        Key::Gap {
            sub: f,
            pc: 0x02000010,
            why: GapKind::Instr,
        },
        Key::Gap {
            sub: f,
            pc: 0x0200000c,
            why: GapKind::Jump,
        },
        Key::Summary { sub: g },
        Key::Summary { sub: 0x02000020 },
        Key::Call {
            from: delay,
            callee: g,
        },
        Key::Edge {
            from: delay,
            to: jump,
        },
        Key::Edge {
            from: call,
            to: delay,
        },
        Key::Edge {
            from: save,
            to: call,
        },
        Key::Node(other),
        Key::Node(jump),
        Key::Node(delay),
        Key::Node(call),
        Key::Node(save),
    ];
    let image = image_of(&rt, &[(0x02000000, b"f"), (0x02000020, b".umul")])?;
    let text = text_of(rt.alloc(), &keys, &[0x02000014, 0x02000020], &image)?;
    let want = "boundt graph 1\n\
        sub 02000000 f stays\n\
        node 02000000/0\n\
        node 02000004/1\n\
        node 02000008>into:02000014/1\n\
        node 0200000c>02000000/1\n\
        edge 02000000/0 02000004/1\n\
        edge 02000004/1 02000008>into:02000014/1\n\
        edge 02000008>into:02000014/1 0200000c>02000000/1\n\
        call 02000008>into:02000014/1 02000014\n\
        gap jump 0200000c\n\
        gap instr 02000010\n\
        sub 02000014 - returns\n\
        node 02000014/0\n\
        gap call 02000014\n\
        end\n";
    assert_eq!(rt; text.as_slice(), want.as_bytes());
    Ok(())
}
