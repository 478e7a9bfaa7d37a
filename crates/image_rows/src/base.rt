//! Files and sinks, numbers in bytes and in text, numbers in order, and graphs.
use bt_base::{
    Failed, FileShelf, Graph, MemoryShelf, MemorySink, NoFetch, OutSink, ReadRefusal, Shelf, Sink,
    Unwritten, Want, be16, be32, has, hex8, hex8_text, put_decimal, put_in_order, put_signed,
    read_all, write_all,
};
use std::alloc::{AllocError, Global};
use std::test::Fail;
use std::{env, fs, process};

/// Five bytes.
const BYTES: [u8; 5] = [0xde, 0xad, 0xbe, 0xef, 0x01];

/// Places in the bytes, and the four bytes there as a number.
const WORDS: [(usize, Option<u32>); 6] = [
    (0, Some(0xdead_beef)),
    (1, Some(0xadbe_ef01)),
    (2, None),
    (5, None),
    (6, None),
    (usize::MAX, None),
];

/// Places in the bytes, and the two bytes there as a number.
const HALVES: [(usize, Option<u16>); 5] = [
    (0, Some(0xdead)),
    (3, Some(0xef01)),
    (4, None),
    (5, None),
    (usize::MAX, None),
];

/// Numbers with their eight digits.
const DIGITS: [(u32, &str); 5] = [
    (0, "00000000"),
    (0x0123_4567, "01234567"),
    (0x89ab_cdef, "89abcdef"),
    (0x0200_0004, "02000004"),
    (u32::MAX, "ffffffff"),
];

/// Whether a number has these eight digits.
fn has_digits(alloc: Global, v: u32, want: &str) -> Result<bool, Want> {
    let text = hex8_text(alloc, v)?;
    Ok(hex8(v).as_slice() == want.as_bytes() && text.as_str() == want)
}

/// Numbers without a sign, each with a blank behind it.
fn decimals(alloc: Global) -> Result<Vec<u8>, Want> {
    let mut out = Vec::new(alloc);
    for v in &[0, 9, 10, 4096, u64::MAX] {
        put_decimal(&mut out, *v)?;
        out.push(b' ')?;
    }
    Ok(out)
}

/// Numbers with a sign, each with a blank behind it.
fn signed(alloc: Global) -> Result<Vec<u8>, Want> {
    let mut out = Vec::new(alloc);
    for v in &[0, -1, 10, i64::MAX, i64::MIN] {
        put_signed(&mut out, *v)?;
        out.push(b' ')?;
    }
    Ok(out)
}

#[test]
fn numbers_in_bytes(rt: HostRuntime) {
    for (at, want) in &WORDS {
        assert!(rt; be32(&BYTES, *at) == *want, "at {at}");
    }
    for (at, want) in &HALVES {
        assert!(rt; be16(&BYTES, *at) == *want, "at {at}");
    }
}

#[test]
fn numbers_in_text(rt: HostRuntime) -> Result<(), Fail> {
    for (v, want) in &DIGITS {
        assert!(rt; has_digits(rt.alloc(), *v, want)?, "of {v}");
    }
    let whole = decimals(rt.alloc())?;
    assert!(rt; whole.as_slice() == b"0 9 10 4096 18446744073709551615 ".as_slice());
    let both = signed(rt.alloc())?;
    assert!(rt; both.as_slice() == b"0 -1 10 9223372036854775807 -9223372036854775808 ".as_slice());
    Ok(())
}

/// Numbers, and the same in order.
const ORDERS: [(&[u32], &[u32]); 3] = [
    (&[], &[]),
    (&[7, 3, 7, u32::MAX, 0], &[0, 3, 7, u32::MAX]),
    (&[2, 2, 2], &[2]),
];

/// Whether numbers are put in this order, and found in it where they are in it.
fn come_in_order(alloc: Global, numbers: &[u32], order: &[u32]) -> Result<bool, AllocError> {
    let mut list = Vec::from_slice(alloc, numbers)?;
    put_in_order(&mut list);
    for number in &[0, 1, 2, 3, 4, 7, u32::MAX] {
        if has(&list, *number) != order.contains(number) {
            return Ok(false);
        }
    }
    Ok(list.as_slice() == order)
}

#[test]
fn numbers_in_order(rt: HostRuntime) -> Result<(), Fail> {
    for (numbers, order) in &ORDERS {
        assert!(rt; come_in_order(rt.alloc(), numbers, order)?, "{order:?}");
    }
    Ok(())
}

/// Edges of a graph of four nodes; some stand twice.
const EDGES: [(u32, u32); 7] = [(0, 2), (0, 1), (3, 3), (0, 2), (0, 3), (2, 0), (0, 1)];

/// A graph of so many nodes with the edges that are within it.
fn graph_of(alloc: Global, count: u32, edges: &[(u32, u32)]) -> Result<Graph, Want> {
    let mut graph = Graph::new(alloc, count)?;
    for (from, to) in edges {
        if *from < graph.count() && *to < graph.count() {
            graph.add(*from, *to)?;
        }
    }
    Ok(graph)
}

/// Whether a node leads to these.
fn leads_to(graph: &Graph, node: u32, want: &[u32]) -> bool {
    node < graph.count() && graph.next(node) == want
}

#[test]
fn graphs(rt: HostRuntime) -> Result<(), Fail> {
    let graph = graph_of(rt.alloc(), 4, &EDGES)?;
    let lead = leads_to(&graph, 0, &[1, 2, 3])
        && leads_to(&graph, 1, &[])
        && leads_to(&graph, 2, &[0])
        && leads_to(&graph, 3, &[3]);
    assert!(rt; lead && graph.count() == 4);
    assert!(rt; Graph::new(rt.alloc(), 0)?.count() == 0);
    Ok(())
}

fn file(alloc: Global, name: &str, bytes: &[u8]) -> Result<(String, Vec<u8>), AllocError> {
    Ok((
        String::from_str(alloc, name)?,
        Vec::from_slice(alloc, bytes)?,
    ))
}

/// A shelf with two files of one name and an empty file.
fn small_shelf(alloc: Global, fail: &[u64]) -> Result<MemoryShelf, Want> {
    let files = vec![in alloc;
        file(alloc, "a", &[1, 2, 3])?,
        file(alloc, "a", &[9])?,
        file(alloc, "b", &[])?,
    ]?;
    MemoryShelf::new(alloc, files, Vec::from_slice(alloc, fail)?)
}

/// A shelf with one file that is longer than what is read at a time.
fn large_shelf(alloc: Global, fail: &[u64]) -> Result<MemoryShelf, Want> {
    let mut bytes = vec![in alloc; 5; 65536]?;
    bytes.extend_from_slice(&[1, 2, 3, 4])?;
    let files = vec![in alloc; (String::from_str(alloc, "large")?, bytes)]?;
    MemoryShelf::new(alloc, files, Vec::from_slice(alloc, fail)?)
}

/// What a fetch answers, and four bytes of which it gets the first ones.
type Fetched = (Result<usize, NoFetch>, [u8; 4]);

/// Fetches: their name, their place, the room of at most four bytes, and what comes of them.
const FETCHES: [(&str, u64, usize, Fetched); 10] = [
    ("a", 0, 2, (Ok(2), [1, 2, 0, 0])),
    ("a", 1, 0, (Ok(0), [0, 0, 0, 0])),
    ("c", 0, 0, (Ok(0), [0, 0, 0, 0])),
    ("a", 2, 4, (Ok(1), [3, 0, 0, 0])),
    ("a", 0, 4, (Err(NoFetch::Failed), [0, 0, 0, 0])),
    ("a", 0, 4, (Ok(3), [1, 2, 3, 0])),
    ("a", 3, 4, (Ok(0), [0, 0, 0, 0])),
    ("a", u64::MAX, 4, (Ok(0), [0, 0, 0, 0])),
    ("c", 0, 4, (Err(NoFetch::Failed), [0, 0, 0, 0])),
    ("b", 0, 4, (Ok(0), [0, 0, 0, 0])),
];

/// What comes of a fetch.
fn fetched(shelf: &mut MemoryShelf, name: &str, at: u64, room: usize) -> Fetched {
    let mut into = [0; 4];
    let got = shelf.fetch(name, at, &mut into[..room.min(4)]);
    (got, into)
}

#[test]
fn fetches_in_memory(rt: HostRuntime) -> Result<(), Fail> {
    let mut shelf = small_shelf(rt.alloc(), &[2])?;
    for (name, at, room, want) in &FETCHES {
        assert!(rt;
            fetched(&mut shelf, name, *at, *room) == *want,
            "{name} at {at}"
        );
    }
    Ok(())
}

/// Whether the small files are read whole.
fn reads_small(alloc: Global) -> Result<bool, Fail> {
    let mut small = small_shelf(alloc, &[])?;
    let bytes = read_all(alloc, &mut small, "a", 3)?;
    let empty = read_all(alloc, &mut small, "b", 0)?;
    Ok(bytes.as_slice() == [1, 2, 3].as_slice() && empty.is_empty())
}

/// Whether a file that is longer than what is read at a time is read whole.
fn reads_large(alloc: Global) -> Result<bool, Fail> {
    let mut large = large_shelf(alloc, &[])?;
    let bytes = read_all(alloc, &mut large, "large", 65540)?;
    Ok(bytes.len() == 65540 && bytes.get(65535..) == Some([5, 1, 2, 3, 4].as_slice()))
}

#[test]
fn whole_files(rt: HostRuntime) -> Result<(), Fail> {
    assert!(rt; reads_small(rt.alloc())? && reads_large(rt.alloc())?);
    Ok(())
}

/// What a reading refuses, or its length.
fn refusal(
    alloc: Global,
    shelf: &mut MemoryShelf,
    name: &str,
    limit: u64,
) -> Result<usize, ReadRefusal> {
    Ok(read_all(alloc, shelf, name, limit)?.len())
}

/// Files of the small shelf, limits, and the length that is read or what is refused.
const SMALL: [(&str, u64, Result<usize, ReadRefusal>); 4] = [
    ("a", 2, Err(ReadRefusal::TooLong { limit: 2 })),
    ("a", 0, Err(ReadRefusal::TooLong { limit: 0 })),
    ("a", u64::MAX, Ok(3)),
    ("c", 3, Err(ReadRefusal::Fault)),
];

/// The fetch of the large file that fails, limits, and the length that is read or what is refused.
const LARGE: [(u64, u64, Result<usize, ReadRefusal>); 5] = [
    (1, 65540, Err(ReadRefusal::Fault)),
    (2, 65540, Err(ReadRefusal::Fault)),
    (3, 65540, Ok(65540)),
    (3, 65539, Err(ReadRefusal::TooLong { limit: 65539 })),
    (1, 65535, Err(ReadRefusal::TooLong { limit: 65535 })),
];

#[test]
fn refused_files(rt: HostRuntime) -> Result<(), Fail> {
    let alloc = rt.alloc();
    for (name, limit, want) in &SMALL {
        let mut shelf = small_shelf(alloc, &[])?;
        let got = refusal(alloc, &mut shelf, name, *limit);
        assert!(rt; got == *want, "{name} up to {limit}");
    }
    for (fail, limit, want) in &LARGE {
        let mut shelf = large_shelf(alloc, &[*fail])?;
        let got = refusal(alloc, &mut shelf, "large", *limit);
        assert!(rt; got == *want, "{fail} up to {limit}");
    }
    Ok(())
}

/// Thirty-two bytes.
const TEXT: &[u8] = b"0123456789abcdef0123456789abcdef";

/// The room of a sink, the call that fails, and the bytes that are written and whether all are.
const WRITES: [(usize, u64, Result<(), Unwritten>); 4] = [
    (32, 9, Ok(())),
    (64, 1, Err(Unwritten { written: 16 })),
    (64, 0, Err(Unwritten { written: 0 })),
    (20, 9, Err(Unwritten { written: 20 })),
];

/// Whether a sink takes no bytes, and of the text what it has to.
fn takes(sink: &mut MemorySink, want: Result<(), Unwritten>) -> bool {
    let written = match want {
        Ok(()) => 32,
        Err(short) => short.written as usize,
    };
    sink.put(&[]) == Ok(0)
        && write_all(sink, TEXT) == want
        && Some(sink.bytes()) == TEXT.get(..written)
}

#[test]
fn writes_in_memory(rt: HostRuntime) -> Result<(), Fail> {
    let alloc = rt.alloc();
    for (room, fail, want) in &WRITES {
        let mut sink = MemorySink::new(alloc, *room, 16, Vec::from_slice(alloc, &[*fail])?)?;
        assert!(rt; takes(&mut sink, *want), "{fail} within {room}");
    }
    Ok(())
}

#[test]
fn files_of_the_system(rt: HostRuntime) -> Result<(), Fail> {
    let alloc = rt.alloc();
    let folder = env::temp_dir(&rt)?;
    let number = process::id(rt.process());
    let name = format!(in alloc; "{}/bt_base-{number}", folder.as_path().as_str())?;
    fs::write(&rt, name.as_str(), "five!")?;
    let mut shelf = FileShelf::new(rt);
    let whole = read_all(alloc, &mut shelf, name.as_str(), 5);
    let mut into = [0; 4];
    let rest = shelf.fetch(name.as_str(), 3, &mut into);
    fs::remove_file(&rt, name.as_str())?;
    assert_eq!(rt; whole?.as_slice(), b"five!".as_slice());
    assert_eq!(rt; rest, Ok(2));
    assert_eq!(rt; into, *b"e!\0\0");
    assert_eq!(rt;
        shelf.fetch(name.as_str(), 0, &mut into),
        Err(NoFetch::Failed)
    );
    assert_eq!(rt; shelf.fetch(name.as_str(), 0, &mut []), Ok(0));
    Ok(())
}

#[test]
fn standard_output(rt: HostRuntime) {
    let mut sink = OutSink::new(rt);
    assert_eq!(rt; sink.put(b""), Ok::<usize, Failed>(0));
    assert_eq!(rt; sink.put(b"written\n"), Ok(8));
}
