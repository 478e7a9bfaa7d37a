//! Files at each limit, and one past it.
use crate::calls::{BOUNDED, COMMANDS, Files, SOUND, call, files_of, is_whole, leaf};
use crate::images::{Made, executable};
use bt_base::hex8_text;
use std::alloc::Global;
use std::test::Fail;

/// What there is a limit of.
#[derive(Clone, Copy, PartialEq, Eq)]
enum Limited {
    /// The bytes of the image.
    Image,
    /// The bytes of the table.
    Table,
    /// The bytes of the assertions.
    Assertions,
    Sections,
    Symbols,
    Functions,
    Statements,
}

/// What is limited, its limit, and the message of a call that is over it by one.
#[rattlefmt::skip]
const LIMITS: [(Limited, u32, &str); 7] = [
    (Limited::Image, 16_777_216, "boundt: 9 TooLong file 1 limit 16777216"),
    (Limited::Table, 1_048_576, "boundt: 9 TooLong file 2 limit 1048576"),
    (Limited::Assertions, 1_048_576, "boundt: 9 TooLong file 3 limit 1048576"),
    (Limited::Sections, 1024, "boundt: 3 Limit what Sections count 1025"),
    (Limited::Symbols, 262_144, "boundt: 3 Limit what Symbols count 262145"),
    (Limited::Functions, 16_384, "boundt: 3 Limit what Functions count 16385"),
    (Limited::Statements, 4096, "boundt: 5 Limit count 4097"),
];

/// The leaf's code with words behind it that stand still, so many in all.
fn code_of(alloc: Global, count: u32) -> Result<Vec<u32>, Fail> {
    let mut code = Vec::from_slice(alloc, &[0x81c3_e008])?;
    for _ in 1..count {
        code.push(0x0100_0000)?;
    }
    Ok(code)
}

/// The files of an image with so many words of code, functions, further symbols and further sections.
fn files_with(
    alloc: Global,
    words: u32,
    functions: u32,
    (symbols, sections): (u32, u32),
) -> Result<Files, Fail> {
    let made = Made {
        code: code_of(alloc, words)?,
        functions,
        stride: 1,
        symbols,
        sections,
    };
    files_of(alloc, executable(alloc, &made)?)
}

/// So many statements: a root, and words behind the leaf that are never reached.
fn statements(alloc: Global, count: u32) -> Result<Vec<u8>, Fail> {
    let mut text = Vec::from_slice(alloc, b"root f\n")?;
    let mut place = 0x0200_0008u32;
    for _ in 1..count {
        let digits = hex8_text(alloc, place)?;
        let line = format!(in alloc; "never 0x{digits}\n")?;
        text.extend_from_slice(line.as_bytes())?;
        place = place.wrapping_add(4);
    }
    Ok(text)
}

/// Appends a byte until there are so many.
fn fill(alloc: Global, file: &mut Vec<u8>, byte: u8, count: u32) -> Result<(), Fail> {
    let further = (count as usize).saturating_sub(file.len());
    file.extend_from_slice(&vec![in alloc; byte; further]?)?;
    Ok(())
}

/// The files that have so many of what is limited.
fn files_at(alloc: Global, limited: Limited, count: u32) -> Result<Files, Fail> {
    let mut files = match limited {
        Limited::Sections => files_with(alloc, 2, 1, (0, count.saturating_sub(4)))?,
        Limited::Symbols => files_with(alloc, 2, 1, (count.saturating_sub(2), 0))?,
        Limited::Functions => files_with(alloc, count, count, (0, 0))?,
        Limited::Statements => files_with(alloc, count.saturating_add(1), 1, (0, 0))?,
        _ => leaf(alloc)?,
    };
    match limited {
        Limited::Image => fill(alloc, &mut files.image, 0, count)?,
        Limited::Table => fill(alloc, &mut files.table, b'#', count)?,
        Limited::Assertions => fill(alloc, &mut files.assertions, b'#', count)?,
        Limited::Statements => files.assertions = statements(alloc, count)?,
        _ => {}
    }
    Ok(files)
}

/// Whether a command reads what is limited.
fn is_read(words: &str, limited: Limited) -> bool {
    let others = limited == Limited::Table
        || limited == Limited::Assertions
        || limited == Limited::Statements;
    !others || !words.starts_with("decode")
}

/// Whether a command takes what is at its limit, and writes a whole text.
fn is_taken(alloc: Global, words: &str, limited: Limited, limit: u32) -> Result<bool, Fail> {
    let said = call(alloc, words, files_at(alloc, limited, limit)?, SOUND)?;
    Ok(said.message.as_str() == BOUNDED && is_whole(&said) && !said.text.is_empty())
}

/// Whether a command refuses what is over its limit by one, where it reads it, and writes nothing.
fn is_refused(
    alloc: Global,
    words: &str,
    limited: Limited,
    (limit, message): (u32, &str),
) -> Result<bool, Fail> {
    let count = limit.saturating_add(1);
    let said = call(alloc, words, files_at(alloc, limited, count)?, SOUND)?;
    Ok(said.message.as_str() == message && said.text.is_empty())
}

#[test]
fn limits(rt: HostRuntime) -> Result<(), Fail> {
    for (limited, limit, message) in &LIMITS {
        for words in &COMMANDS {
            if is_read(words, *limited) {
                assert!(rt;
                    is_taken(rt.alloc(), words, *limited, *limit)?,
                    "{words} at {limit}"
                );
                assert!(rt;
                    is_refused(rt.alloc(), words, *limited, (*limit, message))?,
                    "{words} past {limit}"
                );
            }
        }
    }
    Ok(())
}
