//! Executables that are cut, and executables of which one word is damaged.
use crate::calls::{
    Answer, BOUNDED, COMMANDS, SOUND, UNBOUNDED, call, files_of, is_whole, leaf, module, says,
};
use crate::images::{LEAF, MODULE, bytes_of};
use std::alloc::Global;
use std::test::Fail;

/// Whether the leaf, cut to fewer bytes than it has, is refused for the bytes that are missing.
fn is_cut(alloc: Global, words: &str, size: usize) -> Result<bool, Fail> {
    let mut files = leaf(alloc)?;
    files.image.truncate(size);
    let need = if size < 52 { 52 } else { 256 };
    let message = format!(in alloc; "boundt: 3 Short need {need} have {size}")?;
    says(alloc, words, files, message.as_str(), b"")
}

/// The number of a word of the leaf, and what `bound` says where it is 0, where all its bits are 1, and where each bit is
/// the other one. Of words that don't stand here it says that all is bounded.
#[rattlefmt::skip]
const DAMAGED: [(usize, [&str; 3]); 26] = [
    // The header: its first four bytes, class and order, kind and machine, the place of the sections' headers, their size
    // and their number.
    (0, ["boundt: 3 Magic", "boundt: 3 Magic", "boundt: 3 Magic"]),
    (1, ["boundt: 3 Class got 0", "boundt: 3 Class got 255", "boundt: 3 Class got 254"]),
    (4, ["boundt: 3 Kind got 0", "boundt: 3 Kind got 65535", "boundt: 3 Kind got 65533"]),
    (8, ["boundt: 5 NoName line 1", "boundt: 3 Short need 4294967455 have 256", "boundt: 3 Short need 4294967359 have 256"]),
    (11, ["boundt: 3 HeaderSize got 0", "boundt: 3 HeaderSize got 65535", "boundt: 3 HeaderSize got 65495"]),
    (12, [
        "boundt: 5 NoName line 1", "boundt: 3 Limit what Sections count 65535", "boundt: 3 Limit what Sections count 65531",
    ]),
    // The code.
    (13, [UNBOUNDED, UNBOUNDED, BOUNDED]),
    (14, [UNBOUNDED, UNBOUNDED, UNBOUNDED]),
    // The symbol of the function: its name, its value, its kind and section; and the names.
    (19, ["boundt: 5 NoName line 1", "boundt: 3 SymbolTable n 2", "boundt: 3 SymbolTable n 2"]),
    (20, ["boundt: 5 NoName line 1", "boundt: 5 NoName line 1", "boundt: 5 NoName line 1"]),
    (22, ["boundt: 5 NoName line 1", "boundt: 5 NoName line 1", "boundt: 5 NoName line 1"]),
    (23, ["boundt: 5 NoName line 1", "boundt: 3 SymbolTable n 2", "boundt: 3 SymbolTable n 2"]),
    // The section of code: its flags, its address, its place and its size.
    (36, ["boundt: 5 NoName line 1", "boundt: 3 Compressed n 1", "boundt: 5 NoName line 1"]),
    (37, ["boundt: 5 NoName line 1", "boundt: 3 SectionOutside n 1", "boundt: 3 Alignment n 1"]),
    (38, [BOUNDED, "boundt: 3 SectionOutside n 1", "boundt: 3 SectionOutside n 1"]),
    (39, ["boundt: 5 NoName line 1", "boundt: 3 SectionOutside n 1", "boundt: 3 SectionOutside n 1"]),
    // The section of symbols: its kind, its flags, its place, its size, the section of their names, the size of one.
    (45, ["boundt: 5 NoName line 1", "boundt: 5 NoName line 1", "boundt: 5 NoName line 1"]),
    (46, [BOUNDED, "boundt: 3 Compressed n 2", "boundt: 3 Compressed n 2"]),
    (48, ["boundt: 5 NoName line 1", "boundt: 3 SectionOutside n 2", "boundt: 3 SectionOutside n 2"]),
    (49, ["boundt: 5 NoName line 1", "boundt: 3 SectionOutside n 2", "boundt: 3 SectionOutside n 2"]),
    (50, ["boundt: 3 SymbolTable n 2", "boundt: 3 SymbolTable n 2", "boundt: 3 SymbolTable n 2"]),
    (53, ["boundt: 3 SymbolTable n 2", "boundt: 3 SymbolTable n 2", "boundt: 3 SymbolTable n 2"]),
    // The section of their names: its kind, its flags, its place and its size.
    (55, ["boundt: 3 SymbolTable n 2", "boundt: 3 SymbolTable n 2", "boundt: 3 SymbolTable n 2"]),
    (56, [BOUNDED, "boundt: 3 Compressed n 3", "boundt: 3 Compressed n 3"]),
    (58, ["boundt: 3 SymbolTable n 2", "boundt: 3 SectionOutside n 3", "boundt: 3 SectionOutside n 3"]),
    (59, ["boundt: 3 SymbolTable n 2", "boundt: 3 SectionOutside n 3", "boundt: 3 SectionOutside n 3"]),
];

/// What `bound` says of the leaf with this damaged word.
fn messages_of(word: usize) -> [&'static str; 3] {
    for (place, messages) in &DAMAGED {
        if *place == word {
            return *messages;
        }
    }
    [BOUNDED; 3]
}

/// What a command says where `bound` says this: only `bound` tells that a root has no bound, and `decode` reads the image
/// alone.
fn message_by<'a>(words: &str, message: &'a str) -> &'a str {
    let listed = words.starts_with("decode") && !message.starts_with("boundt: 3");
    if listed || (words.starts_with("graph") && message == UNBOUNDED) {
        return BOUNDED;
    }
    message
}

/// A word as 0, with all bits 1, and with each bit the other one.
fn damages_of(word: u32) -> [u32; 3] {
    [0, u32::MAX, !word]
}

/// What a command says of the leaf of which one word is another one.
fn answer_to_leaf(alloc: Global, words: &str, place: usize, word: u32) -> Result<Answer, Fail> {
    let mut image = LEAF;
    if let Some(there) = image.get_mut(place) {
        *there = word;
    }
    call(
        alloc,
        words,
        files_of(alloc, bytes_of(alloc, &image)?)?,
        SOUND,
    )
}

/// Whether a command says this of the leaf of which one word is another one, and writes all or nothing.
fn is_told(
    alloc: Global,
    words: &str,
    (place, word): (usize, u32),
    message: &str,
) -> Result<bool, Fail> {
    let said = answer_to_leaf(alloc, words, place, word)?;
    Ok(said.message.as_str() == message_by(words, message) && is_whole(&said))
}

/// Whether the module of which one word is another one gets a status that damage can get, and all or nothing is written.
fn is_named(alloc: Global, words: &str, (place, word): (usize, u32)) -> Result<bool, Fail> {
    let mut image = MODULE;
    if let Some(there) = image.get_mut(place) {
        *there = word;
    }
    let mut files = module(alloc)?;
    files.image = bytes_of(alloc, &image)?;
    let said = call(alloc, words, files, SOUND)?;
    let message = said.message.as_str();
    let named = message == BOUNDED
        || message == UNBOUNDED
        || message.starts_with("boundt: 3 ")
        || message.starts_with("boundt: 5 ");
    Ok(named && is_whole(&said))
}

#[test]
fn cut_executables(rt: HostRuntime) -> Result<(), Fail> {
    for words in &COMMANDS {
        for size in 0..256usize {
            assert!(rt; is_cut(rt.alloc(), words, size)?, "{words} at {size}");
        }
    }
    Ok(())
}

#[test]
fn damaged_words(rt: HostRuntime) -> Result<(), Fail> {
    for words in &COMMANDS {
        for (place, word) in LEAF.iter().enumerate() {
            for (damage, message) in damages_of(*word).iter().zip(messages_of(place).iter()) {
                assert!(rt;
                    is_told(rt.alloc(), words, (place, *damage), message)?,
                    "{words} of word {place} as {damage}"
                );
            }
        }
    }
    Ok(())
}

#[test]
fn damaged_module(rt: HostRuntime) -> Result<(), Fail> {
    for (place, word) in MODULE.iter().enumerate() {
        for (words, damage) in COMMANDS.iter().zip(damages_of(*word).iter()) {
            assert!(rt;
                is_named(rt.alloc(), words, (place, *damage))?,
                "{words} of word {place} as {damage}"
            );
        }
    }
    Ok(())
}
