//! The code sections with at least one word, and the next code address.
ghost use Rattle.std.specs.Prelude.{◌≡◌, ◌+◌, ◌<◌, ◌≤◌, length, nat_le, ◌&&◌, All, IfOk, MatchBool, MatchOption};
ghost use Rattle.bt_image.specs.File.{section_count};
ghost use Rattle.bt_image.specs.Image.{IsNextCode, HasNoCodeFrom};
ghost use Rattle.bt_image.specs.Loaded.{AreApart, AreLoaded};
ghost use Rattle.bt_image.specs.NextCode.{IsCodeTable, HasWord, IsNextWord, HasNoWordFrom, LastReaches, NoneReaches};
ghost use Rattle.bt_image.specs.Section.{is_code_section};

use crate::loaded::begun;
use crate::section::Section;
use std::alloc::{AllocError, Global};

/// Whether a section is code and has at least one word.
fn has_word(s: &Section) -> bool
    ensures { result ≡ (is_code_section s.now && nat_le 4 s.now.size) }
{
    s.is_code() && s.size >= 4
}

/// The sections of the table that are code and have at least one word.
pub fn code_table(alloc: Global, loaded: &[Section]) -> Result<Vec<Section>, AllocError>
    requires { AreApart loaded.now }
    ensures { IfOk result (λ table. IsCodeTable loaded.now (length loaded.now) table.items) }
{
    let mut table = Vec::new(alloc);
    for i in 0..loaded.len() {
        let s = loaded[i];
        if has_word(&s) {
            table.push(s)?;
        }
    }
    Ok(table)
}

/// Whether a whole word at an address stands in the section before a place of the table.
fn stands_before(table: &[Section], place: usize, x: u32) -> bool
    requires apart { AreApart table.now }
    requires within { place ≤ length table.now }
    ensures { MatchBool result (LastReaches table.now place (x + 4)) (NoneReaches table.now place (x + 4)) }
{
    if place == 0 {
        return false;
    }
    if u64::from(x) + 4 > table[place - 1].end() {
        return false;
    }
    true
}

/// The least multiple of 4 at or above an address at which a whole word of the table stands.
pub fn next_word(table: &[Section], a: u32) -> Option<u32>
    requires apart { AreApart table.now }
    requires words { All HasWord table.now }
    ensures { MatchOption result (HasNoWordFrom table.now a) (IsNextWord table.now a) }
{
    if a > u32::MAX - 3 {
        return None;
    }
    let x = (a + 3) / 4 * 4;
    let place = begun(table, x);
    if stands_before(table, place, x) {
        return Some(x);
    }
    if place < table.len() {
        return Some(table[place].address);
    }
    None
}

/// The least code address at or above an address.
pub fn next_in(file: &[u8], loaded: &[Section], table: &[Section], a: u32) -> Option<u32>
    requires loaded { AreLoaded file.now (section_count file.now) loaded.now }
    requires table { IsCodeTable loaded.now (length loaded.now) table.now }
    ensures { MatchOption result (HasNoCodeFrom file.now a) (IsNextCode file.now a) }
{
    match next_word(table, a) {
        None => None,
        Some(x) => Some(x),
    }
}
