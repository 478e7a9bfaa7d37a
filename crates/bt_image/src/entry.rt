//! The entry of a name: the least address that has a function symbol of that name. It is looked up in a table of
//! the function symbols, in the order of their names and, of one name, of their addresses.
ghost use Rattle.std.specs.Prelude.{◌≡◌, ◌<◌, ◌≤◌, ℕ, None, IfOk, Contains, false, length, slice_index_or, true};
ghost use Rattle.bt_image.specs.Checked.{IsChecked};
ghost use Rattle.bt_image.specs.Entry.{AreEntries, AreInOrder, order};
ghost use Rattle.bt_image.specs.File.{section_count};
ghost use Rattle.bt_image.specs.Loaded.{AreLoaded};
ghost use Rattle.bt_image.specs.Refusal.{symbols_refusal};
ghost use Rattle.bt_image.specs.Symbol.{HasSymbols, entry_of, is_before, name_at, symbol_count, symbol_strings};
ghost use Rattle.bt_image.specs.declared.entry.Entry.{Entry};

use crate::abi::SYM_SIZE;
use crate::functions::checked_strings;
use crate::names::{function_symbol, is_before};
use crate::section::Section;
use crate::strings::name_at;
use crate::symbols::table_of;
use std::alloc::{AllocError, Global};
use std::cmp::Ordering;

/// A function symbol.
#[derive(Clone, Copy, Debug, PartialEq, Eq)]
pub struct Entry {
    /// The place of its name in the strings.
    pub name: u32,
    /// Its address.
    pub address: u32,
}

/// The name at a place of the strings, which is empty past their end.
fn text(strings: &[u8], at: u32) -> &[u8]
    ensures { result.now ≡ name_at strings.now at }
{
    if at as usize > strings.len() {
        return &strings[..0];
    }
    name_at(strings, at as usize)
}

/// Which of two function symbols comes first: by the bytes of their names, and then by their addresses.
fn order(strings: &[u8], x: &Entry, y: &Entry) -> Ordering
    ensures { result ≡ order strings.now x.now y.now }
{
    text(strings, x.name)
        .cmp(text(strings, y.name))
        .then(x.address.cmp(&y.address))
}

/// Puts function symbols in order.
fn put_in_order(strings: &[u8], entries: &mut Vec<Entry>)
    ensures order { AreInOrder strings.now entries.new.items }
    ensures keeps { (e : Entry) → Contains entries.old.items e → Contains entries.new.items e }
    ensures adds_none { (e : Entry) → Contains entries.new.items e → Contains entries.old.items e }
{
    entries.sort_unstable_by(|x, y| order(strings, x, y));
}

/// The function symbols of the file, in the order of the symbols.
fn gather(
    alloc: Global,
    file: &[u8],
    loaded: &[Section],
    table: &Section,
    strings: &[u8],
) -> Result<Vec<Entry>, AllocError>
    requires loaded { AreLoaded file.now (section_count file.now) loaded.now }
    requires table { HasSymbols file.now table.now }
    requires strings { strings.now ≡ symbol_strings file.now }
    requires sound { symbols_refusal file.now ≡ None }
    ensures { IfOk result (λ entries. AreEntries file.now (symbol_count file.now) entries.items) }
{
    let mut entries = Vec::new(alloc);
    for k in 0..table.size / SYM_SIZE {
        match function_symbol(file, loaded, table, strings, k) {
            None => {}
            Some(s) => entries.push(Entry {
                name: s.name,
                address: s.value,
            })?,
        }
    }
    Ok(entries)
}

/// The table of the function symbols of the file.
pub fn entries(
    alloc: Global,
    file: &[u8],
    loaded: &[Section],
    number: Option<u16>,
) -> Result<Vec<Entry>, AllocError>
    requires checked { IsChecked file.now number }
    requires loaded { AreLoaded file.now (section_count file.now) loaded.now }
    requires sound { symbols_refusal file.now ≡ None }
    ensures entries { IfOk result (λ entries. AreEntries file.now (symbol_count file.now) entries.items) }
    ensures order { IfOk result (λ entries. AreInOrder (symbol_strings file.now) entries.items) }
{
    let strings = checked_strings(file, number);
    let mut entries = gather(alloc, file, loaded, &table_of(file, number), strings)?;
    put_in_order(strings, &mut entries);
    Ok(entries)
}

/// How many function symbols of the table have names that come before this one.
fn before(strings: &[u8], entries: &[Entry], name: &[u8]) -> usize
    requires { AreInOrder strings.now entries.now }
    ensures within { result ≤ length entries.now }
    ensures below { (k : ℕ) (d : Entry) → k < result
        → is_before (name_at strings.now (slice_index_or entries.now k d).name) name.now ≡ true }
    ensures above { (k : ℕ) (d : Entry) → result ≤ k → k < length entries.now
        → is_before (name_at strings.now (slice_index_or entries.now k d).name) name.now ≡ false }
{
    entries.partition_point(|e| is_before(text(strings, e.name), name))
}

/// The least address that has a function symbol of this name.
pub fn entry_in(file: &[u8], number: Option<u16>, entries: &[Entry], name: &[u8]) -> Option<u32>
    requires checked { IsChecked file.now number }
    requires sound { symbols_refusal file.now ≡ None }
    requires entries { AreEntries file.now (symbol_count file.now) entries.now }
    requires order { AreInOrder (symbol_strings file.now) entries.now }
    ensures { result ≡ entry_of file.now name.now }
{
    let strings = checked_strings(file, number);
    let place = before(strings, entries, name);
    if place >= entries.len() {
        return None;
    }
    let e = entries[place];
    if text(strings, e.name) == name {
        return Some(e.address);
    }
    None
}
