//! The symbol table of a file: its symbols, and what is malformed in it.
ghost use Rattle.std.specs.Prelude.{◌≡◌, ◌+◌, ◌<◌, ◌≤◌, ℕ, length, None, IfSome, nat_lt, not, is_some, ◌&&◌};
ghost use Rattle.bt_image.specs.File.{section_count};
ghost use Rattle.bt_image.specs.Least.{first_passing};
ghost use Rattle.bt_image.specs.Loaded.{AreLoaded};
ghost use Rattle.bt_image.specs.Refusal.{HasHeaders, IsCheck, sections_refusal, symbols_refusal, is_table, is_unnamed};
ghost use Rattle.bt_image.specs.Section.{symbol_table, section_at, section_bytes};
ghost use Rattle.bt_image.specs.Symbol.{HasSymbols, symbol_at, symbol_count, names_code, symbol_strings, is_ended};

use crate::abi::{SHN_UNDEF, SHT_STRTAB, SYM_SIZE};
use crate::headers::{section, section_count};
use crate::loaded::code_in;
use crate::refusal::ImageRefusal;
use crate::section::Section;
use crate::strings::ended_len;
use crate::symbol::Symbol;

/// The symbol table, or an empty section where there is none.
#[tactic(auto, unfolding(crate::specs::Symbol::symbol_count, crate::specs::Symbol::symbols_start))]
pub fn table_of(file: &[u8], number: Option<u16>) -> Section
    requires headers { HasHeaders file.now }
    requires number { number ≡ symbol_table file.now }
    requires within { IfSome number (λ n. n < section_count file.now) }
    requires sound { sections_refusal file.now ≡ None }
    ensures symbols { HasSymbols file.now result }
    ensures here { IfSome number (λ n. result ≡ section_at file.now n) }
{
    match number {
        None => Section::EMPTY,
        Some(number) => section(file, number),
    }
}

/// Whether a symbol table has symbols of 16 bytes each, and links to a section of strings.
pub fn is_table(file: &[u8], table: &Section) -> bool
    requires { HasHeaders file.now }
    ensures { result ≡ is_table file.now table.now }
{
    table.entry_size == SYM_SIZE
        && table.size % SYM_SIZE == 0
        && table.link < u32::from(section_count(file))
        && section(file, table.link as u16).kind == SHT_STRTAB
}

/// Symbol `k` of the file.
#[tactic(auto, unfolding(crate::specs::Symbol::symbol_at))]
pub fn symbol(file: &[u8], table: &Section, k: u32) -> Symbol
    requires table { HasSymbols file.now table.now }
    requires within { k < symbol_count file.now }
    ensures { result ≡ symbol_at file.now k }
{
    Symbol::read(file, table.offset as usize + SYM_SIZE as usize * k as usize)
}

/// Whether a symbol may be a function, is of some section, and its value is a code address.
pub fn names_code(file: &[u8], loaded: &[Section], s: &Symbol) -> bool
    requires { AreLoaded file.now (section_count file.now) loaded.now }
    ensures { result ≡ names_code file.now s.now }
{
    s.may_be_function() && s.section != SHN_UNDEF && code_in(file, loaded, s.value)
}

/// Whether symbol `k` names code, and its name is outside the strings or doesn't end.
#[tactic(auto, unfolding(crate::specs::Refusal::is_unnamed))]
fn is_unnamed(file: &[u8], loaded: &[Section], table: &Section, ended: usize, k: u32) -> bool
    requires loaded { AreLoaded file.now (section_count file.now) loaded.now }
    requires table { HasSymbols file.now table.now }
    requires ended { (at : ℕ) → is_ended (symbol_strings file.now) at ≡ nat_lt at ended }
    requires within { k < symbol_count file.now }
    ensures { result ≡ is_unnamed file.now k }
{
    let s = symbol(file, table, k);
    names_code(file, loaded, &s) && s.name as usize >= ended
}

/// The first symbol that names code and whose name is outside the strings or doesn't end.
pub fn unnamed(file: &[u8], loaded: &[Section], table: &Section, ended: usize) -> Option<u32>
    requires loaded { AreLoaded file.now (section_count file.now) loaded.now }
    requires table { HasSymbols file.now table.now }
    requires ended { (at : ℕ) → is_ended (symbol_strings file.now) at ≡ nat_lt at ended }
    ensures { result ≡ first_passing (is_unnamed file.now) (symbol_count file.now) }
{
    for k in 0..table.size / SYM_SIZE {
        if is_unnamed(file, loaded, table, ended, k) {
            return Some(k);
        }
    }
    None
}

/// Whether the symbol table is one, and each symbol that names code has a name that ends within the strings.
fn is_sound_table(file: &[u8], loaded: &[Section], table: &Section, number: Option<u16>) -> bool
    requires headers { HasHeaders file.now }
    requires number { number ≡ symbol_table file.now }
    requires within { IfSome number (λ n. n < section_count file.now) }
    requires here { IfSome number (λ n. table.now ≡ section_at file.now n) }
    requires sound { sections_refusal file.now ≡ None }
    requires loaded { AreLoaded file.now (section_count file.now) loaded.now }
    requires table { HasSymbols file.now table.now }
    ensures { result ≡ (is_table file.now table.now && not (is_some (first_passing (is_unnamed file.now) (symbol_count file.now)))) }
{
    is_table(file, table)
        && unnamed(file, loaded, table, ended_len(strings(file, number))).is_none()
}

/// The bytes of the file that are a section's.
fn section_bytes<'a>(file: &'a [u8], s: &Section) -> &'a [u8]
    requires { s.now.offset + s.now.size ≤ length file.now }
    ensures { result.now ≡ section_bytes file.now s.now }
{
    let rest = &file[s.offset as usize..];
    &rest[..s.size as usize]
}

/// The strings of the symbols' names: the section that the symbol table links to.
#[tactic(auto, unfolding(crate::specs::Symbol::symbol_strings))]
pub fn strings(file: &[u8], number: Option<u16>) -> &[u8]
    requires headers { HasHeaders file.now }
    requires number { number ≡ symbol_table file.now }
    requires within { IfSome number (λ n. n < section_count file.now) }
    requires linked { IfSome number (λ n. (section_at file.now n).link < section_count file.now) }
    requires sound { sections_refusal file.now ≡ None }
    ensures { result.now ≡ symbol_strings file.now }
{
    match number {
        None => &file[..0],
        Some(number) => {
            let link = section(file, number).link;
            section_bytes(file, &section(file, link as u16))
        }
    }
}

/// Checks the symbol table: its symbols are of 16 bytes each, it links to a section of strings, and each symbol
/// that names code has a name that ends within the strings.
#[tactic(auto, unfolding(crate::specs::Refusal::symbols_refusal))]
pub fn check_symbols(
    file: &[u8],
    loaded: &[Section],
    number: Option<u16>,
) -> Result<(), ImageRefusal>
    requires headers { HasHeaders file.now }
    requires number { number ≡ symbol_table file.now }
    requires within { IfSome number (λ n. n < section_count file.now) }
    requires sound { sections_refusal file.now ≡ None }
    requires loaded { AreLoaded file.now (section_count file.now) loaded.now }
    ensures { IsCheck (symbols_refusal file.now) result }
{
    match number {
        None => Ok(()),
        Some(n) => {
            let table = table_of(file, number);
            if is_sound_table(file, loaded, &table, number) {
                Ok(())
            } else {
                Err(ImageRefusal::SymbolTable { n: u32::from(n) })
            }
        }
    }
}
