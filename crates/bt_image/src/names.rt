//! The names of the functions: of each function the least by bytes among its symbols of type FUNC, else among
//! the others.
ghost use Rattle.std.specs.Prelude.{◌≡◌, ◌<◌, ◌≤◌, ℕ, length, false, true, None, IfSome, IfNone, OnOk, IfOk};
ghost use Rattle.std.specs.BTreeMap.{get};
ghost use Rattle.std.specs.Ordering.{nat_cmp};
ghost use Rattle.bt_image.specs.File.{section_count};
ghost use Rattle.bt_image.specs.Loaded.{AreLoaded};
ghost use Rattle.bt_image.specs.Names.{is_chosen, better, AreNames, IsNoted};
ghost use Rattle.bt_image.specs.Refusal.{symbols_refusal};
ghost use Rattle.bt_image.specs.Symbol.{HasSymbols, symbol_at, symbol_count, is_function_symbol, is_before, symbol_strings};

use crate::abi::SYM_SIZE;
use crate::section::Section;
use crate::strings::name_at;
use crate::symbol::Symbol;
use crate::symbols::{names_code, symbol};
use std::alloc::{AllocError, Global};
use std::collections::BTreeMap;

/// A name of a function.
#[derive(Clone, Copy, Debug, PartialEq, Eq)]
pub struct Name {
    /// Its place in the strings.
    pub at: u32,
    /// Whether the symbol is of type FUNC.
    pub typed: bool,
}

/// Symbol `k`, where it is a function symbol.
#[tactic(auto, unfolding(crate::specs::Symbol::is_function_symbol))]
pub fn function_symbol(
    file: &[u8],
    loaded: &[Section],
    table: &Section,
    strings: &[u8],
    k: u32,
) -> Option<Symbol>
    requires loaded { AreLoaded file.now (section_count file.now) loaded.now }
    requires table { HasSymbols file.now table.now }
    requires strings { strings.now ≡ symbol_strings file.now }
    requires sound { symbols_refusal file.now ≡ None }
    requires within { k < symbol_count file.now }
    ensures none { IfNone result (is_function_symbol file.now k ≡ false) }
    ensures some { IfSome result (λ s. (is_function_symbol file.now k ≡ true) × (s ≡ symbol_at file.now k)) }
    ensures named { IfSome result (λ s. s.name ≤ length strings.now) }
{
    let s = symbol(file, table, k);
    if !names_code(file, loaded, &s) {
        return None;
    }
    if name_at(strings, s.name as usize).is_empty() {
        return None;
    }
    Some(s)
}

/// Whether a name comes before another, by their bytes.
pub fn is_before(x: &[u8], y: &[u8]) -> bool
    ensures { result ≡ is_before x.now y.now }
{
    x.cmp(y).is_lt()
}

/// Whether of two names of a function the first is chosen.
fn is_chosen(strings: &[u8], x: Name, y: Name) -> bool
    requires first { x.at ≤ length strings.now }
    requires second { y.at ≤ length strings.now }
    ensures { result ≡ is_chosen strings.now x y }
{
    if x.typed {
        !y.typed
            || is_before(
                name_at(strings, x.at as usize),
                name_at(strings, y.at as usize),
            )
    } else {
        !y.typed
            && is_before(
                name_at(strings, x.at as usize),
                name_at(strings, y.at as usize),
            )
    }
}

/// The name of a function once one more symbol of it was seen.
fn better(strings: &[u8], old: Option<Name>, new: Name) -> Name
    requires old { IfSome old (λ name. name.at ≤ length strings.now) }
    requires new { new.at ≤ length strings.now }
    ensures { result ≡ better strings.now old new }
{
    match old {
        None => new,
        Some(old) => {
            if is_chosen(strings, new, old) {
                new
            } else {
                old
            }
        }
    }
}

/// Takes one more function symbol into the names.
fn note(names: &mut BTreeMap<u32, Name>, strings: &[u8], s: Symbol) -> Result<(), AllocError>
    requires names { (a : ℕ) → IfSome (get nat_cmp names.old a) (λ name. name.at ≤ length strings.now) }
    requires name { s.name ≤ length strings.now }
    ensures { OnOk result (IsNoted strings.now names.old names.new s) }
{
    let new = Name {
        at: s.name,
        typed: s.is_typed(),
    };
    let old = names.get(&s.value).copied();
    names.insert(s.value, better(strings, old, new))?;
    Ok(())
}

/// The names of all functions of the file.
pub fn names(
    alloc: Global,
    file: &[u8],
    loaded: &[Section],
    table: &Section,
    strings: &[u8],
) -> Result<BTreeMap<u32, Name>, AllocError>
    requires loaded { AreLoaded file.now (section_count file.now) loaded.now }
    requires table { HasSymbols file.now table.now }
    requires strings { strings.now ≡ symbol_strings file.now }
    requires sound { symbols_refusal file.now ≡ None }
    ensures { IfOk result (λ names. AreNames file.now strings.now (symbol_count file.now) names) }
{
    let mut names = BTreeMap::new(alloc);
    for k in 0..table.size / SYM_SIZE {
        match function_symbol(file, loaded, table, strings, k) {
            None => {}
            Some(s) => note(&mut names, strings, s)?,
        }
    }
    Ok(names)
}
