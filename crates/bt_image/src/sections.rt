//! The sections of a file that are in memory or serve its symbols: whole, within the file and memory, aligned,
//! and apart from one another.
ghost use Rattle.std.specs.Prelude.{◌≡◌, ◌<◌, IfSome, IsSome};
ghost use Rattle.bt_image.specs.File.{section_count};
ghost use Rattle.bt_image.specs.Least.{first_of};
ghost use Rattle.bt_image.specs.Refusal.{HasHeaders, IsCheck, serves_symbols, is_outside, fault_of, section_fault, sections_refusal, overlap, overlap_refusal};
ghost use Rattle.bt_image.specs.Section.{share, symbol_table};

use crate::headers::{section, section_count};
use crate::refusal::ImageRefusal;
use crate::section::Section;

/// How many bytes memory has.
const MEMORY: u64 = 1 << 32;

/// Whether section `n` is the symbol table, or the one that the symbol table links to.
fn serves_symbols(file: &[u8], table: Option<u16>, n: u16) -> bool
    requires headers { HasHeaders file.now }
    requires table { IfSome table (λ t. t < section_count file.now) }
    ensures { result ≡ serves_symbols file.now table n }
{
    match table {
        None => false,
        Some(table) => n == table || u32::from(n) == section(file, table).link,
    }
}

/// Whether the section passes the end of the file, or is loaded and passes the end of memory.
fn is_outside(file: &[u8], s: &Section) -> bool
    ensures { result ≡ is_outside file.now s.now }
{
    u64::from(s.offset) + u64::from(s.size) > file.len() as u64 || s.is_loaded() && s.end() > MEMORY
}

/// What is wrong with a section `n` that is looked at.
fn fault_of(file: &[u8], n: u16, s: &Section) -> Option<ImageRefusal>
    ensures { result ≡ fault_of file.now n s.now }
{
    let n = u32::from(n);
    if s.is_compressed() {
        return Some(ImageRefusal::Compressed { n });
    }
    if is_outside(file, s) {
        return Some(ImageRefusal::SectionOutside { n });
    }
    if s.is_code() && s.address % 4 != 0 {
        return Some(ImageRefusal::Alignment { n });
    }
    None
}

/// What is wrong with section `n`, which is looked at where it is loaded or serves the symbols.
#[tactic(auto, unfolding(crate::specs::Refusal::section_fault))]
fn section_fault(file: &[u8], table: Option<u16>, n: u16) -> Option<ImageRefusal>
    requires headers { HasHeaders file.now }
    requires table { IfSome table (λ t. t < section_count file.now) }
    requires within { n < section_count file.now }
    ensures { result ≡ section_fault file.now table n }
{
    let s = section(file, n);
    if s.is_loaded() || serves_symbols(file, table, n) {
        fault_of(file, n, &s)
    } else {
        None
    }
}

/// Checks each section that is loaded or serves the symbols.
#[tactic(auto, unfolding(crate::specs::Refusal::sections_refusal))]
pub fn check_sections(file: &[u8], table: Option<u16>) -> Result<(), ImageRefusal>
    requires headers { HasHeaders file.now }
    requires table { table ≡ symbol_table file.now }
    requires within { IfSome table (λ t. t < section_count file.now) }
    ensures { IsCheck (sections_refusal file.now) result }
{
    for n in 0..section_count(file) {
        match section_fault(file, table, n) {
            None => {}
            Some(refusal) => return Err(refusal),
        }
    }
    Ok(())
}

/// Sections `a` and `b` as an overlap, where `a` is the first, both are loaded and they share an address.
#[tactic(auto, unfolding(crate::specs::Refusal::overlap))]
fn overlap(file: &[u8], a: u16, b: u16) -> Option<ImageRefusal>
    requires headers { HasHeaders file.now }
    requires first { a < section_count file.now }
    requires second { b < section_count file.now }
    ensures { result ≡ overlap file.now a b }
{
    let s = section(file, a);
    let t = section(file, b);
    if a < b && s.is_loaded() && t.is_loaded() && share(&s, &t) {
        Some(ImageRefusal::SectionOverlap {
            a: u32::from(a),
            b: u32::from(b),
        })
    } else {
        None
    }
}

/// Whether two sections share an address.
pub fn share(s: &Section, t: &Section) -> bool
    ensures { result ≡ share s.now t.now }
{
    u64::from(s.address) < t.end() && u64::from(t.address) < s.end()
}

/// The first loaded section that shares an address with section `a`, where one behind it does.
fn overlap_with(file: &[u8], a: u16) -> Option<ImageRefusal>
    requires headers { HasHeaders file.now }
    requires within { a < section_count file.now }
    ensures { result ≡ first_of (overlap file.now a) (section_count file.now) }
{
    for b in 0..section_count(file) {
        match overlap(file, a, b) {
            None => {}
            Some(refusal) => return Some(refusal),
        }
    }
    None
}

/// The first two loaded sections that share an address, where there are such. It looks at each pair, so it is
/// asked only of a file that is refused.
#[tactic(auto, unfolding(crate::specs::Refusal::overlap_refusal))]
fn first_overlap(file: &[u8]) -> Option<ImageRefusal>
    requires { HasHeaders file.now }
    ensures { result ≡ overlap_refusal file.now }
{
    for a in 0..section_count(file) {
        match overlap_with(file, a) {
            None => {}
            Some(refusal) => return Some(refusal),
        }
    }
    None
}

/// The overlap that a file is refused for.
pub fn overlapping(file: &[u8]) -> ImageRefusal
    requires headers { HasHeaders file.now }
    requires found { IsSome (overlap_refusal file.now) }
    ensures { overlap_refusal file.now ≡ Some result }
{
    first_overlap(file).unwrap()
}
