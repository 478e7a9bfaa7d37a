ghost use Rattle.std.specs.Prelude.{◌≡◌, ◌≤◌, ℕ, length, All, Contains, IfOk, IfSome, MatchOption, true};
ghost use Rattle.std.specs.Option.{option_copied};
ghost use Rattle.bt_image.specs.Checked.{IsAccepted, IsChecked};
ghost use Rattle.bt_image.specs.Extent.{IsExtent, Rise};
ghost use Rattle.bt_image.specs.Image.{word, bytes, read_only_bytes, is_readonly, is_code, IsNextCode, HasNoCodeFrom};
ghost use Rattle.bt_image.specs.Label.{IsLabelWithin, IsTaken};
ghost use Rattle.bt_image.specs.Refusal.{IsCheck, IsStep, checked_refusal, first_refusal};
ghost use Rattle.bt_image.specs.Symbol.{functions, name_of, entry_of};

use crate::entry::{Entry, entries, entry_in};
use crate::extent::extent_in;
use crate::functions::{addresses, limited_names, name_in};
use crate::headers::{check_header, check_headers, symbol_table};
use crate::labels::{labels, labels_in, taken_functions};
use crate::loaded::{code_in, held, word_in};
use crate::loading::load;
use crate::names::Name;
use crate::next_code::{code_table, next_in};
use crate::refusal::ImageRefusal;
use crate::section::{Access, Section};
use crate::sections::check_sections;
use crate::symbols::check_symbols;
use std::alloc::Global;
use std::collections::BTreeMap;
use std::marker::Model;

/// An executable that was read. Contracts see it as the bytes of the file that it was read from.
#[derive(Drop)]
pub struct Image {
    /// The bytes of the file.
    bytes: Vec<u8>,
    /// The number of the section that is the symbol table.
    number: Option<u16>,
    /// The loaded sections, in the order of their addresses.
    loaded: Vec<Section>,
    /// The code sections with at least one word, in the order of their addresses.
    code: Vec<Section>,
    /// The functions, rising.
    addresses: Vec<u32>,
    /// The name of each function.
    names: BTreeMap<u32, Name>,
    /// The function symbols, in the order of their names.
    entries: Vec<Entry>,
    /// The labels, rising.
    labels: Vec<u32>,
    /// The functions whose entries stand in words, rising.
    taken: Vec<u32>,
}

impl Model for Image {
    ghost use Rattle.std.specs.Prelude.{List, ℕ};
    ghost use Rattle.bt_image.specs.Checked.{IsImage};

    ghost Value = { List ℕ };

    ghost view = { λ i. i.bytes.items };

    ghost invariant = { λ i. IsImage i.bytes.items i.number i.loaded.items i.code.items i.addresses.items i.names
        i.entries.items i.labels.items i.taken.items };
}

/// The number of the symbol table of a file whose headers and sections pass the checks.
#[tactic(auto, unfolding(crate::specs::Refusal::checked_refusal))]
fn checked(file: &[u8]) -> Result<Option<u16>, ImageRefusal>
    ensures check { IsCheck (checked_refusal file.now) result }
    ensures checked { IfOk result (IsChecked file.now) }
{
    match check_header(file) {
        Ok(()) => {}
        Err(refusal) => return Err(refusal),
    }
    match check_headers(file) {
        Ok(()) => {}
        Err(refusal) => return Err(refusal),
    }
    let number = symbol_table(file);
    match check_sections(file, number) {
        Ok(()) => Ok(number),
        Err(refusal) => Err(refusal),
    }
}

impl Image {
    /// Reads an image from the bytes of a file. It is refused for the first of these that holds: the file is
    /// shorter than its header, or that isn't the header of an executable for SPARC in 32 bits with the highest
    /// byte first (`Short`, `Magic`, `Class`, `Order`, `Kind`, `Machine`); the headers of its sections aren't of
    /// 40 bytes, are too many, or pass the end of the file (`HeaderSize`, `Limit`, `Short`); a section that is
    /// loaded or serves the symbols is compressed, passes the end of the file or of memory, or is code and not
    /// aligned (`Compressed`, `SectionOutside`, `Alignment`, by the number of the section); two loaded sections
    /// share an address (`SectionOverlap`); the symbol table is malformed (`SymbolTable`); there are too many
    /// symbols, or functions (`Limit`).
    pub fn read(alloc: Global, bytes: &[u8]) -> Result<Image, ImageRefusal>
        ensures refused { IsStep (first_refusal bytes.now) result }
        ensures ok { IfOk result (λ image. image ≡ bytes.now) }
    {
        let number = match checked(bytes) {
            Ok(number) => number,
            Err(refusal) => return Err(refusal),
        };
        let loaded = match load(alloc, bytes) {
            Ok(loaded) => loaded,
            Err(refusal) => return Err(refusal),
        };
        match check_symbols(bytes, &loaded, number) {
            Ok(()) => {}
            Err(refusal) => return Err(refusal),
        }
        let names = match limited_names(alloc, bytes, &loaded, number) {
            Ok(names) => names,
            Err(refusal) => return Err(refusal),
        };
        let code = code_table(alloc, &loaded)?;
        let addresses = addresses(alloc, &names)?;
        let entries = entries(alloc, bytes, &loaded, number)?;
        let labels = labels(alloc, bytes, &loaded)?;
        let taken = taken_functions(alloc, bytes, &loaded, &addresses)?;
        let bytes = Vec::from_slice(alloc, bytes)?;
        Ok(Image {
            bytes,
            number,
            loaded,
            code,
            addresses,
            names,
            entries,
            labels,
            taken,
        })
    }

    /// An image is of a file that was accepted, and its bytes are below 256: so the laws of images hold of it. The
    /// call does nothing.
    pub fn accepted(&self)
        ensures { IsAccepted self.now }
    {
        let _bytes: &[u8] = &self.bytes;
    }

    /// The functions, rising: the addresses with at least one function symbol.
    pub fn functions(&self) -> &[u32]
        ensures value { result.now ≡ functions self.now }
        ensures rise { Rise result.now }
    {
        &self.addresses
    }

    /// The entry of a name: the least address that has a function symbol of that name. None exactly where no
    /// function symbol has it.
    pub fn entry_of(&self, name: &[u8]) -> Option<u32>
        ensures { result ≡ entry_of self.now name.now }
    {
        entry_in(&self.bytes, self.number, &self.entries, name)
    }

    /// The least code address at or above `a`: None exactly where there is none.
    pub fn next_code(&self, a: u32) -> Option<u32>
        ensures { MatchOption result (HasNoCodeFrom self.now a) (IsNextCode self.now a) }
    {
        next_in(&self.bytes, &self.loaded, &self.code, a)
    }

    /// The labels from `lo` to below `hi`, rising: the code addresses that stand in an aligned word of a read-only
    /// section.
    pub fn labels(&self, lo: u32, hi: u64) -> &[u32]
        ensures rise { Rise result.now }
        ensures each { All (IsLabelWithin self.now lo hi) result.now }
        ensures all { (a : ℕ) → IsLabelWithin self.now lo hi a → Contains result.now a }
    {
        labels_in(&self.bytes, &self.labels, lo, hi)
    }

    /// The functions whose entry stands in an aligned word of a loaded section, writable or not, rising.
    pub fn taken_functions(&self) -> &[u32]
        ensures rise { Rise result.now }
        ensures each { All (IsTaken self.now) result.now }
        ensures all { (a : ℕ) → IsTaken self.now a → Contains result.now a }
    {
        &self.taken
    }

    /// The extent of a code address: from the greatest function at or below it in its section, else the section's
    /// start, to the next function above it in that section, else the section's end, which may be 2^32.
    pub fn extent(&self, a: u32) -> (u32, u64)
        requires { is_code self.now a ≡ true }
        ensures { IsExtent self.now a result.0 result.1 }
    {
        extent_in(&self.bytes, &self.loaded, &self.addresses, a)
    }

    /// The name of the function at an address: the least by bytes among its symbols of type FUNC, else among the
    /// others. None exactly where no function is there.
    pub fn name_of(&self, entry: u32) -> Option<&[u8]>
        ensures { option_copied result ≡ name_of self.now entry }
    {
        name_in(&self.bytes, self.number, &self.names, entry)
    }

    /// The word at an address: Some exactly where it is a multiple of 4 and its four bytes stand in one
    /// read-only section.
    pub fn word_at(&self, a: u32) -> Option<u32>
        ensures { result ≡ word self.now a }
    {
        word_in(&self.bytes, &self.loaded, Access::ReadOnly, a)
    }

    /// The `n` bytes from an address on: Some exactly where they stand in one loaded section, writable or not.
    pub fn bytes_at(&self, a: u32, n: u32) -> Option<&[u8]>
        requires some { 1 ≤ n }
        requires few { n ≤ 8 }
        ensures value { option_copied result ≡ bytes self.now a n }
        ensures len { IfSome result (λ bytes. length bytes.now ≡ n) }
    {
        held(&self.bytes, &self.loaded, Access::Loaded, a, n)
    }

    /// The `n` bytes from an address on: Some exactly where they stand in one read-only section.
    pub fn read_only_bytes_at(&self, a: u32, n: u32) -> Option<&[u8]>
        requires some { 1 ≤ n }
        requires few { n ≤ 8 }
        ensures value { option_copied result ≡ read_only_bytes self.now a n }
        ensures len { IfSome result (λ bytes. length bytes.now ≡ n) }
    {
        held(&self.bytes, &self.loaded, Access::ReadOnly, a, n)
    }

    /// Whether the byte at an address stands in a read-only section.
    pub fn readonly(&self, a: u32) -> bool
        ensures { result ≡ is_readonly self.now a }
    {
        held(&self.bytes, &self.loaded, Access::ReadOnly, a, 1).is_some()
    }

    /// Whether a whole aligned word of a code section stands at an address.
    pub fn code(&self, a: u32) -> bool
        ensures { result ≡ is_code self.now a }
    {
        code_in(&self.bytes, &self.loaded, a)
    }
}
