//! The extents of functions in their sections.
ghost use Rattle.std.specs.Prelude.{◌≡◌, ◌+◌, ◌<◌, ◌≤◌, ℕ, length, slice_index_or, true};
ghost use Rattle.bt_image.specs.Extent.{IsExtent, IsStart, IsEnd, Rise};
ghost use Rattle.bt_image.specs.File.{section_count};
ghost use Rattle.bt_image.specs.Image.{is_code, holder};
ghost use Rattle.bt_image.specs.Loaded.{AreLoaded};
ghost use Rattle.bt_image.specs.Section.{is_code_section};
ghost use Rattle.bt_image.specs.Symbol.{functions};

use crate::loaded::holder;
use crate::section::Section;

/// How many of the numbers are at most `a`.
pub fn at_most(numbers: &[u32], a: u32) -> usize
    requires { Rise numbers.now }
    ensures within { result ≤ length numbers.now }
    ensures below { (k : ℕ) → k < result → slice_index_or numbers.now k 0 ≤ a }
    ensures above { (k : ℕ) → result ≤ k → k < length numbers.now → a < slice_index_or numbers.now k 0 }
{
    numbers.partition_point(|x| *x <= a)
}

/// The code section in which the whole word at a code address stands.
fn code_section(file: &[u8], loaded: &[Section], a: u32) -> Section
    requires loaded { AreLoaded file.now (section_count file.now) loaded.now }
    requires code { is_code file.now a ≡ true }
    ensures section { holder is_code_section file.now a 4 ≡ Some result }
    ensures low { result.address ≤ a }
    ensures high { a + 4 ≤ result.address + result.size }
{
    holder(loaded, a, 4).unwrap()
}

/// The extent of a code address: from the greatest function at or below it in its section, else the section's
/// start, to the next function above it in that section, else the section's end, which may be 2^32.
pub fn extent_in(file: &[u8], loaded: &[Section], addresses: &[u32], a: u32) -> (u32, u64)
    requires loaded { AreLoaded file.now (section_count file.now) loaded.now }
    requires addresses { addresses.now ≡ functions file.now }
    requires rise { Rise addresses.now }
    requires code { is_code file.now a ≡ true }
    ensures { IsExtent file.now a result.0 result.1 }
{
    let s = code_section(file, loaded, a);
    let place = at_most(addresses, a);
    (
        start_from(addresses, place, s.address),
        end_from(addresses, place, s.end()),
    )
}

/// The last number before a place, where it is at least `low`, else `low`.
fn start_from(numbers: &[u32], place: usize, low: u32) -> u32
    requires { place ≤ length numbers.now }
    ensures { IsStart numbers.now place low result }
{
    if place > 0 && numbers[place - 1] >= low {
        numbers[place - 1]
    } else {
        low
    }
}

/// The number at a place, where it is below `high`, else `high`.
fn end_from(numbers: &[u32], place: usize, high: u64) -> u64
    requires { place ≤ length numbers.now }
    ensures { IsEnd numbers.now place high result }
{
    if place < numbers.len() && u64::from(numbers[place]) < high {
        u64::from(numbers[place])
    } else {
        high
    }
}
