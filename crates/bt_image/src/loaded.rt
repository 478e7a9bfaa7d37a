//! The table of the loaded sections, in the order of their addresses.
ghost use Rattle.std.specs.Prelude.{◌≡◌, ◌+◌, ◌≤◌, ◌<◌, ℕ, length, slice_index_or, take, drop, IfSome};
ghost use Rattle.std.specs.Option.{option_copied};
ghost use Rattle.bt_image.specs.File.{section_count};
ghost use Rattle.bt_image.specs.Image.{held, word_of, is_code, place_in};
ghost use Rattle.bt_image.specs.Loaded.{AreApart, AreLoaded, IsHolder};
ghost use Rattle.bt_image.specs.Section.{test_of};
ghost use Rattle.bt_image.specs.declared.section.Section.{Section};

use crate::fields::word_field;
use crate::section::{Access, Section};

/// How many sections of the table begin at or below an address.
pub fn begun(loaded: &[Section], a: u32) -> usize
    requires { AreApart loaded.now }
    ensures within { result ≤ length loaded.now }
    ensures below { (k : ℕ) (d : Section) → k < result → (slice_index_or loaded.now k d).address ≤ a }
    ensures above { (k : ℕ) (d : Section) → result ≤ k → k < length loaded.now → a < (slice_index_or loaded.now k d).address }
{
    loaded.partition_point(|s| s.address <= a)
}

/// The section of the table in which the `n` bytes from `a` on stand.
pub fn holder(loaded: &[Section], a: u32, n: u32) -> Option<Section>
    requires apart { AreApart loaded.now }
    requires some { 0 < n }
    ensures { IsHolder loaded.now a n result }
{
    let begun = begun(loaded, a);
    if begun == 0 {
        return None;
    }
    let s = loaded[begun - 1];
    if u64::from(a) + u64::from(n) > s.end() {
        return None;
    }
    Some(s)
}

/// The `n` bytes from `a` on of a section.
pub fn bytes_of<'a>(file: &'a [u8], s: Section, a: u32, n: u32) -> &'a [u8]
    requires inside { s.offset + s.size ≤ length file.now }
    requires begins { s.address ≤ a }
    requires ends { a + n ≤ s.address + s.size }
    ensures value { result.now ≡ take n (drop (place_in s a) file.now) }
    ensures len { length result.now ≡ n }
{
    let from = s.offset as usize + (a - s.address) as usize;
    let rest = &file[from..];
    &rest[..n as usize]
}

/// The `n` bytes from `a` on, where they stand in one section of the table that is of that kind.
pub fn held<'a>(
    file: &'a [u8],
    loaded: &[Section],
    access: Access,
    a: u32,
    n: u32,
) -> Option<&'a [u8]>
    requires table { AreLoaded file.now (section_count file.now) loaded.now }
    requires some { 0 < n }
    ensures value { option_copied result ≡ held (test_of access) file.now a n }
    ensures len { IfSome result (λ bytes. length bytes.now ≡ n) }
{
    match holder(loaded, a, n) {
        None => None,
        Some(s) => {
            if !access.admits(&s) {
                return None;
            }
            Some(bytes_of(file, s, a, n))
        }
    }
}

/// The word at an address, where it is a multiple of 4 and its four bytes stand in one section of that kind.
pub fn word_in(file: &[u8], loaded: &[Section], access: Access, a: u32) -> Option<u32>
    requires { AreLoaded file.now (section_count file.now) loaded.now }
    ensures { result ≡ word_of (test_of access) file.now a }
{
    if a % 4 != 0 {
        return None;
    }
    match held(file, loaded, access, a, 4) {
        None => None,
        Some(bytes) => Some(word_field(bytes, 0)),
    }
}

/// Whether a whole aligned word of a code section stands at an address.
pub fn code_in(file: &[u8], loaded: &[Section], a: u32) -> bool
    requires { AreLoaded file.now (section_count file.now) loaded.now }
    ensures { result ≡ is_code file.now a }
{
    a % 4 == 0 && held(file, loaded, Access::Code, a, 4).is_some()
}
