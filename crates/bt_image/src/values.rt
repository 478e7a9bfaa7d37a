//! The code addresses that stand in the words of sections. Each place of the file is looked at once, though
//! several sections may show it.
ghost use Rattle.std.specs.Prelude.{◌≡◌, ◌+◌, ◌/◌, ◌^◌, ◌≤◌, length, IfOk, OnOk};
ghost use Rattle.bt_image.specs.File.{section_count};
ghost use Rattle.bt_image.specs.Image.{place_in};
ghost use Rattle.bt_image.specs.Label.{AreExactly, IsCodeIn};
ghost use Rattle.bt_image.specs.Loaded.{AreLoaded};
ghost use Rattle.bt_image.specs.Section.{test_of};
ghost use Rattle.bt_image.specs.Values.{AreNoted, AreSeen, AreValues, IsNoted};

use crate::fields::word_field;
use crate::loaded::{bytes_of, code_in};
use crate::rising::put_in_order;
use crate::section::{Access, Section};
use std::alloc::{AllocError, Global};

/// Looks at the word at an address of a section, where its place in the file wasn't looked at yet.
fn note_word(
    file: &[u8],
    loaded: &[Section],
    s: Section,
    x: u32,
    seen: &mut Vec<bool>,
    found: &mut Vec<u32>,
) -> Result<(), AllocError>
    requires table { AreLoaded file.now (section_count file.now) loaded.now }
    requires inside { s.offset + s.size ≤ length file.now }
    requires begins { s.address ≤ x }
    requires ends { x + 4 ≤ s.address + s.size }
    requires long { length seen.old.items ≡ length file.now }
    requires seen { AreSeen file.now seen.old.items found.old.items }
    ensures { OnOk result (IsNoted file.now (place_in s x) seen.new.items found.old.items found.new.items) }
{
    let at = s.offset as usize + (x - s.address) as usize;
    if seen[at] {
        return Ok(());
    }
    seen[at] = true;
    let a = word_field(bytes_of(file, s, x, 4), 0);
    if code_in(file, loaded, a) {
        found.push(a)?;
    }
    Ok(())
}

/// Looks at the aligned words of a section.
fn note_section(
    file: &[u8],
    loaded: &[Section],
    s: Section,
    seen: &mut Vec<bool>,
    found: &mut Vec<u32>,
) -> Result<(), AllocError>
    requires table { AreLoaded file.now (section_count file.now) loaded.now }
    requires inside { s.offset + s.size ≤ length file.now }
    requires fits { s.address + s.size ≤ 2 ^ 32 }
    requires long { length seen.old.items ≡ length file.now }
    requires seen { AreSeen file.now seen.old.items found.old.items }
    ensures { OnOk result (AreNoted file.now s ((s.address + s.size) / 4) seen.new.items found.old.items found.new.items) }
{
    let first = (u64::from(s.address) + 3) / 4;
    for k in first..s.end() / 4 {
        note_word(file, loaded, s, (4 * k) as u32, seen, found)?;
    }
    Ok(())
}

/// The code addresses that stand in aligned words of the sections of a kind, in no order.
fn gather(
    alloc: Global,
    file: &[u8],
    loaded: &[Section],
    access: Access,
) -> Result<Vec<u32>, AllocError>
    requires { AreLoaded file.now (section_count file.now) loaded.now }
    ensures { IfOk result (λ found. AreValues (test_of access) file.now found.items) }
{
    let mut seen = vec![in alloc; false; file.len()]?;
    let mut found = Vec::new(alloc);
    for i in 0..loaded.len() {
        let s = loaded[i];
        if access.admits(&s) {
            note_section(file, loaded, s, &mut seen, &mut found)?;
        }
    }
    Ok(found)
}

/// The code addresses that stand in aligned words of the sections of a kind, rising.
pub fn values(
    alloc: Global,
    file: &[u8],
    loaded: &[Section],
    access: Access,
) -> Result<Vec<u32>, AllocError>
    requires { AreLoaded file.now (section_count file.now) loaded.now }
    ensures { IfOk result (λ found. AreExactly (IsCodeIn (test_of access) file.now) found.items) }
{
    let mut found = gather(alloc, file, loaded, access)?;
    put_in_order(&mut found);
    Ok(found)
}
