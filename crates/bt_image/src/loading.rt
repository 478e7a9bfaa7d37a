//! The making of the table of the loaded sections. Each is put in at its place, found by its address; there are
//! at most 1,024 of them.
ghost use Rattle.std.specs.Prelude.{◌≡◌, ◌<◌, ◌≤◌, None, length, MatchBool, MatchOption, IfOk};
ghost use Rattle.bt_image.specs.File.{section_count};
ghost use Rattle.bt_image.specs.Loaded.{AreApart, AreLoaded, SharesWith, IsPlaceFor, EndBelow, LastEndsAbove, BeginAbove, NextBeginsBelow};
ghost use Rattle.bt_image.specs.Refusal.{HasHeaders, IsStep, sections_refusal, overlap_refusal};

use crate::headers::{section, section_count};
use crate::loaded::begun;
use crate::refusal::ImageRefusal;
use crate::section::Section;
use crate::sections::overlapping;
use std::alloc::Global;

/// Whether the sections before a place of the table end at or below an address.
fn end_below(loaded: &[Section], place: usize, a: u32) -> bool
    requires apart { AreApart loaded.now }
    requires within { place ≤ length loaded.now }
    ensures { MatchBool result (EndBelow loaded.now place a) (LastEndsAbove loaded.now place a) }
{
    if place == 0 {
        return true;
    }
    if loaded[place - 1].end() > u64::from(a) {
        return false;
    }
    true
}

/// Whether the sections from a place of the table on begin at or above an address.
fn begin_above(loaded: &[Section], place: usize, a: u64) -> bool
    requires apart { AreApart loaded.now }
    requires within { place ≤ length loaded.now }
    ensures { MatchBool result (BeginAbove loaded.now place a) (NextBeginsBelow loaded.now place a) }
{
    if place == loaded.len() {
        return true;
    }
    if u64::from(loaded[place].address) < a {
        return false;
    }
    true
}

/// The place of a section in the table: None exactly where it shares an address with one that is there.
fn place_for(loaded: &[Section], s: &Section) -> Option<usize>
    requires apart { AreApart loaded.now }
    requires some { 0 < s.now.size }
    ensures { MatchOption result (SharesWith loaded.now s.now) (IsPlaceFor loaded.now s.now) }
{
    let place = begun(loaded, s.address);
    if !end_below(loaded, place, s.address) {
        return None;
    }
    if !begin_above(loaded, place, s.end()) {
        return None;
    }
    Some(place)
}

/// The table of the loaded sections. It is refused where two of them share an address.
pub fn load(alloc: Global, file: &[u8]) -> Result<Vec<Section>, ImageRefusal>
    requires headers { HasHeaders file.now }
    requires sound { sections_refusal file.now ≡ None }
    ensures step { IsStep (overlap_refusal file.now) result }
    ensures table { IfOk result (λ table. AreLoaded file.now (section_count file.now) table.items) }
{
    let mut table = Vec::new(alloc);
    for n in 0..section_count(file) {
        let s = section(file, n);
        if s.is_loaded() {
            match place_for(&table, &s) {
                None => return Err(overlapping(file)),
                Some(place) => table.insert(place, s)?,
            }
        }
    }
    Ok(table)
}
