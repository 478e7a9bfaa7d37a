//! The whole file.
ghost use Rattle.std.specs.Prelude.{◌≡◌, ◌≤◌, IfOk};
ghost use Rattle.gen_image.specs.File.{file_of};

use crate::abi::{SECTIONS, SHDR_SIZE};
use crate::code::put_text;
use crate::header::put_header;
use crate::layout::layout_of;
use crate::names::strings;
use crate::sections::put_sections;
use crate::symbols::put_symbols;
use crate::words::put_zeros;
use bt_base::Want;
use std::alloc::Global;

/// The bytes of an executable of `n` functions, `f0`, `f1` and so on, of five instructions each, and of `main`, which
/// calls each of them once: function `k` counts `%o0` down to zero from 1 + (37 `k` + 11) mod 100. Its code begins at
/// 02000000, function `k` 20 `k` bytes on, and main behind the last one. Want where memory is wanting, and only then.
#[tactic(auto, unfolding(crate::specs::File::file_of), using(crate::proofs::Sizes::strings_are_short))]
pub fn make(alloc: Global, n: u32) -> Result<Vec<u8>, Want>
    requires some { 1 ≤ n }
    requires few { n ≤ 4000 }
    ensures { IfOk result (λ file. file.items ≡ file_of n) }
{
    let strings = strings(alloc, n)?;
    let at = layout_of(n, strings.len() as u32);
    let headers = usize::from(SECTIONS) * usize::from(SHDR_SIZE);
    let mut file = Vec::with_capacity(alloc, at.sections_at as usize + headers)?;
    put_header(&mut file, at.sections_at)?;
    put_text(&mut file, n)?;
    put_symbols(&mut file, n)?;
    file.extend_from_slice(&strings)?;
    put_zeros(&mut file, at.padding)?;
    put_sections(&mut file, at)?;
    Ok(file)
}
