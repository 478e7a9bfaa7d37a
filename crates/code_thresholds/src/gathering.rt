//! The numbers of all code and of all assertions.
ghost use Rattle.std.specs.Prelude.{◌≡◌, ◌+◌, ◌<◌, ◌≤◌, ℕ, ℤ, true, Contains, IfOk, IfSome, OnOk};
ghost use Rattle.bt_image.specs.Image.{is_code};
ghost use Rattle.sparc_decode.specs.Instr.{InRange};
ghost use Rattle.sparc_machine.specs.Straight.{code_instruction};
ghost use Rattle.code_thresholds.specs.Noted.{AreNotedTo, IsNoted};
ghost use Rattle.code_thresholds.specs.Number.{AreOfCode, AreThresholdsOf, IsOfCode};

use crate::numbers::{push_asserted, push_numbers};
use assert_bind::Binding;
use bt_base::Want;
use bt_image::Image;
use sparc_decode::{Instr, decode};
use std::alloc::Global;
use value_lattice::Thresholds;

/// The instruction at an address of code.
fn instruction(image: &Image, a: u32) -> Option<Instr>
    requires { is_code image.now a ≡ true }
    ensures value { result ≡ code_instruction image.now a }
    ensures fields { IfSome result InRange }
{
    match image.word_at(a) {
        None => None,
        Some(word) => Some(decode(word)),
    }
}

/// An address behind another, at most four bytes.
fn after(x: u32) -> u32
    ensures near { result ≤ x + 4 }
    ensures greater { x < 4294967295 → x < result }
{
    if x < u32::MAX - 4 { x + 4 } else { u32::MAX }
}

/// The code address behind another.
fn behind(image: &Image, list: &[i32], x: u32) -> Option<u32>
    requires code { is_code image.now x ≡ true }
    requires noted { (a : ℕ) → a < x + 1 → is_code image.now a ≡ true → IsNoted image.now list.now a }
    ensures noted { AreNotedTo image.now list.now result }
    ensures greater { IfSome result (λ y. x < y) }
{
    let _ = list;
    image.next_code(after(x))
}

/// Notes the numbers of the instruction at an address of code.
fn note(image: &Image, list: &mut Vec<i32>, x: u32) -> Result<(), Want>
    requires code { is_code image.now x ≡ true }
    requires each { (z : ℤ) → Contains list.old.items z → IsOfCode image.now z }
    requires noted { (a : ℕ) → a < x → is_code image.now a ≡ true → IsNoted image.now list.old.items a }
    ensures each { OnOk result ((z : ℤ) → Contains list.new.items z → IsOfCode image.now z) }
    ensures noted { OnOk result ((a : ℕ) → a < x + 1 → is_code image.now a ≡ true → IsNoted image.now list.new.items a) }
{
    match instruction(image, x) {
        None => Ok(()),
        Some(i) => push_numbers(list, i),
    }
}

/// The numbers of all code.
fn code_numbers(alloc: Global, image: &Image) -> Result<Vec<i32>, Want>
    ensures { IfOk result (λ list. AreOfCode image.now list.items) }
{
    let mut list = Vec::new(alloc);
    let mut next = image.next_code(0);
    while let Some(x) = next {
        note(image, &mut list, x)?;
        next = behind(image, &list, x);
    }
    Ok(list)
}

/// The thresholds of a program: those that always are; of each word of code, reached or not, that compares with a number
/// the number and its neighbours, and that masks by a number whose sign is clear this number; and of each assertion on a
/// register the ends of its range and, where they fit 32 bits, the numbers beside them.
pub fn thresholds(alloc: Global, image: &Image, binding: &Binding) -> Result<Thresholds, Want>
    ensures { IfOk result (AreThresholdsOf image.now binding.now) }
{
    let mut list = code_numbers(alloc, image)?;
    push_asserted(&mut list, binding.assertions())?;
    Thresholds::make(alloc, &list)
}
