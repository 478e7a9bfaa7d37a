//! What single assertions are bound to.
ghost use Rattle.std.specs.Prelude.{◌≡◌, MatchResult, IfOk};
ghost use Rattle.assert_lang.specs.Bounds.{IsWithin as IsWrittenWithin};
ghost use Rattle.assert_bind.specs.Body.{bound_body, ranged, IsCode, IsRefusalOf, IsWithin, SpeaksOfCode};

use crate::placing::{bound_place, bound_places};
use crate::{BindRefusal, BoundBody};
use assert_lang::Body;
use bt_image::Image;
use std::alloc::Global;

/// A range of a register's word at an instruction.
fn ranged(line: u32, pc: u32, reg: u8, lo: i32, hi: i32) -> Result<BoundBody, BindRefusal>
    ensures { result ≡ ranged line reg lo hi pc }
{
    if lo <= hi {
        Ok(BoundBody::At { pc, reg, lo, hi })
    } else {
        Err(BindRefusal::EmptyRange { line })
    }
}

/// What an assertion in a line is bound to.
pub fn bound_body(
    alloc: Global,
    image: &Image,
    line: u32,
    body: &Body,
) -> Result<BoundBody, BindRefusal>
    ensures value { MatchResult result (λ says. bound_body image.now line body.now ≡ Ok says) (IsRefusalOf (bound_body image.now line body.now)) }
    ensures code { IfOk result (SpeaksOfCode image.now) }
    ensures within { IsWrittenWithin body.now → IfOk result IsWithin }
{
    match body {
        Body::Root(spot) => {
            let entry = bound_place(image, line, spot)?;
            Ok(BoundBody::Root(entry))
        }
        Body::Never(spot) => {
            let pc = bound_place(image, line, spot)?;
            Ok(BoundBody::Never(pc))
        }
        Body::At { spot, reg, lo, hi } => {
            let pc = bound_place(image, line, spot)?;
            ranged(line, pc, *reg, *lo, *hi)
        }
        Body::Jump { spot, to } => {
            let pc = bound_place(image, line, spot)?;
            let to = bound_places(alloc, image, line, to.as_slice())?;
            Ok(BoundBody::Jump { pc, to })
        }
        Body::CallTo { spot, to } => {
            let pc = bound_place(image, line, spot)?;
            let to = bound_places(alloc, image, line, to.as_slice())?;
            Ok(BoundBody::CallTo { pc, to })
        }
        Body::Loop { spot, count } => {
            let pc = bound_place(image, line, spot)?;
            Ok(BoundBody::Loop { pc, count: *count })
        }
        Body::Stub { spot, time } => {
            let entry = bound_place(image, line, spot)?;
            Ok(BoundBody::Stub { entry, time: *time })
        }
    }
}
