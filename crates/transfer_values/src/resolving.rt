ghost use Rattle.std.specs.Prelude.{◌≡◌, ℕ, ◌∷◌, [], true, IfOk, All, Contains};
ghost use Rattle.bt_image.specs.Extent.{IsExtent, Rise};
ghost use Rattle.bt_image.specs.Image.{is_code};
ghost use Rattle.bt_image.specs.Label.{IsLabelWithin, IsTaken};
ghost use Rattle.abs_state.specs.State.{is_state_over};
ghost use Rattle.transfer_values.specs.Resolve.{taken_functions, labels_near, candidates, resolved};

use crate::operands::applied;
use abs_state::AbsState;
use assert_bind::Binding;
use bt_base::Want;
use bt_image::Image;
use jump_resolve::{Resolved, TargetList, targets};
use std::alloc::Global;
use transfer_rules::{Aim, Candidates};
use value_lattice::Thresholds;
use value_ops::Op;

/// Functions that rise, where they are those whose entries stand in words.
fn as_taken<'a>(image: &Image, taken: &'a [u32]) -> &'a [u32]
    requires rise { Rise taken.now }
    requires each { All (IsTaken image.now) taken.now }
    requires all { (a : ℕ) → IsTaken image.now a → Contains taken.now a }
    ensures { result.now ≡ taken_functions image.now }
{
    let _image = image;
    taken
}

/// The functions whose entries stand in words, rising.
fn taken_functions(image: &Image) -> &[u32]
    ensures { result.now ≡ taken_functions image.now }
{
    as_taken(image, image.taken_functions())
}

/// Labels that rise, where they are those in the extent of a code address.
fn as_labels<'a>(image: &Image, pc: u32, extent: (u32, u64), labels: &'a [u32]) -> &'a [u32]
    requires code { is_code image.now pc ≡ true }
    requires extent { IsExtent image.now pc extent.0 extent.1 }
    requires rise { Rise labels.now }
    requires each { All (IsLabelWithin image.now extent.0 extent.1) labels.now }
    requires all { (a : ℕ) → IsLabelWithin image.now extent.0 extent.1 a → Contains labels.now a }
    ensures { result.now ≡ labels_near image.now pc }
{
    let _image = image;
    let _pc = pc;
    let _extent = extent;
    labels
}

/// The labels in the extent of an address, rising: none where no code is there.
fn labels_near(image: &Image, pc: u32) -> &[u32]
    ensures { result.now ≡ labels_near image.now pc }
{
    if !image.code(pc) {
        return &[];
    }
    let (low, high) = image.extent(pc);
    as_labels(image, pc, (low, high), image.labels(low, high))
}

/// The addresses that the computed transfer at an address may go to where no assertion lists them, rising.
fn candidates(image: &Image, pc: u32, kind: Candidates) -> &[u32]
    ensures { result.now ≡ candidates image.now pc kind }
{
    match kind {
        Candidates::Functions => taken_functions(image),
        Candidates::Labels => labels_near(image, pc),
    }
}

/// The one target of a transfer.
fn fixed(alloc: Global, target: u32) -> Result<Resolved, Want>
    ensures { IfOk result (λ r. r ≡ record { list = target ∷ []; whole = true }) }
{
    let mut addresses = Vec::new(alloc);
    addresses.push(target)?;
    Ok(Resolved {
        list: TargetList::new(addresses),
        whole: true,
    })
}

/// Where the transfer at an address goes, of the state before it, over thresholds: its one target; or the targets among
/// those that an assertion lists for it; or else those among the functions whose entries stand in words, or the labels in
/// its extent.
pub fn resolved(
    alloc: Global,
    t: &Thresholds,
    image: &Image,
    binding: &Binding,
    pc: u32,
    aim: Aim,
    state: &AbsState,
) -> Result<Resolved, Want>
    requires { is_state_over t.now state.now ≡ true }
    ensures { IfOk result (λ r. r ≡ resolved t.now image.now binding.now pc aim state.now) }
{
    match aim {
        Aim::Fixed(target) => fixed(alloc, target),
        Aim::Computed {
            left,
            right,
            candidates: kind,
        } => {
            let v = applied(alloc, t, Op::Add, state, left, right)?;
            match binding.listed(pc) {
                Some(to) => targets(alloc, &v, to, true, image),
                None => targets(alloc, &v, candidates(image, pc, kind), false, image),
            }
        }
    }
}
