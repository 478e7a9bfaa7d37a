ghost use Rattle.transfer_fns.specs.Setting.{program_in};
ghost use Rattle.transfer_values.specs.Family.{family};

use abs_state::{AbsState, Place};
use assert_bind::Binding;
use bt_base::Want;
use bt_image::Image;
use jump_resolve::Resolved;
use std::alloc::Global;
use transfer_acts::{act_at, is_stub, skips};
use transfer_give::Transfers;
use transfer_rules::{Act, Aim, Step, Test};
use transfer_values::{narrowed, resolved, stepped, tested};
use value_lattice::Thresholds;

/// An image, assertions that are bound to it, whether the table of cycles is of version 2, and thresholds.
#[derive(Clone, Copy)]
pub struct Parts<'a> {
    /// The image.
    pub image: &'a Image,
    /// The assertions.
    pub binding: &'a Binding,
    /// Whether multiplications and divisions are followed.
    pub eight: bool,
    /// The thresholds.
    pub thresholds: &'a Thresholds,
}

impl<'a> Transfers for Parts<'a> {
    ghost thresholds = { λ x. x.thresholds.now };

    ghost family = { λ x. family x.thresholds.now x.image.now x.binding.now };

    ghost program = { λ x. program_in x.image.now x.binding.now x.eight };

    fn act(&self, p: Place) -> Act {
        act_at(self.image, self.binding, self.eight, p)
    }

    fn is_stub(&self, entry: u32) -> bool {
        is_stub(self.binding, entry)
    }

    fn skips(&self, p: Place) -> bool {
        skips(self.image, p)
    }

    fn narrow(&self, alloc: Global, p: Place, s: &AbsState) -> Result<Option<AbsState>, Want> {
        narrowed(alloc, self.thresholds, self.binding, p, s)
    }

    fn step(&self, alloc: Global, step: Step, s: AbsState) -> Result<Option<AbsState>, Want> {
        stepped(alloc, self.thresholds, self.image, step, s)
    }

    fn test(&self, alloc: Global, test: Test, s: &AbsState) -> Result<Option<AbsState>, Want> {
        tested(alloc, self.thresholds, test, s)
    }

    fn resolve(&self, alloc: Global, pc: u32, aim: Aim, s: &AbsState) -> Result<Resolved, Want> {
        resolved(alloc, self.thresholds, self.image, self.binding, pc, aim, s)
    }
}
