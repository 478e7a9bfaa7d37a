ghost use Rattle.std.specs.Prelude.{◌≡◌, All, IfOk};
ghost use Rattle.assert_bind.specs.Body.{SpeaksOfCodeIn};
ghost use Rattle.bound_task.specs.Problem.{IsProblemOf};

use assert_bind::Binding;
use bt_base::Want;
use bt_image::Image;
use cycle_table::Cycles;
use std::alloc::Global;
use transfer_fns::SparcSystem;

/// What is analysed: the system of an image and of assertions, and what its instructions cost.
#[derive(Drop)]
pub struct Problem {
    system: SparcSystem,
    cycles: Cycles,
}

impl Problem {
    /// The problem of an image, a table of cycles and assertions, which speak of code of this image, as binding gives
    /// them. Multiplications and divisions are followed with a table of version 2 alone.
    pub fn make(
        alloc: Global,
        image: Image,
        cycles: Cycles,
        binding: Binding,
    ) -> Result<Problem, Want>
        requires { All (SpeaksOfCodeIn image) binding }
        ensures { IfOk result (IsProblemOf image cycles binding) }
    {
        // The assertions of a binding speak of different things, and an image is one that was accepted.
        image.accepted();
        binding.sound();
        let eight = cycles.eight();
        let system = SparcSystem::make(alloc, image, binding, eight)?;
        system.thresholds().are_thresholds();
        Ok(Problem { system, cycles })
    }

    /// The system.
    pub fn system(&self) -> &SparcSystem
        ensures { result.now ≡ self.now.system }
    {
        &self.system
    }

    /// What instructions cost.
    pub fn cycles(&self) -> &Cycles
        ensures { result.now ≡ self.now.cycles }
    {
        &self.cycles
    }
}
