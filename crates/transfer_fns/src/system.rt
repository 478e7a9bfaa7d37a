ghost use Rattle.std.specs.Prelude.{◌≡◌, All, IfOk};
ghost use Rattle.assert_bind.specs.Body.{SpeaksOfCodeIn};
ghost use Rattle.code_thresholds.specs.Number.{AreThresholdsOf};
ghost use Rattle.transfer_fns.specs.Laws.{AreNumbers-prop, lawful_over};
ghost use Rattle.transfer_fns.specs.Numbers.{AreNumbers};
ghost use Rattle.transfer_fns.specs.Setting.{rules_over};

use crate::parts::Parts;
use abs_state::Key;
use assert_bind::Binding;
use bt_base::Want;
use bt_image::Image;
use code_thresholds::thresholds;
use flow_system::{Facts, System};
use std::alloc::Global;
use transfer_rules::Fact;
use value_lattice::Thresholds;

/// The system of an image and of the assertions that are bound to it.
///
/// Each program point gives what its instruction leads to: the states behind it, the steps to them, the calls that it
/// may make, what its subprogram may do, and what isn't followed.
#[derive(Drop)]
pub struct SparcSystem {
    image: Image,
    binding: Binding,
    eight: bool,
    thresholds: Thresholds,
    ghost numbers: { AreNumbers thresholds } by { AreNumbers-prop thresholds },
    ghost code: { ∥ All (SpeaksOfCodeIn image) binding ∥₁ },
}

impl SparcSystem {
    /// The system of an image and of assertions, over the thresholds of the program. The assertions speak of code of this
    /// image, as binding gives them. Multiplications and divisions are followed where `eight` is true, as with a table of
    /// cycles of version 2.
    pub fn make(
        alloc: Global,
        image: Image,
        binding: Binding,
        eight: bool,
    ) -> Result<SparcSystem, Want>
        requires { All (SpeaksOfCodeIn image) binding }
        ensures image { IfOk result (λ s. s.image ≡ image) }
        ensures binding { IfOk result (λ s. s.binding ≡ binding) }
        ensures eight { IfOk result (λ s. s.eight ≡ eight) }
        ensures thresholds { IfOk result (λ s. AreThresholdsOf image binding s.thresholds) }
    {
        let thresholds = thresholds(alloc, &image, &binding)?;
        Ok(SparcSystem::over(image, binding, eight, thresholds))
    }

    /// The system of an image and of assertions over thresholds. The assertions speak of code of this image, as binding
    /// gives them. Multiplications and divisions are followed where `eight` is true, as with a table of cycles of
    /// version 2.
    pub fn over(image: Image, binding: Binding, eight: bool, thresholds: Thresholds) -> SparcSystem
        requires { All (SpeaksOfCodeIn image) binding }
        ensures image { result.image ≡ image }
        ensures binding { result.binding ≡ binding }
        ensures eight { result.eight ≡ eight }
        ensures thresholds { result.thresholds ≡ thresholds }
    {
        thresholds.are_thresholds();
        SparcSystem {
            image,
            binding,
            eight,
            thresholds,
        }
    }

    /// The image.
    pub fn image(&self) -> &Image
        ensures { result.now ≡ self.now.image }
    {
        &self.image
    }

    /// The assertions.
    pub fn binding(&self) -> &Binding
        ensures { result.now ≡ self.now.binding }
    {
        &self.binding
    }

    /// The thresholds.
    pub fn thresholds(&self) -> &Thresholds
        ensures { result.now ≡ self.now.thresholds }
    {
        &self.thresholds
    }

    /// Whether multiplications and divisions are followed.
    pub fn eight(&self) -> bool
        ensures { result ≡ self.now.eight }
    {
        self.eight
    }

    /// Its parts.
    fn parts(&self) -> Parts<'_>
        ensures image { result.image.now ≡ self.now.image }
        ensures binding { result.binding.now ≡ self.now.binding }
        ensures eight { result.eight ≡ self.now.eight }
        ensures thresholds { result.thresholds.now ≡ self.now.thresholds }
    {
        Parts {
            image: &self.image,
            binding: &self.binding,
            eight: self.eight,
            thresholds: &self.thresholds,
        }
    }
}

impl System for SparcSystem {
    type Key = Key;

    type Val = Fact;

    ghost rules = { λ s. rules_over s.thresholds s.image s.binding s.eight };

    ghost lawful = { λ s. lawful_over s.thresholds s.image s.binding s.eight s.numbers };

    fn starts(&self, alloc: Global) -> Result<Vec<(Key, Fact)>, Want> {
        transfer_give::starts(alloc, self.binding.roots(), self.binding.stubs())
    }

    fn reads(&self, alloc: Global, k: Key) -> Result<Vec<Key>, Want> {
        transfer_give::reads(alloc, k)
    }

    fn give(
        &self,
        alloc: Global,
        k: Key,
        facts: &Facts<Key, Fact>,
    ) -> Result<Vec<(Key, Fact)>, Want> {
        transfer_give::give(&self.parts(), alloc, k, facts)
    }

    fn join(&self, alloc: Global, a: &Fact, b: &Fact) -> Result<Fact, Want> {
        transfer_give::join(alloc, a, b, &self.thresholds)
    }

    fn at_most(&self, a: &Fact, b: &Fact) -> bool {
        transfer_give::at_most(a, b, &self.thresholds)
    }

    fn copy(&self, alloc: Global, a: &Fact) -> Result<Fact, Want> {
        transfer_give::copy(alloc, a)
    }

    fn counted(&self, k: Key) -> bool {
        transfer_give::counted(k)
    }
}
