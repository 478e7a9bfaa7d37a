//! The labels of a file, and its functions whose entries stand in words.
ghost use Rattle.std.specs.Prelude.{◌≡◌, ℕ, All, Contains, IfOk};
ghost use Rattle.bt_image.specs.Extent.{Rise};
ghost use Rattle.bt_image.specs.File.{section_count};
ghost use Rattle.bt_image.specs.Label.{AreExactly, IsLabel, IsLabelWithin, IsTaken};
ghost use Rattle.bt_image.specs.Loaded.{AreLoaded};
ghost use Rattle.bt_image.specs.Symbol.{functions};

use crate::rising::{between, shared};
use crate::section::{Access, Section};
use crate::values::values;
use std::alloc::{AllocError, Global};

/// The labels, rising: the code addresses that stand in an aligned word of a read-only section.
pub fn labels(alloc: Global, file: &[u8], loaded: &[Section]) -> Result<Vec<u32>, AllocError>
    requires { AreLoaded file.now (section_count file.now) loaded.now }
    ensures { IfOk result (λ labels. AreExactly (IsLabel file.now) labels.items) }
{
    let labels = values(alloc, file, loaded, Access::ReadOnly)?;
    Ok(labels)
}

/// The functions whose entry stands in an aligned word of a loaded section, rising.
pub fn taken_functions(
    alloc: Global,
    file: &[u8],
    loaded: &[Section],
    addresses: &[u32],
) -> Result<Vec<u32>, AllocError>
    requires table { AreLoaded file.now (section_count file.now) loaded.now }
    requires addresses { addresses.now ≡ functions file.now }
    requires rise { Rise addresses.now }
    ensures { IfOk result (λ taken. AreExactly (IsTaken file.now) taken.items) }
{
    let values = values(alloc, file, loaded, Access::Loaded)?;
    let taken = shared(alloc, addresses, &values)?;
    Ok(taken)
}

/// The labels from `low` to below `high`.
pub fn labels_in<'a>(file: &[u8], labels: &'a [u32], low: u32, high: u64) -> &'a [u32]
    requires { AreExactly (IsLabel file.now) labels.now }
    ensures rise { Rise result.now }
    ensures each { All (IsLabelWithin file.now low high) result.now }
    ensures all { (a : ℕ) → IsLabelWithin file.now low high a → Contains result.now a }
{
    between(labels, low, high)
}
