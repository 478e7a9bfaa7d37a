//! The files of a call, read and checked.
ghost use Rattle.std.specs.Prelude.{◌≡◌, ◌<◌, ℕ, length, All, IfOk, IfSome, IsErrOf};
ghost use Rattle.assert_bind.specs.Body.{SpeaksOfCodeIn};
ghost use Rattle.bt_base.specs.Ask.{IsReading};
ghost use Rattle.bt_base.specs.Shelf.{TellsTheSame, NoneFalls, Rose};
ghost use Rattle.bt_image.specs.declared.refusal.ImageRefusal.{ImageRefusal};
ghost use Rattle.cycle_table.specs.declared.refusal.CycleRefusal.{CycleRefusal};
ghost use Rattle.bt_command.specs.declared.status.AssertFault.{AssertFault};
ghost use Rattle.bt_command.specs.Call.{longest_image, longest_table, longest_assertions, HasFile, HasImage, HasCosts, HasAssertions, IsNoImage, IsNoTable, StatesNothing};

use crate::AssertFault;
use assert_bind::{BindRefusal, Binding, bind};
use assert_lang::{AssertRefusal, parse};
use bt_base::{ReadRefusal, Shelf, read_all};
use bt_image::{Image, ImageRefusal};
use cycle_table::{CycleRefusal, Cycles};
use std::alloc::Global;

/// The most bytes of an image: 16 MiB.
pub const IMAGE_LIMIT: u64 = 16_777_216;

/// The most bytes of a table of cycles: 1 MiB.
pub const TABLE_LIMIT: u64 = 1_048_576;

/// The most bytes of a file of assertions: 1 MiB.
pub const ASSERTIONS_LIMIT: u64 = 1_048_576;

/// Why a file wasn't accepted; `R` says why its bytes are refused.
#[derive(Clone, Copy, Debug, PartialEq, Eq)]
pub enum NoFile<R> {
    /// A read failed.
    Fault,
    /// The file is longer than its limit.
    TooLong,
    /// The bytes are refused.
    Refused(R),
    /// Memory was wanting.
    Want,
}

/// The image under a name.
pub fn image_from<F: Shelf>(
    alloc: Global,
    shelf: &mut F,
    name: &str,
) -> Result<Image, NoFile<ImageRefusal>>
    ensures same { TellsTheSame (F.told shelf.old) (F.told shelf.new) }
    ensures counts { NoneFalls (F.faults shelf.old) (F.faults shelf.new) }
    ensures asked { IsReading name.now longest_image (F.asked shelf.old) (F.asked shelf.new) }
    ensures accepted { IfOk result (λ image. HasImage (F.told shelf.old name.now) image) }
    ensures fault { IsErrOf result NoFile.Fault → Rose (F.faults shelf.old name.now) (F.faults shelf.new name.now) }
    ensures too_long { IsErrOf result NoFile.TooLong → IfSome (F.told shelf.old name.now) (λ bytes. longest_image < length bytes) }
    ensures refused { (refusal : ImageRefusal) → IsErrOf result (NoFile.Refused refusal) →
        IsNoImage (F.told shelf.old name.now) refusal }
{
    let bytes = match read_all(alloc, shelf, name, IMAGE_LIMIT) {
        Ok(bytes) => bytes,
        Err(ReadRefusal::Fault) => return Err(NoFile::Fault),
        Err(ReadRefusal::TooLong { .. }) => return Err(NoFile::TooLong),
        Err(ReadRefusal::Want) => return Err(NoFile::Want),
    };
    match Image::read(alloc, &bytes) {
        Ok(image) => Ok(image),
        Err(ImageRefusal::Want) => Err(NoFile::Want),
        Err(refusal) => Err(NoFile::Refused(refusal)),
    }
}

/// The table of cycles under a name.
pub fn cycles_from<F: Shelf>(
    alloc: Global,
    shelf: &mut F,
    name: &str,
) -> Result<Cycles, NoFile<CycleRefusal>>
    ensures same { TellsTheSame (F.told shelf.old) (F.told shelf.new) }
    ensures counts { NoneFalls (F.faults shelf.old) (F.faults shelf.new) }
    ensures asked { IsReading name.now longest_table (F.asked shelf.old) (F.asked shelf.new) }
    ensures accepted { IfOk result (λ cycles. HasCosts (F.told shelf.old name.now) cycles) }
    ensures fault { IsErrOf result NoFile.Fault → Rose (F.faults shelf.old name.now) (F.faults shelf.new name.now) }
    ensures too_long { IsErrOf result NoFile.TooLong → IfSome (F.told shelf.old name.now) (λ bytes. longest_table < length bytes) }
    ensures refused { (refusal : CycleRefusal) → IsErrOf result (NoFile.Refused refusal) →
        IsNoTable (F.told shelf.old name.now) refusal }
{
    let bytes = match read_all(alloc, shelf, name, TABLE_LIMIT) {
        Ok(bytes) => bytes,
        Err(ReadRefusal::Fault) => return Err(NoFile::Fault),
        Err(ReadRefusal::TooLong { .. }) => return Err(NoFile::TooLong),
        Err(ReadRefusal::Want) => return Err(NoFile::Want),
    };
    match Cycles::read(&bytes) {
        Ok(cycles) => Ok(cycles),
        Err(refusal) => Err(NoFile::Refused(refusal)),
    }
}

/// What the file of assertions under a name states of an image.
pub fn assertions_from<F: Shelf>(
    alloc: Global,
    shelf: &mut F,
    name: &str,
    image: &Image,
) -> Result<Binding, NoFile<AssertFault>>
    ensures same { TellsTheSame (F.told shelf.old) (F.told shelf.new) }
    ensures counts { NoneFalls (F.faults shelf.old) (F.faults shelf.new) }
    ensures asked { IsReading name.now longest_assertions (F.asked shelf.old) (F.asked shelf.new) }
    ensures accepted { IfOk result (λ binding. HasAssertions (F.told shelf.old name.now) image.now binding) }
    ensures code { IfOk result (All (SpeaksOfCodeIn image.now)) }
    ensures fault { IsErrOf result NoFile.Fault → Rose (F.faults shelf.old name.now) (F.faults shelf.new name.now) }
    ensures too_long { IsErrOf result NoFile.TooLong → IfSome (F.told shelf.old name.now) (λ bytes. longest_assertions < length bytes) }
    ensures refused { (fault : AssertFault) → IsErrOf result (NoFile.Refused fault) →
        StatesNothing (F.told shelf.old name.now) image.now fault }
{
    let bytes = match read_all(alloc, shelf, name, ASSERTIONS_LIMIT) {
        Ok(bytes) => bytes,
        Err(ReadRefusal::Fault) => return Err(NoFile::Fault),
        Err(ReadRefusal::TooLong { .. }) => return Err(NoFile::TooLong),
        Err(ReadRefusal::Want) => return Err(NoFile::Want),
    };
    let list = match parse(alloc, &bytes) {
        Ok(list) => list,
        Err(AssertRefusal::Want) => return Err(NoFile::Want),
        Err(refusal) => return Err(NoFile::Refused(AssertFault::Parse(refusal))),
    };
    match bind(alloc, list.as_slice(), image) {
        Ok(binding) => Ok(binding),
        Err(BindRefusal::Want) => Err(NoFile::Want),
        Err(refusal) => Err(NoFile::Refused(AssertFault::Bind(refusal))),
    }
}
