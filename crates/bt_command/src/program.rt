//! The program that the files of a call are.
ghost use Rattle.std.specs.Prelude.{◌≡◌, All, IfOk, IsErrOf};
ghost use Rattle.bt_base.specs.Shelf.{TellsTheSame, NoneFalls};
ghost use Rattle.bt_command.specs.Asks.{ReadsInOrder};
ghost use Rattle.bt_command.specs.Call.{reading_of};
ghost use Rattle.bt_command.specs.Files.{IsProblemOfFiles};
ghost use Rattle.bt_command.specs.Refusal.{Refuses};
ghost use Rattle.bt_command.specs.declared.status.Status.{Status};

use crate::inputs::{
    ASSERTIONS_LIMIT, IMAGE_LIMIT, NoFile, TABLE_LIMIT, assertions_from, cycles_from, image_from,
};
use crate::{LimitFault, Status};
use bound_task::Problem;
use bt_base::{Shelf, Want};
use std::alloc::Global;

/// The status of a file that is longer than its limit.
fn too_long(file: u32, limit: u64) -> Status
    ensures { result ≡ Status.Limit (LimitFault.TooLong file limit) }
{
    Status::Limit(LimitFault::TooLong { file, limit })
}

/// Reads the image, the table of cycles and the assertions under these names, in this order, each once the one before is
/// accepted, and makes the problem of them.
///
/// The first refusal is answered: of a file a failed read comes first, then its length, then its bytes. It is none of
/// what an analysis refuses.
#[tactic(auto, using(crate::proofs::Asks::read_image))]
pub fn problem_from<F: Shelf>(
    alloc: Global,
    image: &str,
    cycles: &str,
    assertions: &str,
    shelf: &mut F,
) -> Result<Problem, Status>
    ensures same { TellsTheSame (F.told shelf.old) (F.told shelf.new) }
    ensures counts { NoneFalls (F.faults shelf.old) (F.faults shelf.new) }
    ensures accepted { IfOk result (IsProblemOfFiles (reading_of F.told F.faults F.asked shelf.old shelf.new) (record { image = image.now; cycles = cycles.now; assertions = assertions.now })) }
    ensures refused { (status : Status) → IsErrOf result status →
        Refuses (record { image = image.now; cycles = cycles.now; assertions = assertions.now }) (reading_of F.told F.faults F.asked shelf.old shelf.new) status }
    ensures asks { ReadsInOrder (record { image = image.now; cycles = cycles.now; assertions = assertions.now }) (reading_of F.told F.faults F.asked shelf.old shelf.new) }
{
    let image = match image_from(alloc, shelf, image) {
        Ok(image) => image,
        Err(NoFile::Fault) => return Err(Status::ReadFault { file: 1 }),
        Err(NoFile::TooLong) => return Err(too_long(1, IMAGE_LIMIT)),
        Err(NoFile::Refused(refusal)) => return Err(Status::Image(refusal)),
        Err(NoFile::Want) => return Err(Status::Want),
    };
    let cycles = match cycles_from(alloc, shelf, cycles) {
        Ok(cycles) => cycles,
        Err(NoFile::Fault) => return Err(Status::ReadFault { file: 2 }),
        Err(NoFile::TooLong) => return Err(too_long(2, TABLE_LIMIT)),
        Err(NoFile::Refused(refusal)) => return Err(Status::Cycles(refusal)),
        Err(NoFile::Want) => return Err(Status::Want),
    };
    let binding = match assertions_from(alloc, shelf, assertions, &image) {
        Ok(binding) => binding,
        Err(NoFile::Fault) => return Err(Status::ReadFault { file: 3 }),
        Err(NoFile::TooLong) => return Err(too_long(3, ASSERTIONS_LIMIT)),
        Err(NoFile::Refused(fault)) => return Err(Status::Assertions(fault)),
        Err(NoFile::Want) => return Err(Status::Want),
    };
    match Problem::make(alloc, image, cycles, binding) {
        Ok(problem) => Ok(problem),
        Err(Want) => Err(Status::Want),
    }
}
