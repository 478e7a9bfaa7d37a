//! The commands, and the call that runs them.
ghost use Rattle.std.specs.Prelude.{◌≡◌, ◌≤◌, ℕ, List};
ghost use Rattle.bt_base.specs.Ask.{IsReading};
ghost use Rattle.bt_base.specs.Shelf.{TellsTheSame, NoneFalls};
ghost use Rattle.bt_words.specs.Request.{texts};
ghost use Rattle.bt_command.specs.Answer.{Answers, HoldsOfRuns, Writes};
ghost use Rattle.bt_command.specs.Asks.{AsksInOrder, ReadsInOrder};
ghost use Rattle.bt_command.specs.Bound.{BoundSays, BoundShows};
ghost use Rattle.bt_command.specs.Call.{call_of, reading_of, longest_image};
ghost use Rattle.bt_command.specs.Decode.{DecodeSays};
ghost use Rattle.bt_command.specs.Graph.{GraphSays, GraphShows};

use crate::generating::generate;
use crate::graphing::graph_of;
use crate::inputs::{IMAGE_LIMIT, NoFile, image_from};
use crate::program::problem_from;
use crate::reporting::report_of;
use crate::{LimitFault, Status};
use bt_base::{Shelf, Sink, write_all};
use bt_words::{NoRequest, Request, request_of};
use sparc_text::listing;
use std::alloc::Global;

/// The command `bound`: reads the image, the table and the assertions, makes the report and writes it.
fn bound<F: Shelf, K: Sink>(
    alloc: Global,
    image: &str,
    cycles: &str,
    assertions: &str,
    shelf: &mut F,
    out: &mut K,
) -> Status
    ensures same { TellsTheSame (F.told shelf.old) (F.told shelf.new) }
    ensures counts { NoneFalls (F.faults shelf.old) (F.faults shelf.new) }
    ensures sink_counts { K.faults out.old ≤ K.faults out.new }
    ensures says { BoundSays (record { image = image.now; cycles = cycles.now; assertions = assertions.now }) (call_of F.told F.faults F.asked K.told K.faults shelf.old shelf.new out.old out.new) result }
    ensures shows { BoundShows (record { image = image.now; cycles = cycles.now; assertions = assertions.now }) (call_of F.told F.faults F.asked K.told K.faults shelf.old shelf.new out.old out.new) result }
    ensures writes { Writes (call_of F.told F.faults F.asked K.told K.faults shelf.old shelf.new out.old out.new) result }
    ensures asks { ReadsInOrder (record { image = image.now; cycles = cycles.now; assertions = assertions.now }) (reading_of F.told F.faults F.asked shelf.old shelf.new) }
{
    let problem = match problem_from(alloc, image, cycles, assertions, shelf) {
        Ok(problem) => problem,
        Err(status) => return status,
    };
    let report = match report_of(alloc, &problem) {
        Ok(report) => report,
        Err(status) => return status,
    };
    match write_all(out, &report.text) {
        Ok(()) => if report.bounded {
            Status::Bounded
        } else {
            Status::Unbounded
        },
        Err(unwritten) => Status::WriteFault {
            written: unwritten.written,
        },
    }
}

/// The command `graph`: reads the image, the table and the assertions, makes the text of the due graph and writes it.
fn graph<F: Shelf, K: Sink>(
    alloc: Global,
    image: &str,
    cycles: &str,
    assertions: &str,
    shelf: &mut F,
    out: &mut K,
) -> Status
    ensures same { TellsTheSame (F.told shelf.old) (F.told shelf.new) }
    ensures counts { NoneFalls (F.faults shelf.old) (F.faults shelf.new) }
    ensures sink_counts { K.faults out.old ≤ K.faults out.new }
    ensures says { GraphSays (record { image = image.now; cycles = cycles.now; assertions = assertions.now }) (call_of F.told F.faults F.asked K.told K.faults shelf.old shelf.new out.old out.new) result }
    ensures shows { GraphShows (record { image = image.now; cycles = cycles.now; assertions = assertions.now }) (call_of F.told F.faults F.asked K.told K.faults shelf.old shelf.new out.old out.new) result }
    ensures writes { Writes (call_of F.told F.faults F.asked K.told K.faults shelf.old shelf.new out.old out.new) result }
    ensures asks { ReadsInOrder (record { image = image.now; cycles = cycles.now; assertions = assertions.now }) (reading_of F.told F.faults F.asked shelf.old shelf.new) }
{
    let problem = match problem_from(alloc, image, cycles, assertions, shelf) {
        Ok(problem) => problem,
        Err(status) => return status,
    };
    let text = match graph_of(alloc, &problem) {
        Ok(text) => text,
        Err(status) => return status,
    };
    match write_all(out, &text) {
        Ok(()) => Status::Bounded,
        Err(unwritten) => Status::WriteFault {
            written: unwritten.written,
        },
    }
}

/// The command `decode`: reads the image, makes its listing and writes it.
pub fn decode<F: Shelf, K: Sink>(alloc: Global, image: &str, shelf: &mut F, out: &mut K) -> Status
    ensures asks { IsReading image.now longest_image (F.asked shelf.old) (F.asked shelf.new) }
    ensures same { TellsTheSame (F.told shelf.old) (F.told shelf.new) }
    ensures counts { NoneFalls (F.faults shelf.old) (F.faults shelf.new) }
    ensures sink_counts { K.faults out.old ≤ K.faults out.new }
    ensures says { DecodeSays image.now (call_of F.told F.faults F.asked K.told K.faults shelf.old shelf.new out.old out.new) result }
    ensures writes { Writes (call_of F.told F.faults F.asked K.told K.faults shelf.old shelf.new out.old out.new) result }
{
    let image = match image_from(alloc, shelf, image) {
        Ok(image) => image,
        Err(NoFile::Fault) => return Status::ReadFault { file: 1 },
        Err(NoFile::TooLong) => {
            return Status::Limit(LimitFault::TooLong {
                file: 1,
                limit: IMAGE_LIMIT,
            });
        }
        Err(NoFile::Refused(refusal)) => return Status::Image(refusal),
        Err(NoFile::Want) => return Status::Want,
    };
    let text = match listing(alloc, &image) {
        Ok(text) => text,
        Err(_) => return Status::Want,
    };
    match write_all(out, &text) {
        Ok(()) => Status::Bounded,
        Err(unwritten) => Status::WriteFault {
            written: unwritten.written,
        },
    }
}

/// Runs the command that the words ask for, reads its files from the shelf, and writes its text to the sink.
///
/// The words are those after the program's name: `bound IMAGE CYCLES ASSERTIONS [--workers N]`, the same with `graph`,
/// `decode IMAGE`, or `gen N [--workers M]`. `bound` writes the report, `graph` the due graph, `decode` the listing, `gen`
/// one line of an executable of so many functions that it makes. One worker works whatever the number of workers is. The
/// status is Bounded where the whole text is written, but Unbounded where it is a report in which some root has no bound.
/// What is refused is refused in this order: the words, the image, the table of cycles, the assertions as a text and then
/// as bound to the image, more program points than 131,072, an asserted loop that no loop matches, more contexts than
/// 4,096. Of a file a failed read comes first, then its length, then its bytes. Nothing is written before the whole text
/// stands.
pub fn run_alone<F: Shelf, K: Sink>(
    alloc: Global,
    words: &[String],
    shelf: &mut F,
    out: &mut K,
) -> Status
    // What the shelf tells stays, and no count of faults falls.
    ensures same { TellsTheSame (F.told shelf.old) (F.told shelf.new) }
    ensures counts { NoneFalls (F.faults shelf.old) (F.faults shelf.new) }
    ensures sink_counts { K.faults out.old ≤ K.faults out.new }
    // The words are refused, or what the status says of the call is true, accepted files give the whole text, and files
    // that are told come to the first refusal of their bytes.
    ensures answers { Answers (texts words.now) (call_of F.told F.faults F.asked K.told K.faults shelf.old shelf.new out.old out.new) result }
    // The report written is the one that the due graph defines; and every trap-free run that meets the assertions follows, up
    // to its first open instruction, only that graph's edges, passes each loop head at most its bound, and never spends in a
    // call more than the bound printed for its context. The graph written is the due graph, and is followed so.
    ensures runs { HoldsOfRuns (texts words.now) (call_of F.told F.faults F.asked K.told K.faults shelf.old shelf.new out.old out.new) result }
    // Nothing is asked of the shelf but the files that the words name, in their order, each only once the one before is
    // accepted.
    ensures asks { AsksInOrder (texts words.now) (call_of F.told F.faults F.asked K.told K.faults shelf.old shelf.new out.old out.new) }
    // With any status but that of the whole text and that of a text cut short nothing was put into the sink.
    ensures writes { Writes (call_of F.told F.faults F.asked K.told K.faults shelf.old shelf.new out.old out.new) result }
{
    match request_of(alloc, words) {
        Ok(
            Request::Bound {
                image,
                cycles,
                assertions,
                ..
            },
        ) => bound(alloc, image, cycles, assertions, shelf, out),
        Ok(
            Request::Graph {
                image,
                cycles,
                assertions,
                ..
            },
        ) => graph(alloc, image, cycles, assertions, shelf, out),
        Ok(Request::Decode { image }) => decode(alloc, image, shelf, out),
        Ok(Request::Generate { functions, .. }) => generate(alloc, functions, out),
        Err(NoRequest::Usage) => Status::Usage,
        Err(NoRequest::Want) => Status::Want,
    }
}
