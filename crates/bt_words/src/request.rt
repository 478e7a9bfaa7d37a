//! What the words of a call ask for.
ghost use Rattle.std.specs.Prelude.{◌≡◌, ◌⊎◌, ◌↔◌, ◌≤◌, [], Some, true, codes, IfOk, IsErrOf, IsOk, option_and_then, option_map};
ghost use Rattle.clap.specs.Words.{fault_of, first_of, found_of, one_of, rows_of, subcommand_of, subcommand_rows_of, takes};
ghost use Rattle.bt_words.specs.App.{boundt_app};
ghost use Rattle.bt_words.specs.Match.{HasNumber, HasText, HasWorkerNumber, IsFilesMatch, IsGenMatch, IsMatch, IsMatched};
ghost use Rattle.bt_words.specs.Request.{HasFunctions, HasWorkers, IsRefused, IsRequest, asked_by, asked_of, bounds, decode_asked, files_asked, gen_asked, graphs, number_of, texts};

use crate::command::boundt;
use clap::ArgMatches;
use clap::error::ErrorKind;
use std::alloc::Global;

/// What the words of a call ask for.
#[derive(Clone, Copy, Debug, PartialEq, Eq)]
pub enum Request<'a> {
    /// Bound the image under these costs and assertions, by so many workers, 1 to 64.
    Bound {
        image: &'a str,
        cycles: &'a str,
        assertions: &'a str,
        workers: u32,
    },
    /// Show the graph of the image under these costs and assertions, by so many workers, 1 to 64.
    Graph {
        image: &'a str,
        cycles: &'a str,
        assertions: &'a str,
        workers: u32,
    },
    /// List the code of the image.
    Decode {
        image: &'a str,
    },
    /// Make an executable of so many functions, 1 to 4,000, and count and bound it, by so many workers, 1 to 64.
    Generate {
        functions: u32,
        workers: u32,
    },
}

/// Why the words ask for nothing.
#[derive(Clone, Copy, Debug, PartialEq, Eq)]
pub enum NoRequest {
    /// They are no command line.
    Usage,
    /// Memory was wanting.
    Want,
}

/// The value of this argument, which is there.
fn text_of<'a>(found: &ArgMatches<'a>, id: &str) -> &'a str
    requires { HasText id.now (rows_of (found_of found.now)) }
    ensures { first_of id.now (rows_of (found_of found.now)) ≡ Some result.now }
{
    found.get_str(id).unwrap()
}

/// The number of workers, 1 to 64.
fn workers_of(found: &ArgMatches<'_>) -> u32
    requires { HasWorkerNumber (rows_of (found_of found.now)) }
    ensures read { option_map number_of (one_of (codes "workers") (rows_of (found_of found.now))) ≡ Some result }
    ensures within { (1 ≤ result) × (result ≤ 64) }
{
    found.get_one::<u32>("workers").unwrap()
}

/// The number of functions, 1 to 4,000.
fn functions_of(found: &ArgMatches<'_>) -> u32
    requires { HasNumber (codes "N") 4000 (rows_of (found_of found.now)) }
    ensures read { option_map number_of (one_of (codes "N") (rows_of (found_of found.now))) ≡ Some result }
    ensures within { (1 ≤ result) × (result ≤ 4000) }
{
    found.get_one::<u32>("N").unwrap()
}

/// What the matches of `bound` ask for.
fn bound_of<'a>(found: &ArgMatches<'a>) -> Request<'a>
    requires { IsFilesMatch (rows_of (found_of found.now)) }
    ensures asked { files_asked bounds (rows_of (found_of found.now)) ≡ Some (asked_of result) }
    ensures workers { HasWorkers (asked_of result) }
    ensures functions { HasFunctions (asked_of result) }
{
    Request::Bound {
        image: text_of(found, "IMAGE"),
        cycles: text_of(found, "CYCLES"),
        assertions: text_of(found, "ASSERTIONS"),
        workers: workers_of(found),
    }
}

/// What the matches of `graph` ask for.
fn graph_of<'a>(found: &ArgMatches<'a>) -> Request<'a>
    requires { IsFilesMatch (rows_of (found_of found.now)) }
    ensures asked { files_asked graphs (rows_of (found_of found.now)) ≡ Some (asked_of result) }
    ensures workers { HasWorkers (asked_of result) }
    ensures functions { HasFunctions (asked_of result) }
{
    let image = text_of(found, "IMAGE");
    let cycles = text_of(found, "CYCLES");
    let assertions = text_of(found, "ASSERTIONS");
    let workers = workers_of(found);
    Request::Graph {
        image,
        cycles,
        assertions,
        workers,
    }
}

/// What the matches of `decode` ask for.
fn decode_of<'a>(found: &ArgMatches<'a>) -> Request<'a>
    requires { HasText (codes "IMAGE") (rows_of (found_of found.now)) }
    ensures asked { decode_asked (rows_of (found_of found.now)) ≡ Some (asked_of result) }
    ensures workers { HasWorkers (asked_of result) }
    ensures functions { HasFunctions (asked_of result) }
{
    let image = text_of(found, "IMAGE");
    Request::Decode { image }
}

/// What the matches of `gen` ask for.
fn gen_of<'a>(found: &ArgMatches<'a>) -> Request<'a>
    requires { IsGenMatch (rows_of (found_of found.now)) }
    ensures asked { gen_asked (rows_of (found_of found.now)) ≡ Some (asked_of result) }
    ensures workers { HasWorkers (asked_of result) }
    ensures functions { HasFunctions (asked_of result) }
{
    let functions = functions_of(found);
    let workers = workers_of(found);
    Request::Generate { functions, workers }
}

/// What the matches of the subcommand of this name ask for.
fn asked<'a>(name: &str, found: &ArgMatches<'a>) -> Request<'a>
    requires { IsMatch name.now (rows_of (found_of found.now)) }
    ensures asked { asked_by name.now (rows_of (found_of found.now)) ≡ Some (asked_of result) }
    ensures workers { HasWorkers (asked_of result) }
    ensures functions { HasFunctions (asked_of result) }
{
    match name {
        "bound" => bound_of(found),
        "graph" => graph_of(found),
        "decode" => decode_of(found),
        _ => gen_of(found),
    }
}

/// What the matches of the command line ask for.
fn request_in<'a>(matches: &ArgMatches<'a>) -> Request<'a>
    requires { IsMatched (subcommand_rows_of matches.now) }
    ensures asked { option_and_then (λ p. asked_by p.0 p.1) (subcommand_rows_of matches.now) ≡ Some (asked_of result) }
    ensures workers { HasWorkers (asked_of result) }
    ensures functions { HasFunctions (asked_of result) }
{
    let (name, found) = matches.subcommand().unwrap();
    asked(name, found)
}

/// Why a parse gave no matches.
fn refusal_of(kind: ErrorKind) -> NoRequest
    ensures { (result ≡ NoRequest.Want) ↔ (kind ≡ ErrorKind.OutOfMemory) }
{
    match kind {
        ErrorKind::OutOfMemory => NoRequest::Want,
        _ => NoRequest::Usage,
    }
}

/// The matches of the words, by the whole command line.
fn matches_of<'a>(alloc: Global, words: &'a [String]) -> Result<ArgMatches<'a>, NoRequest>
    ensures faultless { IfOk result (λ _. fault_of boundt_app (texts words.now) ≡ []) }
    ensures matches { IfOk result (λ m. subcommand_rows_of m ≡ subcommand_of boundt_app (texts words.now)) }
    ensures usage { IsErrOf result NoRequest.Usage → IsRefused (texts words.now) }
{
    let command = match boundt(alloc) {
        Ok(command) => command,
        Err(_) => return Err(NoRequest::Want),
    };
    match command.try_get_matches_from(words) {
        Ok(matches) => Ok(matches),
        Err(error) => Err(refusal_of(error.kind())),
    }
}

/// What the words of a call ask for. They are those after the program's name.
///
/// They are `bound IMAGE CYCLES ASSERTIONS [--workers N]`, the same with `graph`, `decode IMAGE`, or `gen N
/// [--workers N]`, where the first N is from 1 to 4,000. The option stands anywhere behind `bound`, `graph` or `gen`, at
/// most once, as `--workers N` or as `--workers=N`. After `--` there are no options, so a name that begins with a
/// hyphen, and is longer, stands there. Usage comes only for words that `clap` refuses for another cause than memory;
/// Want for want of memory alone.
pub fn request_of<'a>(alloc: Global, words: &'a [String]) -> Result<Request<'a>, NoRequest>
    // The words are without a fault, and ask for this.
    ensures ok { IfOk result (λ r. IsRequest (texts words.now) (asked_of r)) }

    // The words have a fault.
    ensures usage { IsErrOf result NoRequest.Usage → IsRefused (texts words.now) }

    // Words without a fault give their request, unless memory is wanting.
    ensures faultless { fault_of boundt_app (texts words.now) ≡ [] → IsOk result ⊎ IsErrOf result NoRequest.Want }
    ensures taken { takes boundt_app (texts words.now) ≡ true → IsOk result ⊎ IsErrOf result NoRequest.Want }
{
    let matches = matches_of(alloc, words)?;
    Ok(request_in(&matches))
}
