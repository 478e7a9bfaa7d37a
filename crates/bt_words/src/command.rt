//! The command line of boundt, as `clap` reads it: one command with subcommands of one level.
ghost use Rattle.std.specs.Prelude.{◌≡◌, IfOk, false};
ghost use Rattle.clap.specs.Words.{app_of, rule_of};
ghost use Rattle.clap.specs.declared.builder.Command.TheViews.{out-Command as fields_of};
ghost use Rattle.bt_words.specs.App.{bound_app, boundt_app, decode_app, files_app, functions_rule, gen_app, graph_app, name_rule, two_app, workers_rule};

use clap::{Arg, Command, value_parser};
use std::alloc::{AllocError, Global};

/// A name that has to be there.
fn name<'a>(alloc: Global, id: &'a str) -> Arg<'a>
    ensures rule { rule_of result ≡ name_rule id.entry.now }
    ensures local { result.global ≡ false }
{
    Arg::new(alloc, id).required(true)
}

/// The number of workers, from 1 to 64; it is 1 where none is given.
fn workers<'a>(alloc: Global) -> Arg<'a>
    ensures rule { rule_of result ≡ workers_rule }
    ensures local { result.global ≡ false }
{
    Arg::new(alloc, "workers")
        .long("workers")
        .value_parser(value_parser!(u32).range(1..=64))
        .default_value("1")
}

/// The number of functions, from 1 to 4,000, which has to be there.
fn functions<'a>(alloc: Global) -> Arg<'a>
    ensures rule { rule_of result ≡ functions_rule }
    ensures local { result.global ≡ false }
{
    Arg::new(alloc, "N")
        .required(true)
        .value_parser(value_parser!(u32).range(1..=4000))
}

/// A subcommand that is given `IMAGE CYCLES ASSERTIONS [--workers N]`.
fn files<'a>(alloc: Global, command: &'a str) -> Result<Command<'a>, AllocError>
    ensures app { IfOk result (λ c. app_of c ≡ files_app command.entry.now) }
    ensures local { IfOk result (λ c. (fields_of c).has_globals ≡ false) }
{
    let image = name(alloc, "IMAGE");
    let cycles = name(alloc, "CYCLES");
    let assertions = name(alloc, "ASSERTIONS");
    let workers = workers(alloc);
    let empty = Command::new(alloc, command);
    let one = empty.arg(image)?;
    let two = one.arg(cycles)?;
    let three = two.arg(assertions)?;
    three.arg(workers)
}

/// `bound IMAGE CYCLES ASSERTIONS [--workers N]`.
fn bound<'a>(alloc: Global) -> Result<Command<'a>, AllocError>
    ensures app { IfOk result (λ c. app_of c ≡ bound_app) }
    ensures local { IfOk result (λ c. (fields_of c).has_globals ≡ false) }
{
    files(alloc, "bound")
}

/// `graph IMAGE CYCLES ASSERTIONS [--workers N]`.
fn graph<'a>(alloc: Global) -> Result<Command<'a>, AllocError>
    ensures app { IfOk result (λ c. app_of c ≡ graph_app) }
    ensures local { IfOk result (λ c. (fields_of c).has_globals ≡ false) }
{
    files(alloc, "graph")
}

/// `decode IMAGE`.
fn decode<'a>(alloc: Global) -> Result<Command<'a>, AllocError>
    ensures app { IfOk result (λ c. app_of c ≡ decode_app) }
    ensures local { IfOk result (λ c. (fields_of c).has_globals ≡ false) }
{
    let image = name(alloc, "IMAGE");
    Command::new(alloc, "decode").arg(image)
}

/// `gen N [--workers N]`.
fn generate<'a>(alloc: Global) -> Result<Command<'a>, AllocError>
    ensures app { IfOk result (λ c. app_of c ≡ gen_app) }
    ensures local { IfOk result (λ c. (fields_of c).has_globals ≡ false) }
{
    let functions = functions(alloc);
    let workers = workers(alloc);
    let one = Command::new(alloc, "gen").arg(functions)?;
    one.arg(workers)
}

/// The command line with its first two subcommands.
fn with_two<'a>(alloc: Global) -> Result<Command<'a>, AllocError>
    ensures { IfOk result (λ c. app_of c ≡ two_app) }
{
    let bound = bound(alloc)?;
    let graph = graph(alloc)?;
    let top = Command::new(alloc, "boundt")
        .no_binary_name(true)
        .disable_help_flag(true)
        .disable_help_subcommand(true)
        .subcommand_required(true);
    let first = top.subcommand(bound)?;
    first.subcommand(graph)
}

/// The whole command line. Its words begin after the program's name, and it has neither help nor version.
pub(crate) fn boundt<'a>(alloc: Global) -> Result<Command<'a>, AllocError>
    ensures { IfOk result (λ c. app_of c ≡ boundt_app) }
{
    let two = with_two(alloc)?;
    let decode = decode(alloc)?;
    let three = two.subcommand(decode)?;
    let generate = generate(alloc)?;
    three.subcommand(generate)
}
