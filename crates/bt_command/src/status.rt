ghost use Rattle.std.specs.Prelude.{◌≡◌, IfOk, string_bytes};
ghost use Rattle.std.specs.Process.{exit_status};
ghost use Rattle.bt_command.specs.Status.{code_of, message_of};

use crate::messages::{bind_text, cycles_text, image_text, parse_text};
use assert_bind::BindRefusal;
use assert_lang::AssertRefusal;
use bt_base::Want;
use bt_image::ImageRefusal;
use cycle_table::CycleRefusal;
use std::alloc::Global;
use std::process::ExitCode;

/// What a call of the program came to.
#[derive(Clone, Copy, Debug, PartialEq, Eq)]
pub enum Status {
    /// The whole text was written, and in a report each root has a bound.
    Bounded,
    /// The whole report was written, and some root has no bound.
    Unbounded,
    /// The words are no command.
    Usage,
    /// The image is none, for this reason.
    Image(ImageRefusal),
    /// The table of cycles is none, for this reason.
    Cycles(CycleRefusal),
    /// The assertions are none, or can't be bound to the image, for this reason.
    Assertions(AssertFault),
    /// A read of this file failed; files are numbered from 1, in the order of the words.
    ReadFault { file: u32 },
    /// A write failed after so many bytes of the text.
    WriteFault { written: u64 },
    /// Memory was wanting.
    Want,
    /// A limit is passed.
    Limit(LimitFault),
}

/// Why a file of assertions isn't accepted.
#[derive(Clone, Copy, Debug, PartialEq, Eq)]
pub enum AssertFault {
    /// It is no list of assertions.
    Parse(AssertRefusal),
    /// An assertion can't be bound to the image.
    Bind(BindRefusal),
    /// No loop of the program matches that of an assertion; this is the least of the lines of such assertions.
    Unmatched { line: u32 },
}

/// Which limit is passed.
#[derive(Clone, Copy, Debug, PartialEq, Eq)]
pub enum LimitFault {
    /// This file has more than `limit` bytes.
    TooLong { file: u32, limit: u64 },
    /// The due graph has more program points than its limit; `count` is one more than that limit.
    Nodes { count: u64 },
    /// More contexts are needed than their limit; `count` is one more than that limit.
    Contexts { count: u64 },
}

impl Status {
    /// The exit status of the program.
    pub fn code(&self) -> u8
        ensures { result ≡ code_of self.now }
    {
        match self {
            Status::Bounded => 0,
            Status::Unbounded => 1,
            Status::Usage => 2,
            Status::Image(_) => 3,
            Status::Cycles(_) => 4,
            Status::Assertions(_) => 5,
            Status::ReadFault { .. } => 6,
            Status::WriteFault { .. } => 7,
            Status::Want => 8,
            Status::Limit(_) => 9,
        }
    }

    /// The message: `boundt:`, the exit status, the name of the status or of the refusal in it, then each
    /// field's name and its value. Numbers are decimal, classes and other enums are written by their names.
    pub fn message(&self, alloc: Global) -> Result<String, Want>
        ensures { IfOk result (λ text. string_bytes text ≡ message_of self.now) }
    {
        let text = match self {
            Status::Bounded => format!(in alloc; "boundt: 0 Bounded"),
            Status::Unbounded => format!(in alloc; "boundt: 1 Unbounded"),
            Status::Usage => format!(in alloc; "boundt: 2 Usage"),
            Status::Image(refusal) => {
                let refusal = image_text(alloc, refusal)?;
                format!(in alloc; "boundt: 3 {refusal}")
            }
            Status::Cycles(refusal) => {
                let refusal = cycles_text(alloc, refusal)?;
                format!(in alloc; "boundt: 4 {refusal}")
            }
            Status::Assertions(AssertFault::Parse(refusal)) => {
                let refusal = parse_text(alloc, refusal)?;
                format!(in alloc; "boundt: 5 {refusal}")
            }
            Status::Assertions(AssertFault::Bind(refusal)) => {
                let refusal = bind_text(alloc, refusal)?;
                format!(in alloc; "boundt: 5 {refusal}")
            }
            Status::Assertions(AssertFault::Unmatched { line }) => {
                format!(in alloc; "boundt: 5 Unmatched line {line}")
            }
            Status::ReadFault { file } => format!(in alloc; "boundt: 6 ReadFault file {file}"),
            Status::WriteFault { written } => {
                format!(in alloc; "boundt: 7 WriteFault written {written}")
            }
            Status::Want => format!(in alloc; "boundt: 8 Want"),
            Status::Limit(LimitFault::TooLong { file, limit }) => {
                format!(in alloc; "boundt: 9 TooLong file {file} limit {limit}")
            }
            Status::Limit(LimitFault::Nodes { count }) => {
                format!(in alloc; "boundt: 9 Nodes count {count}")
            }
            Status::Limit(LimitFault::Contexts { count }) => {
                format!(in alloc; "boundt: 9 Contexts count {count}")
            }
        };
        match text {
            Ok(text) => Ok(text),
            Err(_) => Err(Want),
        }
    }
}

/// The exit status of the program, as it is handed to the system.
pub fn exit_of(status: &Status) -> ExitCode
    ensures { exit_status result ≡ code_of status.now }
{
    ExitCode::from(status.code())
}
