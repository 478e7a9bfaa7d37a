//! The texts of the refusals in a message: a name, then each field's name and its value.
ghost use Rattle.std.specs.Prelude.{◌≡◌, IfOk, string_bytes};
ghost use Rattle.bt_command.specs.Status.{counted_text, image_text, why_text, cycles_text, expected_text, parse_text, address_text, bind_text};

use assert_bind::BindRefusal;
use assert_lang::{AssertRefusal, Expected};
use bt_base::{Want, hex8_text};
use bt_image::{Counted, ImageRefusal};
use cycle_table::{CycleRefusal, Why, class_name};
use std::alloc::Global;

/// The name of what there may be too many of.
fn counted_text(what: Counted) -> &'static str
    ensures { result.now ≡ counted_text what }
{
    match what {
        Counted::Sections => "Sections",
        Counted::Symbols => "Symbols",
        Counted::Functions => "Functions",
    }
}

/// Why a file is no image.
pub fn image_text(alloc: Global, refusal: &ImageRefusal) -> Result<String, Want>
    ensures { IfOk result (λ text. string_bytes text ≡ image_text refusal.now) }
{
    let text = match refusal {
        ImageRefusal::Short { need, have } => format!(in alloc; "Short need {need} have {have}"),
        ImageRefusal::Magic => format!(in alloc; "Magic"),
        ImageRefusal::Class { got } => format!(in alloc; "Class got {got}"),
        ImageRefusal::Order { got } => format!(in alloc; "Order got {got}"),
        ImageRefusal::Kind { got } => format!(in alloc; "Kind got {got}"),
        ImageRefusal::Machine { got } => format!(in alloc; "Machine got {got}"),
        ImageRefusal::HeaderSize { got } => format!(in alloc; "HeaderSize got {got}"),
        ImageRefusal::SectionOutside { n } => format!(in alloc; "SectionOutside n {n}"),
        ImageRefusal::SectionOverlap { a, b } => format!(in alloc; "SectionOverlap a {a} b {b}"),
        ImageRefusal::Alignment { n } => format!(in alloc; "Alignment n {n}"),
        ImageRefusal::SymbolTable { n } => format!(in alloc; "SymbolTable n {n}"),
        ImageRefusal::Limit { what, count } => {
            let what = counted_text(*what);
            format!(in alloc; "Limit what {what} count {count}")
        }
        ImageRefusal::Compressed { n } => format!(in alloc; "Compressed n {n}"),
        ImageRefusal::Want => format!(in alloc; "Want"),
    };
    match text {
        Ok(text) => Ok(text),
        Err(_) => Err(Want),
    }
}

/// The name of what is wrong with a line.
fn why_text(why: Why) -> &'static str
    ensures { result.now ≡ why_text why }
{
    match why {
        Why::Header => "Header",
        Why::Class => "Class",
        Why::Number => "Number",
        Why::Extra => "Extra",
    }
}

/// Why a text is no table of cycles.
pub fn cycles_text(alloc: Global, refusal: &CycleRefusal) -> Result<String, Want>
    ensures { IfOk result (λ text. string_bytes text ≡ cycles_text refusal.now) }
{
    let text = match refusal {
        CycleRefusal::Line { n, why } => {
            let why = why_text(*why);
            format!(in alloc; "Line n {n} why {why}")
        }
        CycleRefusal::Twice { class, n } => {
            let class = class_name(*class);
            format!(in alloc; "Twice class {class} n {n}")
        }
        CycleRefusal::Zero { class, n } => {
            let class = class_name(*class);
            format!(in alloc; "Zero class {class} n {n}")
        }
        CycleRefusal::Missing { class } => {
            let class = class_name(*class);
            format!(in alloc; "Missing class {class}")
        }
        CycleRefusal::Want => format!(in alloc; "Want"),
    };
    match text {
        Ok(text) => Ok(text),
        Err(_) => Err(Want),
    }
}

/// The name of what was expected in a line.
fn expected_text(expected: Expected) -> &'static str
    ensures { result.now ≡ expected_text expected }
{
    match expected {
        Expected::Keyword => "Keyword",
        Expected::Place => "Place",
        Expected::Register => "Register",
        Expected::Range => "Range",
        Expected::To => "To",
        Expected::Repeats => "Repeats",
        Expected::Time => "Time",
        Expected::Count => "Count",
        Expected::End => "End",
    }
}

/// Why a text is no list of assertions.
pub fn parse_text(alloc: Global, refusal: &AssertRefusal) -> Result<String, Want>
    ensures { IfOk result (λ text. string_bytes text ≡ parse_text refusal.now) }
{
    let text = match refusal {
        AssertRefusal::Line {
            n,
            column,
            expected,
        } => {
            let expected = expected_text(*expected);
            format!(in alloc; "Line n {n} column {column} expected {expected}")
        }
        AssertRefusal::Limit { count } => format!(in alloc; "Limit count {count}"),
        AssertRefusal::Want => format!(in alloc; "Want"),
    };
    match text {
        Ok(text) => Ok(text),
        Err(_) => Err(Want),
    }
}

/// An address as eight hexadecimal digits.
#[tactic(auto, unfolding(crate::specs::Status::address_text))]
fn address_text(alloc: Global, address: u32) -> Result<String, Want>
    ensures { IfOk result (λ text. string_bytes text ≡ address_text address) }
{
    hex8_text(alloc, address)
}

/// Why assertions can't be bound to an image.
pub fn bind_text(alloc: Global, refusal: &BindRefusal) -> Result<String, Want>
    ensures { IfOk result (λ text. string_bytes text ≡ bind_text refusal.now) }
{
    let text = match refusal {
        BindRefusal::NoName { line } => format!(in alloc; "NoName line {line}"),
        BindRefusal::NotCode { line, addr } => {
            let addr = address_text(alloc, *addr)?;
            format!(in alloc; "NotCode line {line} addr {addr}")
        }
        BindRefusal::EmptyRange { line } => format!(in alloc; "EmptyRange line {line}"),
        BindRefusal::Conflict { line, other } => {
            format!(in alloc; "Conflict line {line} other {other}")
        }
        BindRefusal::Want => format!(in alloc; "Want"),
    };
    match text {
        Ok(text) => Ok(text),
        Err(_) => Err(Want),
    }
}
