ghost use Rattle.std.specs.Prelude.{◌≡◌, ◌++◌, ◌∷◌, [], IfOk, codes, decimal};
ghost use Rattle.bt_base.specs.Text.{hex8_of};
ghost use Rattle.std.specs.List.{flat_map};
ghost use Rattle.wcet_report.specs.Line.{spaced, function_words};
ghost use Rattle.wcet_report.specs.Node.{node_text};
ghost use Rattle.wcet_report.specs.Outcome.{reason_words, reason_line};

use crate::lines::{put_address, put_function, put_number, put_word};
use crate::nodes::put_node;
use crate::reason::Reason;
use abs_state::Place;
use bt_base::Want;
use bt_image::Image;

/// Appends a word and an address, each behind a space.
fn put_at(text: &mut Vec<u8>, word: &[u8], address: u32) -> Result<(), Want>
    ensures { IfOk result (λ _. text.new.items ≡ text.old.items ++ spaced (word.now ∷ hex8_of address ∷ [])) }
{
    put_word(text, word)?;
    put_address(text, address)
}

/// Appends a program point behind a space.
pub fn put_point(text: &mut Vec<u8>, place: &Place) -> Result<(), Want>
    ensures { IfOk result (λ _. text.new.items ≡ text.old.items ++ spaced (node_text place.now ∷ [])) }
{
    text.push(b' ')?;
    put_node(text, place)
}

/// Appends a word and a program point, each behind a space.
fn put_at_point(text: &mut Vec<u8>, word: &[u8], place: &Place) -> Result<(), Want>
    ensures { IfOk result (λ _. text.new.items ≡ text.old.items ++ spaced (word.now ∷ node_text place.now ∷ [])) }
{
    put_word(text, word)?;
    put_point(text, place)
}

/// Appends the words of two program points at which a part of the graph is entered.
fn put_two_entries(text: &mut Vec<u8>, x: &Place, y: &Place) -> Result<(), Want>
    ensures { IfOk result (λ _. text.new.items ≡ text.old.items ++ spaced (codes "irreducible" ∷ node_text x.now ∷ node_text y.now ∷ [])) }
{
    put_at_point(text, b"irreducible", x)?;
    put_point(text, y)?;
    Ok(())
}

/// Appends the words of a call whose callee has no bound.
fn put_callee(text: &mut Vec<u8>, image: &Image, call: u32, callee: u32) -> Result<(), Want>
    ensures { IfOk result (λ _. text.new.items ≡ text.old.items ++ spaced (codes "callee" ∷ hex8_of call ∷ function_words image.now callee)) }
{
    put_at(text, b"callee", call)?;
    put_function(text, image, callee)
}

/// Appends the words of the number of windows that are wanted.
fn put_windows(text: &mut Vec<u8>, need: u32) -> Result<(), Want>
    ensures { IfOk result (λ _. text.new.items ≡ text.old.items ++ spaced (codes "windows" ∷ decimal need ∷ [])) }
{
    put_word(text, b"windows")?;
    put_number(text, u64::from(need))
}

/// Appends the words of a reason, each behind a space.
fn put_reason_words(text: &mut Vec<u8>, image: &Image, reason: &Reason) -> Result<(), Want>
    ensures { IfOk result (λ _. text.new.items ≡ text.old.items ++ spaced (reason_words image.now reason.now)) }
{
    match reason {
        Reason::Jump(pc) => put_at(text, b"jump", *pc),
        Reason::Call(pc) => put_at(text, b"call", *pc),
        Reason::Instr(pc) => put_at(text, b"instr", *pc),
        Reason::Loop(head) => put_at_point(text, b"loop", head),
        Reason::Irreducible(x, y) => put_two_entries(text, x, y),
        Reason::Callee { call, callee } => put_callee(text, image, *call, *callee),
        Reason::Recursion(pc) => put_at(text, b"recursion", *pc),
        Reason::Windows(need) => put_windows(text, *need),
        Reason::TooLarge(node) => put_at_point(text, b"toolarge", node),
    }
}

/// Appends the line of a reason.
#[tactic(auto, unfolding(crate::specs::Line::line_of))]
fn put_reason(text: &mut Vec<u8>, image: &Image, reason: &Reason) -> Result<(), Want>
    ensures { IfOk result (λ _. text.new.items ≡ text.old.items ++ reason_line image.now reason.now) }
{
    text.extend_from_slice(b"reason")?;
    put_reason_words(text, image, reason)?;
    text.push(b'\n')?;
    Ok(())
}

/// Appends the lines of reasons.
pub(crate) fn put_reasons(text: &mut Vec<u8>, image: &Image, reasons: &[Reason]) -> Result<(), Want>
    ensures { IfOk result (λ _. text.new.items ≡ text.old.items ++ flat_map (reason_line image.now) reasons.now) }
{
    for reason in reasons {
        put_reason(text, image, reason)?;
    }
    Ok(())
}
