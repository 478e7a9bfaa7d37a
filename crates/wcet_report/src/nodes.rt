ghost use Rattle.std.specs.Prelude.{◌≡◌, ◌++◌, ◌<◌, IfOk};
ghost use Rattle.wcet_report.specs.Node.{next_text, node_text, register, cell_text, group_letter as group_letter_so};

use abs_state::{Next, Place};
use bt_base::{Want, hex8, put_decimal};

/// Appends what comes after an instruction, where it isn't the next word.
fn put_next(text: &mut Vec<u8>, pc: u32, next: Next) -> Result<(), Want>
    ensures { IfOk result (λ _. text.new.items ≡ text.old.items ++ next_text pc next) }
{
    match next {
        Next::At(at) => {
            if at != pc.wrapping_add(4) {
                text.push(b'>')?;
                text.extend_from_slice(&hex8(at))?;
            }
            Ok(())
        }
        Next::Into(callee) => {
            text.extend_from_slice(b">into:")?;
            text.extend_from_slice(&hex8(callee))?;
            Ok(())
        }
        Next::Back => {
            text.extend_from_slice(b">back")?;
            Ok(())
        }
    }
}

/// Appends a program point.
#[tactic(auto, unfolding(crate::specs::Node::node_text))]
pub(crate) fn put_node(text: &mut Vec<u8>, place: &Place) -> Result<(), Want>
    ensures { IfOk result (λ _. text.new.items ≡ text.old.items ++ node_text place.now) }
{
    text.extend_from_slice(&hex8(place.pc))?;
    put_next(text, place.pc, place.next)?;
    text.push(b'/')?;
    put_decimal(text, u64::from(place.depth))
}

/// The letter of a group of eight registers.
fn group_letter(group: u8) -> u8
    ensures { result ≡ group_letter_so group }
{
    match group {
        0 => b'g',
        1 => b'o',
        2 => b'l',
        _ => b'i',
    }
}

/// Appends a register.
fn put_register(text: &mut Vec<u8>, r: u8) -> Result<(), Want>
    ensures { IfOk result (λ _. text.new.items ≡ text.old.items ++ register r) }
{
    text.extend_from_slice(&[b'%', group_letter(r / 8), b'0' + r % 8])?;
    Ok(())
}

/// Appends the name of a cell.
pub(crate) fn put_cell(text: &mut Vec<u8>, cell: u8) -> Result<(), Want>
    ensures { IfOk result (λ _. text.new.items ≡ text.old.items ++ cell_text cell) }
{
    if cell < 32 {
        put_register(text, cell)
    } else {
        put_register(text, cell - 24)?;
        text.extend_from_slice(b".1")?;
        Ok(())
    }
}
