ghost use Rattle.std.specs.Prelude.{◌≡◌};
ghost use Rattle.transfer_fns.specs.Key.{part_of, parts_are_few};
ghost use Rattle.transfer_fns.specs.Key as keys;

use crate::SparcSystem;
use abs_state::Key;
use flow_system::{PARTS, Parted};

/// The entry address of the subprogram that a key speaks of: its own, or that of the program point where it begins.
fn sub_of(k: Key) -> u32
    ensures { result ≡ keys.sub_of k }
{
    match k {
        Key::Node(place) => place.sub,
        Key::Edge { from, to: _ } => from.sub,
        Key::Call { from, callee: _ } => from.sub,
        Key::Summary { sub } => sub,
        Key::Gap { sub, pc: _, why: _ } => sub,
    }
}

/// Entry addresses are multiples of 4: the subprogram at the next address has its keys in the next part, and the part
/// after the last is the first again.
impl Parted for SparcSystem {
    ghost part_of = { λ s k. part_of k };

    ghost few = { λ s k. parts_are_few k };

    fn part(&self, k: Key) -> u32 {
        sub_of(k) / 4 % PARTS
    }
}
