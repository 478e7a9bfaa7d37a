ghost use Rattle.std.specs.Prelude.{length, ◌<◌, ◌≡◌, true, ℕ, Some, if◌then◌else◌};
ghost use Rattle.bt_base.specs.Graph.{has};
ghost use Rattle.cyclic_parts.specs.Parts.{name_of};

/// Names the part of some nodes by one of them.
pub(crate) fn name_part(names: &mut [Option<u32>], part: &[u32], node: u32)
    requires { (n : ℕ) → has part.now n ≡ true → n < length names.old }
    ensures { (n : ℕ) → name_of names.new n ≡ (if has part.now n then Some node else name_of names.old n) }
{
    for member in part {
        names[*member as usize] = Some(node);
    }
}
