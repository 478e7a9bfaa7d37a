ghost use Rattle.std.specs.Prelude.{◌≡◌, ◌↔◌, ℕ, Contains, IsTrue};
ghost use Rattle.std.specs.List.Sorted.{IsStrictlyIncreasing};

/// Puts numbers in order, each once.
pub fn put_in_order(numbers: &mut Vec<u32>)
    ensures rising { IsStrictlyIncreasing numbers.new.items }
    ensures keeps { (k : ℕ) → Contains numbers.old.items k → Contains numbers.new.items k }
    ensures adds_none { (k : ℕ) → Contains numbers.new.items k → Contains numbers.old.items k }
{
    numbers.sort_unstable();
    numbers.dedup();
}

/// Whether numbers that rise have this one. It takes as many steps as the logarithm of their count.
pub fn has(numbers: &[u32], number: u32) -> bool
    requires { IsStrictlyIncreasing numbers.now }
    ensures { IsTrue result ↔ Contains numbers.now number }
{
    numbers.binary_search(&number).is_ok()
}
