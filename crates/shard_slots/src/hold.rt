ghost use Rattle.std.specs.Prelude.{ℕ, List};
ghost use Rattle.std.specs.Borrow.{ftrue};

use std::marker::Model;

/// What a seat weighs, and the parts that it holds, by their numbers. No value of it is made.
pub struct Hold {
    pub ghost weight: { ℕ },
    pub ghost held: { List ℕ },
}

impl Model for Hold {
    ghost also_owns = { λ _. ftrue };
}
