//! What was asked of a shelf, as a list that only clauses read.
ghost use Rattle.std.specs.Prelude.{◌≡◌, List, [], ◌∷◌};
ghost use Rattle.std.specs.Borrow.{ftrue};
ghost use Rattle.bt_base.specs.Ask.{Ask, ask_of};

use std::fmt;
use std::marker::{Model, PhantomData};

/// What was asked of a shelf so far. It holds no byte when it runs.
#[derive(Drop)]
pub struct Trail {
    marker: PhantomData<u8>,
    pub ghost asks: { List Ask },
}

impl Model for Trail {
    ghost also_owns = { λ _. ftrue };
}

impl Trail {
    /// Nothing was asked.
    pub(crate) fn new() -> Trail
        ensures { result.asks ≡ [] }
    {
        Trail {
            marker: PhantomData,
        }
    }

    /// Notes an ask of a name: the byte from which on, the room, and how many bytes were given.
    pub(crate) fn note(&mut self, _numbers: &[u64], _name: &[u8])
        ensures { self.new.asks ≡ ask_of _numbers.now _name.now ∷ self.old.asks }
    {}
}

impl fmt::Debug for Trail {
    fn fmt<W: fmt::Write>(&self, f: &mut fmt::Formatter<W>) -> fmt::Result {
        f.write_str("Trail")
    }
}
