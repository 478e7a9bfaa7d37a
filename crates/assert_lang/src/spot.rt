ghost use Rattle.std.specs.Prelude.{◌≡◌};

use crate::Name;
use std::marker::Model;

/// A place in a program, as an assertion file writes it.
#[derive(Debug, Drop)]
pub enum Spot {
    /// The address of a name.
    Name(Name),
    /// The address of a name and so many bytes more, modulo 2^32.
    Offset(Name, u32),
    /// An address.
    Addr(u32),
}

/// The places of a list, in its order.
#[derive(Debug, Drop)]
pub struct Spots {
    spots: Vec<Spot>,
}

impl Model for Spots {
    ghost use Rattle.std.specs.Prelude.{List};
    ghost use Rattle.assert_lang.specs.declared.spot.Spot.{Spot};

    ghost Value = { List Spot };

    ghost view = { λ spots. spots.spots.items };
}

impl Spots {
    /// The list of these places.
    pub fn new(spots: Vec<Spot>) -> Spots
        ensures { result ≡ spots.items }
    {
        Spots { spots }
    }

    /// Its places.
    pub fn as_slice(&self) -> &[Spot]
        ensures { result.now ≡ self.now }
    {
        self.spots.as_slice()
    }

    /// Its places, without taking memory.
    pub fn into_vec(self) -> Vec<Spot>
        ensures { result.items ≡ self }
    {
        self.spots
    }
}
