use crate::classes::{self, COUNT};
use crate::reading::{body, header_of, next_row};
use crate::{CycleRefusal, Why};
use sparc_decode::{CostClass, Instr, class, reads};
use std::marker::Model;

/// What an instruction of each class costs, in cycles: from 1 to 1,000,000. A class that the table's version hasn't
/// costs 0.
#[derive(Clone, Copy, Debug, PartialEq, Eq)]
pub struct Cycles {
    costs: [u32; COUNT],
}

impl Model for Cycles {
    ghost use Rattle.std.specs.Prelude.{ℕ, List};
    ghost use Rattle.cycle_table.specs.Table.{AreCosts};

    ghost Value = { List ℕ };

    ghost view = { λ table. table.costs };

    ghost invariant = { λ table. AreCosts table.costs };

    ghost inverse = { λ costs. record { costs = costs } };
}

impl Cycles {
    ghost use Rattle.std.specs.Prelude.{◌≡◌, ◌-◌, ◌^◌, ◌<◌, ◌≤◌, if◌then◌else◌, length};
    ghost use Rattle.cycle_table.specs.Class.{place_of, count_of, cost_at, version_of, has_eight};
    ghost use Rattle.cycle_table.specs.Cycles.{cost_of, pair_of};
    ghost use Rattle.sparc_decode.specs.CostClass.{class_of};
    ghost use Rattle.sparc_decode.specs.declared.cost_class.CostClass.TheVariants.{Annulled};
    ghost use Rattle.cycle_table.specs.Table.{table_of};

    /// Reads the table of a text.
    ///
    /// Its lines end in LF, the last one maybe not, and a CR right before an LF is dropped. A comment goes from
    /// `#` to the line's end, words are parted by spaces and tabs, and a line without a word is skipped. The
    /// first other line is `cycles 1` or `cycles 2`; each further one is the name of a class and its cost in decimal.
    /// Version 1 has the classes up to `annulled`, and version 2 also `loaduse`, `multiply` and `divide`.
    ///
    /// The first bad line is refused: with `Line` where it isn't such a line, with `Zero` where the cost is 0,
    /// and with `Twice` where an earlier line has the class. `Missing` names the first class of the version without a
    /// line. A text without a word is `Line { n: 1, why: Header }`. It takes no memory, so it never answers `Want`.
    #[tactic(auto, unfolding(crate::specs::Table::table_of))]
    pub fn read(bytes: &[u8]) -> Result<Cycles, CycleRefusal>
        requires { length bytes.now < 2 ^ 32 - 1 }
        ensures { result ≡ table_of bytes.now }
    {
        match next_row(bytes, 0) {
            None => Err(CycleRefusal::Line {
                n: 1,
                why: Why::Header,
            }),
            Some(row) => match header_of(row.name, row.words) {
                None => Err(CycleRefusal::Line {
                    n: row.number,
                    why: Why::Header,
                }),
                Some(version) => {
                    let costs = body(version, row.after, row.number)?;
                    Ok(Cycles { costs })
                }
            },
        }
    }

    /// The cycles that an instruction costs, and with `annulled` those of one that it annuls. Instructions that
    /// aren't modelled, or whose class the table's version hasn't, cost nothing themselves, and every other at least 1.
    pub fn cost(&self, i: &Instr, annulled: bool) -> u32
        ensures value { result ≡ cost_of self.now i.now annulled }
        ensures least { place_of (class_of i.now) < count_of (version_of self.now) → 1 ≤ result }
        ensures none { count_of (version_of self.now) ≤ place_of (class_of i.now) → result ≡ (if annulled then cost_at self.now Annulled else 0) }
        ensures most { result ≤ 2000000 }
    {
        let own = classes::cost_at(&self.costs, class(i));
        if annulled {
            own + classes::cost_at(&self.costs, CostClass::Annulled)
        } else {
            own
        }
    }

    /// The cycles that an instruction costs more where it reads a register among those that the one before it
    /// loaded, which are a set as bits (`sparc_decode::loaded`); 0 with a table of version 1.
    pub fn pair(&self, loaded: u32, i: &Instr) -> u32
        ensures value { result ≡ pair_of self.now loaded i.now }
        ensures most { result ≤ 1000000 }
    {
        if loaded & reads(i) == 0 {
            0
        } else {
            classes::cost_at(&self.costs, CostClass::Loaduse)
        }
    }

    /// Whether the table is of version 2, by which the multiplications and divisions of SPARC Version 8 are modelled.
    pub fn eight(&self) -> bool
        ensures { result ≡ has_eight self.now }
    {
        classes::cost_at(&self.costs, CostClass::Loaduse) != 0
    }
}
