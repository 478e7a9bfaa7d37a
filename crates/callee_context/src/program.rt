use abs_state::Key;
use cycle_table::Cycles;
use flow_system::Facts;
use graph_view::View;
use plain_bounds::PlainBounds;
use transfer_fns::SparcSystem;
use transfer_rules::Fact;

/// A program with what is known of it.
#[derive(Clone, Copy)]
pub struct Program<'a> {
    /// Its rules, over its thresholds.
    pub system: &'a SparcSystem,
    /// The costs of the classes of instructions.
    pub cycles: &'a Cycles,
    /// The facts of all its runs.
    pub facts: &'a Facts<Key, Fact>,
    /// Their keys by subprogram.
    pub view: &'a View,
    /// Which of its subprograms are plain.
    pub plain: &'a PlainBounds,
    /// The program points, steps and calls of each subprogram that the table of plain ones lists.
    pub rows: &'a [Vec<Key>],
}
