ghost use Rattle.flow_system.specs.Due.{IsFiner};
ghost use Rattle.value_lattice.specs.Laws.{AreMore};
ghost use Rattle.transfer_fns.specs.Setting.{rules_over};

use crate::SparcSystem;
use value_lattice::Thresholds;

/// Over more thresholds each key gives no more: the due graph of `using` is below that of the system itself.
pub fn using_is_finer(system: &SparcSystem, t: &Thresholds)
    ensures { AreMore system.now.thresholds t.now
        → IsFiner (rules_over t.now system.now.image system.now.binding system.now.eight) (rules_over system.now.thresholds system.now.image system.now.binding system.now.eight) }
{
    t.are_thresholds();
    let _ = system.eight();
}
