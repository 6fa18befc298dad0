ghost use Rattle.std.specs.Prelude.{◌≡◌};
ghost use Rattle.ed_initial.specs.Load.{enters};

use ed_machine::Machine;
use ed_orders::{Kind, kind_of};

/// Whether the order at 22 is the next one, is an E order and jumps.
pub fn is_entering(machine: &Machine) -> bool
    ensures { result ≡ enters machine.now }
{
    if machine.counter() != 22 {
        return false;
    }
    match kind_of(machine.word(22).order().function) {
        Some(Kind::E) => machine.acc() < 1 << 70,
        _ => false,
    }
}
