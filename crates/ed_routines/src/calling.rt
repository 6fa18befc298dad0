ghost use Rattle.std.specs.Prelude.{◌≡◌, ◌+◌, ◌^◌, ◌<◌, ◌≤◌};
ghost use Rattle.ed_words.specs.Sizes.{locations};
ghost use Rattle.ed_routines.specs.Standing.{IsCall, caller};

use ed_machine::Machine;

/// The location of the order that put itself into the accumulator, if one did.
pub fn caller(machine: &Machine) -> u32
    ensures is { result ≡ caller machine.now }
    ensures fits { result < 16384 }
{
    let order = (machine.acc() >> 54) as u32;
    order.saturating_sub(114_688) / 2
}

/// The location to which a routine returns.
pub fn return_address(machine: &Machine) -> u16
    requires { IsCall machine.now }
    ensures { result ≡ caller machine.now + 2 }
{
    let _ = machine.size().value();
    caller(machine) as u16 + 2
}
