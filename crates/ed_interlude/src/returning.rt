ghost use Rattle.std.specs.Prelude.{◌≡◌, ◌↔◌, ◌≤◌, IsTrue};
ghost use Rattle.ed_interlude.specs.Returned.{AreListed, IsReturned, LeavesDirective, directive};

use ed_initial::orders;
use ed_machine::Machine;
use ed_words::Word;

/// The location to which programs return.
const RETURN: u16 = 25;

/// The location of the constant 1.
const ONE: u16 = 43;

/// What the multiplier holds: ten sixteenths, for the conversion from decimal.
const MULTIPLIER: u64 = 20480 << 18;

/// The order T 0 F, the least directive of a return.
const LEAST: u32 = 20480;

/// The order T 1023 F, the greatest directive of a return.
const MOST: u32 = LEAST + 2 * 1023;

/// Whether a program returned to the Initial Orders in such a state that they can read on.
///
/// The machine is at 25, the locations 2 to 19, 21 and 23 to 39 hold the Initial Orders, 43 holds 1, the multiplier is
/// unchanged, and the most significant digits of the accumulator are an order T with length digit F.
pub fn is_returned(machine: &Machine) -> bool
    ensures { IsTrue result ↔ IsReturned machine.now }
{
    let order = directive(machine).value();
    machine.counter() == RETURN
        && machine.word(ONE).value() == 1
        && machine.multiplier().value() == MULTIPLIER
        && order % 2 == 0
        && LEAST <= order
        && order <= MOST
        && are_listed(machine, 2, 20)
        && are_listed(machine, 21, 22)
        && are_listed(machine, 23, 40)
}

/// The 17 most significant digits of the accumulator, which are the directive that a program leaves when it returns.
pub fn directive(machine: &Machine) -> Word
    ensures { result ≡ directive machine.now }
{
    Word::of_number((machine.acc() >> 54) as u32)
}

/// Whether the locations from `first` to before `end` hold the Initial Orders.
fn are_listed(machine: &Machine, first: u16, end: u16) -> bool
    requires { end ≤ 41 }
    ensures { IsTrue result ↔ AreListed machine.now.store first end }
{
    let orders = orders();
    let listed = &orders[..];
    for place in first..end {
        if machine.word(place) != listed[usize::from(place)] {
            return false;
        }
    }
    true
}
