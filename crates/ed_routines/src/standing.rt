ghost use Rattle.std.specs.Prelude.{◌↔◌, ℕ, ◌+◌, ◌≤◌, ◌<◌, IsTrue};
ghost use Rattle.ed_words.specs.Sizes.{locations};
ghost use Rattle.ed_library.specs.Routines.{place_count};
ghost use Rattle.ed_routines.specs.Standing.{HasWord, IsCall, IsLoadedAt};

use crate::calling::caller;
use ed_library::{Parameters, Routine, image_word};
use ed_machine::Machine;

/// Whether a routine is at a base and is called from a location m.
///
/// The counter is the base, each word of the routine but the working ones is in the store, 2 and 3 hold 2 and 28676,
/// and the accumulator holds the order A m F and nothing else, where m + 2 is below the size.
pub fn stands(machine: &Machine, routine: &Routine, base: u16, parameters: &Parameters) -> bool
    requires low { 56 ≤ base }
    requires fits { base + place_count routine.now ≤ locations machine.now.size }
    ensures { IsTrue result ↔ IsLoadedAt routine.now parameters.now base machine.now }
{
    machine.counter() == base
        && machine.word(2).value() == 2
        && machine.word(3).value() == 28676
        && is_call(machine)
        && has_image(machine, routine, base, parameters)
}

/// Whether the accumulator holds an order A m F from which a routine can return.
fn is_call(machine: &Machine) -> bool
    ensures { IsTrue result ↔ IsCall machine.now }
{
    let caller = caller(machine);
    let acc = u128::from(114_688 + 2 * caller) * (1 << 54);
    machine.acc() == acc && caller + 3 <= u32::from(machine.size().value())
}

/// Whether each word of the routine but the working ones is in the store.
pub fn has_image(machine: &Machine, routine: &Routine, base: u16, parameters: &Parameters) -> bool
    requires { base + place_count routine.now ≤ locations machine.now.size }
    ensures { IsTrue result ↔ ((i : ℕ) → i < place_count routine.now
        → HasWord routine.now parameters.now base machine.now i) }
{
    for place in 0..routine.length() {
        if !has_word(machine, routine, base, place, parameters) {
            return false;
        }
    }
    true
}

/// Whether an offset in the routine is that of a working word, or of its own word.
fn has_word(
    machine: &Machine,
    routine: &Routine,
    base: u16,
    place: u16,
    parameters: &Parameters,
) -> bool
    requires room { base + place_count routine.now ≤ locations machine.now.size }
    requires place { place < place_count routine.now }
    ensures { IsTrue result ↔ HasWord routine.now parameters.now base machine.now place }
{
    let _ = machine.size().value();
    routine.is_working(place)
        || machine.word(base + place) == image_word(routine, place, base, parameters)
}
