ghost use Rattle.std.specs.Prelude.{◌↔◌, ◌≡◌, ◌<◌, ◌≤◌, ◌+◌, ◌*◌, ◌%◌, ◌^◌, IsTrue};
ghost use Rattle.ed_words.specs.Sizes.{locations};
ghost use Rattle.ed_words.specs.Words.{address_of};
ghost use Rattle.ed_store.specs.Cells.{short_at, long_at};
ghost use Rattle.ed_routines.specs.Catalogue.{with_h};
ghost use Rattle.ed_checker.specs.Checker.{CheckerStands, HasImage, check};

use crate::places::{FETCH, LOW, MIDDLE};
use ed_library::{Parameters, routine};
use ed_machine::Machine;
use ed_routines::has_image as has_image_of;
use ed_words::Word;

/// The index of the routine in the catalogue.
const CHECK: u16 = 0;

/// Whether the routine is at `base`, at the beginning of a turn.
///
/// The counter is the base, the accumulator is 0, and the long words at `MIDDLE` and `LOW` are as the routine saves
/// them.
pub fn checker_stands(machine: &Machine, base: u16) -> bool
    requires even { base % 2 ≡ 0 }
    requires fits { base + 66 ≤ locations machine.now.size }
    ensures { IsTrue result ↔ CheckerStands base machine.now }
{
    let _ = machine.size().value();
    let low = machine.long(base + LOW).value();
    machine.counter() == base
        && machine.acc() == 0
        && has_image(machine, base)
        && fetches(machine, base)
        && machine.long(base + MIDDLE).value() < 1 << 34
        && low % (1 << 32) == 0
        && low < 1 << 34
}

/// Whether the first word is A c F without the spare digit.
fn fetches(machine: &Machine, base: u16) -> bool
    requires { base ≤ 1023 }
    ensures { IsTrue result ↔ (short_at machine.now.store base
        ≡ 114688 + 2 * address_of (short_at machine.now.store base)) }
{
    let word = machine.word(base + FETCH);
    word.value() == 114688 + 2 * u32::from(word.order().address)
}

/// Whether each word of the routine but the working ones is in the store.
fn has_image(machine: &Machine, base: u16) -> bool
    requires { base + 66 ≤ locations machine.now.size }
    ensures { IsTrue result ↔ HasImage base machine.now }
{
    let zero = Word::of_number(0);
    let parameters = [zero, zero, zero, zero, zero, zero];
    has_image_of(machine, &routine(CHECK), base, &parameters)
}
