ghost use Rattle.std.specs.Prelude.{◌≡◌, ◌+◌, ◌*◌, ◌/◌, ◌%◌, ◌^◌, ◌<◌, ◌≤◌};
ghost use Rattle.ed_store.specs.Cells.{short_at};
ghost use Rattle.ed_routines.specs.Returns.{IsAfter};
ghost use Rattle.ed_routines.specs.Standing.{IsLoadedAt, caller};
ghost use Rattle.ed_maths.specs.Quotients.{HasDivided, IsDivision, divide, divide_orders, dividend, ones, with_hnm};

use ed_machine::Machine;
use ed_routines::{Back, return_address};

/// Runs `divide` at the even `base` with H = 2 · high, N = 2 · low and M = 2 · by: it divides the number whose halves
/// are the words at `high` and `low`, the one at `low` below 65536, by the word at `by`, which is 1 to 32767 and
/// greater than the one at `high`. The quotient is then at `low` and the remainder at `high`.
pub fn divide_integers(machine: &mut Machine, base: u16, high: u16, low: u16, by: u16) -> Back
    requires stands { IsLoadedAt divide (with_hnm high low by) base machine.old }
    requires even { base % 2 ≡ 0 }
    requires division { IsDivision base high low by machine.old }
    requires orders { machine.old.orders + 212 ≤ 2 ^ 63 }
    ensures at { result.at ≡ caller machine.old + 2 }
    ensures orders { result.orders ≡ divide_orders (dividend high low machine.old / short_at machine.old.store by) }
    ensures few { result.orders ≤ 212 }
    ensures after { IsAfter result.orders machine.old machine.new }
    ensures divided { HasDivided base high low by machine.old machine.new }
{
    let at = return_address(machine);
    let number = 65536 * machine.word(high).value() + machine.word(low).value();
    let orders = 212 - u64::from(count_ones(number / machine.word(by).value()));
    machine.obey_next(orders);
    Back { at, orders }
}

/// How many of the last 16 binary digits of a number are 1.
fn count_ones(number: u32) -> u32
    ensures is { result ≡ ones 16 number }
    ensures few { result ≤ 16 }
{
    let mut rest = number;
    let mut sum = 0;
    for done in 0..16u32 {
        sum += rest % 2;
        rest /= 2;
    }
    sum
}
