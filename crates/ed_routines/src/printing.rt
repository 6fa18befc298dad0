ghost use Rattle.std.specs.Prelude.{◌≡◌, ◌+◌, ℕ, List, ◌++◌, ◌∷◌, [], ◌^◌, ◌%◌, ◌<◌, ◌≤◌, Some, length};
ghost use Rattle.ed_store.specs.Cells.{short_at};
ghost use Rattle.ed_routines.specs.Catalogue.{newline, print, with_h};
ghost use Rattle.ed_routines.specs.Digits.{DigitsLaw, digits, print_orders};
ghost use Rattle.ed_routines.specs.Returns.{IsAfter, Keeps, Returned};
ghost use Rattle.ed_routines.specs.Standing.{IsOutside, IsLoadedAt, caller};

use crate::Back;
use crate::calling::return_address;
use ed_machine::{Machine, Paper};
use ed_run::run;

/// Runs `newline` at `base`: it prints a carriage return and a line feed.
pub fn new_line(machine: &mut Machine, base: u16, paper: &mut Paper) -> Back
    requires stands { (parameters : List ℕ) × IsLoadedAt newline parameters base machine.old }
    requires room { length paper.old.codes + 2 ≤ paper.old.room }
    requires orders { machine.old.orders + 5 ≤ 2 ^ 63 }
    ensures at { result.at ≡ caller machine.old + 2 }
    ensures orders { result.orders ≡ 5 }
    ensures after { IsAfter 5 machine.old machine.new }
    ensures returned { Returned 5 machine.old.tape (Some 24) machine.old machine.new }
    ensures words { Keeps newline base machine.old machine.new }
    ensures printed { paper.new ≡ record paper.old { codes = paper.old.codes ++ 18 ∷ 24 ∷ [] } }
{
    let at = return_address(machine);
    // Called only for its clause `store`: the proof needs that the store has all its words within their bounds.
    let _ = machine.word(0);
    run(machine, 5, 0, paper);
    Back { at, orders: 5 }
}

/// Runs `print` at `base` with H = 2h: it prints a figure shift and the decimal digits of the word at `h`, which is
/// below 65536.
pub fn print_integer(machine: &mut Machine, base: u16, h: u16, paper: &mut Paper) -> Back
    requires stands { IsLoadedAt print (with_h h) base machine.old }
    requires outside { IsOutside print base h machine.old }
    requires small { short_at machine.old.store h < 65536 }
    requires room { length paper.old.codes + 6 ≤ paper.old.room }
    requires orders { machine.old.orders + 350 ≤ 2 ^ 63 }
    ensures at { result.at ≡ caller machine.old + 2 }
    ensures orders { result.orders ≡ print_orders (short_at machine.old.store h) }
    ensures few { result.orders ≤ 350 }
    ensures after { IsAfter result.orders machine.old machine.new }
    ensures returned { Returned result.orders machine.old.tape (Some (short_at machine.old.store h % 10)) machine.old
        machine.new }
    ensures words { Keeps print base machine.old machine.new }
    ensures printed { paper.new
        ≡ record paper.old { codes = paper.old.codes ++ 11 ∷ digits (short_at machine.old.store h) } }
    ensures law { DigitsLaw }
{
    let at = return_address(machine);
    let orders = orders_to_print(machine.word(h).value());
    run(machine, orders, 0, paper);
    Back { at, orders }
}

/// The number of orders that `print` takes for a number.
fn orders_to_print(number: u32) -> u64
    requires { number < 65536 }
    ensures is { result ≡ print_orders number }
    ensures few { result ≤ 350 }
{
    let sum = number / 10_000 + number / 1000 % 10 + number / 100 % 10 + number / 10 % 10;
    let shown = match number {
        0..=9 => 0,
        10..=99 => 1,
        100..=999 => 2,
        1000..=9999 => 3,
        _ => 4,
    };
    u64::from(78 + 8 * sum + 4 * shown)
}
