ghost use Rattle.std.specs.Prelude.{◌≡◌, ◌≢◌, ◌+◌, ◌*◌, ◌^◌, ◌<◌, ◌≤◌};
ghost use Rattle.ed_store.specs.Cells.{short_at};
ghost use Rattle.ed_routines.specs.Returns.{IsAfter, KeepsBut, Returned};
ghost use Rattle.ed_routines.specs.Standing.{IsOutside, IsLoadedAt, caller};
ghost use Rattle.ed_maths.specs.Roots.{IsRoot, root, root_orders, with_hn};

use ed_machine::Machine;
use ed_routines::{Back, return_address};

/// Runs `root` at `base` with H = 2 · source and N = 2 · target: it puts the integer square root of the word at
/// `source`, which is below 65536, at `target`.
pub fn square_root(machine: &mut Machine, base: u16, source: u16, target: u16) -> Back
    requires stands { IsLoadedAt root (with_hn source target) base machine.old }
    requires source { IsOutside root base source machine.old }
    requires target { IsOutside root base target machine.old }
    requires differ { source ≢ target }
    requires small { short_at machine.old.store source < 65536 }
    requires orders { machine.old.orders + 2054 ≤ 2 ^ 63 }
    ensures at { result.at ≡ caller machine.old + 2 }
    ensures root { IsRoot (short_at machine.old.store source) (short_at machine.new.store target) }
    ensures orders { result.orders ≡ root_orders (short_at machine.new.store target) }
    ensures few { result.orders ≤ 2054 }
    ensures after { IsAfter result.orders machine.old machine.new }
    ensures returned { Returned result.orders machine.old.tape machine.old.last machine.old machine.new }
    ensures words { KeepsBut target root base machine.old machine.new }
{
    let at = return_address(machine);
    let orders = 14 + 8 * u64::from(root_of(machine.word(source).value()));
    machine.obey_next(orders);
    Back { at, orders }
}

/// The greatest number whose square is at most a number.
fn root_of(number: u32) -> u16
    requires { number < 65536 }
    ensures is { IsRoot number result }
    ensures fits { result < 256 }
{
    for root in 0u16..255 {
        let next = u32::from(root) + 1;
        if number < next * next {
            return root;
        }
    }
    255
}
