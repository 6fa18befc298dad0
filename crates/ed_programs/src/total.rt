ghost use Rattle.std.specs.Prelude.{◌≡◌, nat_lt};
ghost use Rattle.std.specs.Fmt.{decimal};
ghost use Rattle.ed_routines.specs.Digits.{sum};
ghost use Rattle.ed_programs.specs.Programs.{GivesProgram, Prints};
ghost use Rattle.ed_programs.specs.Total.{total_orders, total_refusal, total_text};

use crate::lists::list_rows;
use crate::refusal::{LIMIT, Refusal, program_of_text};
use std::alloc::Global;

/// The least number that doesn't end the list.
const LEAST: u16 = 1;

/// The number that ends the list.
const END: u16 = 0;

/// The source before the numbers and after them.
pub const TOTAL: [&str; 2] = [
    "; Reads numbers from its tape until it reads a 0, and prints their sum.\n\
    ; Look for: the last line, whose rows the program reads by itself, and the 0 in it, which ends the list.\n\
    segment main\n\
    next: A next F    ; call `read`\n\
    G r F\n\
    A value F         ; the number that was read\n\
    S one F\n\
    G end F           ; it was 0\n\
    A one F           ; the number once more\n\
    A sum F\n\
    T sum F\n\
    E next F          ; the accumulator is 0: the next number\n\
    end: T scrap F\n\
    print: A print F  ; print what is in `sum`\n\
    G p F\n\
    Z F\n\
    value: P F\n\
    sum: P F\n\
    one: word 1\n\
    scrap: P F\n\
    use read as r with H=value\n\
    use print as p with H=sum\n\
    enter main\n\
    data \"",
    "\"\n",
];

/// The source that prints the sum of some numbers: `examples/total.edsac` with these on its tape, and a 0 after them.
pub fn total_program(alloc: Global, numbers: &[u16]) -> Result<String, Refusal>
    ensures is { GivesProgram (total_refusal numbers.now) (total_text numbers.now) result }
    ensures law { Prints (total_orders numbers.now) 69 (decimal (sum numbers.now)) result }
{
    if !has_small_sum(numbers) {
        return Err(Refusal::Number);
    }
    let rows = list_rows(alloc, LEAST, numbers, END)?;
    let [head, tail] = TOTAL;
    program_of_text(format!(in alloc; "{head}{rows}{tail}"))
}

/// Whether the sum of some numbers is one that `print` prints.
fn has_small_sum(numbers: &[u16]) -> bool
    ensures { result ≡ nat_lt (sum numbers.now) 65536 }
{
    let mut total: u32 = 0;
    for number in numbers {
        total += u32::from(*number);
        if total >= LIMIT {
            return false;
        }
    }
    true
}
