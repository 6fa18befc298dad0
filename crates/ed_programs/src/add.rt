ghost use Rattle.std.specs.Prelude.{◌≡◌, ◌+◌, ◌<◌, None};
ghost use Rattle.std.specs.Fmt.{decimal};
ghost use Rattle.ed_programs.specs.Add.{add_orders, add_refusal, add_text};
ghost use Rattle.ed_programs.specs.Programs.{GivesProgram, Prints};

use crate::filled::filled_program;
use crate::refusal::{LIMIT, Refusal};
use std::alloc::Global;

/// The source, with a gap for each number.
pub const ADD: [&str; 3] = [
    "; Reads two numbers from its tape, adds them and prints the sum.\n\
    ; Look for: the last line, whose rows the program reads by itself; each number ends with an F. \
    Write your own there.\n\
    segment main\n\
    one: A one F      ; call `read`: the order that calls puts itself into the accumulator\n\
    G r F             ; and jumps to the routine, which comes back to the next order\n\
    A value F         ; the first number is in `value`: keep it\n\
    T first F\n\
    two: A two F      ; the second number\n\
    G r F\n\
    A value F         ; add the first\n\
    A first F\n\
    T value F\n\
    three: A three F  ; call `print`, which prints what is in `value`\n\
    G p F\n\
    Z F\n\
    value: P F\n\
    first: P F\n\
    use read as r with H=value\n\
    use print as p with H=value\n\
    enter main\n\
    data \"",
    "F",
    "F\"\n",
];

/// The source that prints the sum of two numbers: `examples/add.edsac` with these instead of 1949 and 32.
pub fn add_program(alloc: Global, first: u16, second: u16) -> Result<String, Refusal>
    ensures is { GivesProgram (add_refusal first second) (add_text first second) result }
    ensures law { Prints (add_orders first second) 68 (decimal (first + second)) result }
{
    if LIMIT <= first as u32 + (second as u32) {
        return Err(Refusal::Number);
    }
    filled_program(alloc, &ADD, &[first, second])
}
