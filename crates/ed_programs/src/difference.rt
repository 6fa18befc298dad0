ghost use Rattle.std.specs.Prelude.{None};
ghost use Rattle.std.specs.Fmt.{decimal};
ghost use Rattle.ed_programs.specs.Difference.{difference_orders, difference_text, distance};
ghost use Rattle.ed_programs.specs.Programs.{GivesProgram, Prints};

use crate::filled::filled_program;
use crate::refusal::Refusal;
use std::alloc::Global;

/// The source, with a gap for each number.
pub const DIFFERENCE: [&str; 3] = [
    "version 2\n\
    ; Reads two numbers from its tape and prints how far they are apart.\n\
    ; Look for: the test at the order E, which takes the smaller from the greater in either case. Write \
    your own numbers.\n\
    segment main\n\
    _one: A _one F\n\
    G r F             ; the first number\n\
    A number F\n\
    T first F\n\
    _two: A _two F\n\
    G r F             ; the second number\n\
    A number F\n\
    S first F         ; the second less the first\n\
    E _keep F\n\
    T _scrap F        ; below 0: the first less the second\n\
    A first F\n\
    S number F\n\
    _keep: T number F\n\
    _print: A _print F\n\
    G p F\n\
    Z F\n\
    number: P F\n\
    first: P F\n\
    _scrap: P F\n\
    use read as r with H=number\n\
    use print as p with H=number\n\
    enter main\n\
    data \"",
    "F",
    "F\"\n",
];

/// The source that prints how far two numbers are apart: `examples/difference.edsac` with these on its tape.
pub fn difference_program(alloc: Global, first: u16, second: u16) -> Result<String, Refusal>
    ensures is { GivesProgram None (difference_text first second) result }
    ensures law { Prints (difference_orders first second) 72 (decimal (distance first second)) result }
{
    filled_program(alloc, &DIFFERENCE, &[first, second])
}
