ghost use Rattle.std.specs.Prelude.{map};
ghost use Rattle.ed_programs.specs.Celsius.{celsius, celsius_orders, celsius_text};
ghost use Rattle.ed_programs.specs.Lists.{list_refusal, on_lines};
ghost use Rattle.ed_programs.specs.Programs.{GivesProgram, Prints};

use crate::lists::list_rows;
use crate::refusal::{Refusal, program_of_text};
use std::alloc::Global;

/// The freezing point of water in degrees Fahrenheit. A temperature below it ends the list.
const FREEZING: u16 = 32;

/// The source before the numbers and after them.
pub const CELSIUS: [&str; 2] = [
    "; Reads temperatures in degrees Fahrenheit and prints them in degrees Celsius: 32 less, and five ninths of the rest.\n\
    ; Look for: the fraction, 36,409 of 65,536, and that there is no shift after V. A number below 32 ends the list.\n\
    segment main\n\
    next: A next F    ; call `read`\n\
    G r F\n\
    A value F\n\
    S freezing F      ; 32 less\n\
    G end F           ; the list is at its end\n\
    T value F\n\
    H ninths F        ; the multiplier is the fraction\n\
    V value F         ; a whole number times a fraction is a whole number and a fraction\n\
    T value F         ; the whole number\n\
    print: A print F\n\
    G p F\n\
    line: A line F\n\
    G n F\n\
    E next F\n\
    end: Z F\n\
    value: P F\n\
    freezing: word 32\n\
    ninths: word 36409\n\
    use read as r with H=value\n\
    use print as p with H=value\n\
    use newline as n\n\
    enter main\n\
    data \"",
    "\"\n",
];

/// The source that prints temperatures in degrees Celsius: `examples/celsius.edsac` with these on its tape, in degrees
/// Fahrenheit, and with the one that ends them.
pub fn celsius_program(alloc: Global, temperatures: &[u16], end: u16) -> Result<String, Refusal>
    ensures is { GivesProgram (list_refusal 32 temperatures.now end) (celsius_text temperatures.now end) result }
    ensures law { Prints (celsius_orders temperatures.now end) 71 (on_lines (map celsius temperatures.now)) result }
{
    let rows = list_rows(alloc, FREEZING, temperatures, end)?;
    let [head, tail] = CELSIUS;
    program_of_text(format!(in alloc; "{head}{rows}{tail}"))
}
