ghost use Rattle.std.specs.Prelude.{None};
ghost use Rattle.ed_programs.specs.Fraction.{fraction_orders, fraction_prints, fraction_refusal, fraction_text};
ghost use Rattle.ed_programs.specs.Programs.{GivesProgram, Prints};

use crate::filled::filled_program;
use crate::refusal::Refusal;
use std::alloc::Global;

/// The greatest lower number of a fraction: ten times a remainder must be below 65,536.
const MOST_LOWER: u16 = 6553;

/// The source, with a gap for each of the three numbers.
pub const FRACTION: [&str; 4] = [
    "version 2\n\
    ; Prints a fraction in decimals, to as many places as its tape asks for: here 1/97 to 96 places, \
    after which they\n\
    ; begin again. The three numbers are in the last line: the upper one, the lower one (6,553 at the \
    most), the places.\n\
    ;\n\
    ; It is division as on paper: what is left, times ten, is divided again, and each quotient is the \
    next figure.\n\
    ; Look for: one subroutine that reads numbers, called three times; `divide`, which leaves the \
    quotient and the rest.\n\
    segment main\n\
    _upper: A _upper F\n\
    G r F\n\
    A number F\n\
    T low F\n\
    _lower: A _lower F\n\
    G r F\n\
    A number F\n\
    T divisor F\n\
    _places: A _places F\n\
    G r F             ; the number of places stays in `number`\n\
    _whole: A _whole F\n\
    G d F\n\
    _print: A _print F\n\
    G p F             ; the quotient is the part before the point\n\
    O _point F\n\
    _next: T _scrap F\n\
    A number F        ; one place less\n\
    S _one F\n\
    G _end F          ; no place is left\n\
    T number F\n\
    A rest F          ; ten times the rest: twice, and eight times\n\
    L D\n\
    U low F\n\
    L 1 F\n\
    A low F\n\
    T low F\n\
    T rest F          ; the upper half of what is divided is 0\n\
    _divide: A _divide F\n\
    G d F\n\
    _figure: A _figure F\n\
    G p F\n\
    E _next F\n\
    _end: Z F\n\
    number: P F\n\
    low: P F\n\
    rest: P F\n\
    divisor: P F\n\
    _point: M F       ; a full stop in figure shift\n\
    _one: word 1\n\
    _scrap: P F\n\
    use read as r with H=number\n\
    use divide as d with H=rest, N=low, M=divisor\n\
    use print as p with H=low\n\
    enter main\n\
    data \"",
    "F",
    "F",
    "F\"\n",
];

/// The source that prints a fraction to a number of places: `examples/fraction.edsac` with these on its tape.
pub fn fraction_program(
    alloc: Global,
    upper: u16,
    lower: u16,
    places: u16,
) -> Result<String, Refusal>
    ensures is { GivesProgram (fraction_refusal lower) (fraction_text upper lower places) result }
    ensures law { Prints (fraction_orders upper lower places) 89 (fraction_prints upper lower places) result }
{
    if lower == 0 || MOST_LOWER < lower {
        return Err(Refusal::Divisor);
    }
    filled_program(alloc, &FRACTION, &[upper, lower, places])
}
