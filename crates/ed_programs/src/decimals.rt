ghost use Rattle.std.specs.Prelude.{None, filter};
ghost use Rattle.ed_words.specs.Decimals.{is_digit, value};
ghost use Rattle.ed_programs.specs.Decimals.{FiguresAreCarries, IsOneNumber, IsWholePart, MethodIsRight};
ghost use Rattle.ed_programs.specs.Decimals.{decimals_orders, decimals_prints, decimals_text};
ghost use Rattle.ed_programs.specs.Programs.{GivesProgram, Prints};

use crate::filled::filled_program;
use crate::refusal::Refusal;
use std::alloc::Global;

/// The source.
pub const DECIMALS: [&str; 1] = [
    "version 2\n\
    ; Prints e, the base of the natural logarithms, to 100 decimals.\n\
    ;\n\
    ; e is 2 and the sum of 1/2, 1/(2*3), 1/(2*3*4) and so on. The list holds a numerator for each \
    divisor from 2 to 75,\n\
    ; and each begins as 1. For a decimal every numerator, from the last to the first, is multiplied by \
    ten; the carry from\n\
    ; the one after it is added; and the sum is divided by the divisor. What is left over stays, and \
    the quotient is the\n\
    ; carry to the one before. The carry out of the first is the next decimal.\n\
    ; Look for: the loops, one within the other: a division, a decimal, a group, a line; the two orders \
    at _load and\n\
    ; _store, which walk down the list together. In 1949 it would have taken twelve minutes.\n\
    segment main\n\
    O _figures F\n\
    O _two F\n\
    O _point F\n\
    _first: A _first F\n\
    G n F\n\
    _fill: T _scrap F\n\
    A _one F\n\
    _plant: T list F      ; every numerator is 1 at first: the address rises\n\
    A _plant F\n\
    A 2 F\n\
    U _plant F\n\
    S _full F\n\
    G _fill F\n\
    _decimal: T _scrap F\n\
    A _top F              ; begin at the last divisor\n\
    T _load F\n\
    A _bottom F\n\
    T _store F\n\
    A _most F\n\
    T _divisor F\n\
    T _carry F            ; no carry yet\n\
    _term: T _scrap F\n\
    _load: A list F       ; a numerator: the address falls\n\
    L D\n\
    U _rest F\n\
    L 1 F\n\
    A _rest F             ; ten times as much\n\
    A _carry F\n\
    T _rest F\n\
    T _carry F\n\
    A _rest F\n\
    _take: S _divisor F   ; the division, by taking the divisor away as long as that goes\n\
    G _over F\n\
    T _rest F\n\
    A _carry F\n\
    A _one F\n\
    T _carry F\n\
    A _rest F\n\
    E _take F\n\
    _over: A _divisor F\n\
    _store: T list F      ; what is left over stays\n\
    A _load F\n\
    S 2 F\n\
    T _load F\n\
    A _store F\n\
    S 2 F\n\
    T _store F\n\
    A _divisor F          ; the divisor before, down to 2\n\
    S _one F\n\
    U _divisor F\n\
    S _double F\n\
    E _term F\n\
    T _scrap F\n\
    A _carry F\n\
    L 512 F\n\
    L D                   ; to the head of the word\n\
    T _digit F\n\
    O _digit F\n\
    A _group F\n\
    A _one F\n\
    U _group F\n\
    G _decimal F          ; ten to a group\n\
    S _ten F\n\
    T _group F\n\
    A _line F\n\
    A _one F\n\
    U _line F\n\
    E _end F\n\
    O _space F\n\
    G _decimal F          ; five groups to a line\n\
    _end: S _five F\n\
    T _line F\n\
    _call: A _call F\n\
    G n F\n\
    A _lines F\n\
    A _one F\n\
    U _lines F\n\
    G _decimal F          ; two lines\n\
    Z F\n\
    _figures: # F\n\
    _two: W F           ; the code of 2\n\
    _point: M F           ; a full stop in figure shift\n\
    _space: ! F\n\
    _digit: P F\n\
    _group: word -10\n\
    _line: word -5\n\
    _lines: word -2\n\
    _one: word 1\n\
    _double: word 2\n\
    _five: word 5\n\
    _ten: word 10\n\
    _most: word 75\n\
    _divisor: P F\n\
    _carry: P F\n\
    _rest: P F\n\
    _scrap: P F\n\
    _full: T list+74 F    ; the order past the list, and the two that begin at its end\n\
    _top: A list+73 F\n\
    _bottom: T list+73 F\n\
    use newline as n\n\
    segment list          ; 74 places, which the program fills\n\
    enter main\n",
];

/// The source that prints e to 100 decimals: `examples/decimals.edsac`. The only refusal is `Memory`.
pub fn decimals_program(alloc: Global) -> Result<String, Refusal>
    ensures is { GivesProgram None decimals_text result }
    ensures law { Prints decimals_orders 135 decimals_prints result }
    ensures of_e { IsWholePart 100 (value (filter is_digit decimals_prints)) }
    ensures one { IsOneNumber }
    ensures by_carries { FiguresAreCarries }
    ensures method { MethodIsRight }
{
    filled_program(alloc, &DECIMALS, &[])
}
