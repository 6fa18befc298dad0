ghost use Rattle.std.specs.Fmt.{decimal};
ghost use Rattle.ed_programs.specs.Greatest.{greatest_of, greatest_orders, greatest_refusal, greatest_text};
ghost use Rattle.ed_programs.specs.Programs.{GivesProgram, Prints};

use crate::filled::filled_program;
use crate::refusal::Refusal;
use std::alloc::Global;

/// The source before the first number and after the last.
pub const GREATEST: [&str; 2] = [
    "version 2\n\
    ; The sixth lesson's answer: the greatest number of a list. Two orders go along the list, and both are \
    changed.\n\
    ; Look for: two orders with one address, which both go on.\n\
    segment main\n\
    _next: T _scrap F\n\
    _look: A list F       ; the next number\n\
    S greatest F\n\
    G _on F               ; it is smaller\n\
    T _scrap F\n\
    _take: A list F       ; the same number once more\n\
    T greatest F\n\
    _on: T _scrap F\n\
    A _take F\n\
    A 2 F\n\
    T _take F\n\
    A _look F\n\
    A 2 F\n\
    U _look F\n\
    S _last F\n\
    G _next F             ; below 0: more numbers are left\n\
    T _scrap F\n\
    _print: A _print F\n\
    G p F\n\
    Z F\n\
    greatest: P F\n\
    _last: A list+8 F\n\
    _scrap: P F\n\
    segment numbers\n\
    list: word ",
    "\n\
    use print as p with H=greatest\n\
    enter main\n",
];

/// The source that prints the greatest of eight numbers: `examples/answer6.edsac` with these for its list.
pub fn greatest_program(alloc: Global, numbers: &[u16]) -> Result<String, Refusal>
    ensures is { GivesProgram (greatest_refusal numbers.now) (greatest_text numbers.now) result }
    ensures law { Prints (greatest_orders numbers.now) 76 (decimal (greatest_of numbers.now)) result }
{
    if numbers.len() != 8 {
        return Err(Refusal::Count);
    }
    let [head, tail] = GREATEST;
    let mut pieces = ["\nword "; 9];
    pieces[0] = head;
    pieces[8] = tail;
    filled_program(alloc, &pieces, numbers)
}
