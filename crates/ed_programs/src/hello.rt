ghost use Rattle.std.specs.Prelude.{[], ◌∷◌, ◌++◌};
ghost use Rattle.ed_programs.specs.Hello.{EachTextIsPrinted, hello_orders, hello_text, letters_refusal};
ghost use Rattle.ed_programs.specs.Hello.{of_letters};
ghost use Rattle.ed_programs.specs.Programs.{GivesProgram, Prints};

use crate::letters::check_letters;
use crate::refusal::{Refusal, program_of_text};
use std::alloc::Global;

/// The source, with a gap for the number of the text's rows and one for the text.
pub const HELLO: [&str; 3] = [
    "version 2\n\
    ; Prints HELLO and goes to a new line. The order at _print is changed as it runs: its address rises by one.\n\
    ; Look for: the test that ends the loop, which compares the order itself with the one that must not be obeyed.\n\
    segment main\n\
    _next: T _scrap F     ; clear the accumulator\n\
    _print: O letters F   ; print a letter\n\
    A _print F\n\
    A 2 F                 ; location 2 holds 2, which is one address\n\
    U _print F            ; the order that prints the next letter\n\
    S _last F             ; negative as long as letters are left\n\
    G _next F\n\
    T _scrap F\n\
    _call: A _call F      ; the library's way to call a routine: the order itself,\n\
    G n F                 ; and the jump to the routine\n\
    Z F\n\
    _last: O letters+",
    " F  ; the order behind the last letter\n\
    _scrap: P F\n\
    segment text\n\
    letters: text \"",
    "\"\n\
    use newline as n\n\
    enter main\n",
];

/// The most letters that the program prints.
const MOST_LETTERS: usize = 40;

/// The source that prints these letters and a new line: `examples/hello.edsac` with these instead of `HELLO`.
pub fn hello_program(alloc: Global, letters: &str) -> Result<String, Refusal>
    ensures is { GivesProgram (letters_refusal 40 letters.now) (hello_text (of_letters letters.now)) result }
    ensures law { Prints (hello_orders letters.now) 67 (letters.now ++ 13 ∷ 10 ∷ []) result }
    ensures texts { EachTextIsPrinted }
{
    check_letters(letters, MOST_LETTERS)?;
    let rows = letters.len() + 1;
    let [head, middle, tail] = HELLO;
    program_of_text(format!(in alloc; "{head}{rows}{middle}*{letters}{tail}"))
}
