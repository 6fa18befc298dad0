ghost use Rattle.std.specs.Prelude.{◌≡◌, ◌++◌, ◌<◌, ◌≤◌, IfOk, string_bytes};
ghost use Rattle.ed_sources.specs.CallSources.{text_of_lines};
ghost use Rattle.ed_sources.specs.DemoRuns.{RunsAsDemo};
ghost use Rattle.ed_sources.specs.DemoSources.{adding_text, number_after, demo_text, next, segments, word_lines, number_word};

use crate::filling::filled;
use ed_words::NoMemory;
use std::alloc::Global;

/// The program that adds up words and prints the sum, with a gap for their number: the order at `add` adds them one
/// after the other, until it equals the order at `stop`, which would add the word after the last.
pub const ADDING: [&str; 2] = [
    "segment main\n\
    loop: T junk F\n\
    A total F\n\
    add: A s1 F\n\
    T total F\n\
    A add F\n\
    A 2 F\n\
    U add F\n\
    S stop F\n\
    G loop F\n\
    T junk F\n\
    here: A here F\n\
    G p F\n\
    Z F\n\
    stop: A s1+",
    " F\n\
    junk: P F\n\
    total: P F\n\
    use print as p with H=total\n",
];

/// The source of a program that adds up the words of `n` segments and prints the sum. Each segment has 8 words, and all
/// come from one sequence of numbers, which begins after `n`.
pub fn demo_source(alloc: Global, n: u32) -> Result<Vec<u8>, NoMemory>
    requires some { 1 ≤ n }
    requires few { n ≤ 112 }
    ensures is { IfOk result (λ bytes. bytes.items ≡ demo_text n) }
    ensures runs { IfOk result (λ bytes. RunsAsDemo n bytes.items) }
{
    let mut text = filled(alloc, &ADDING, &[8 * n as u16])?;
    push_segments(&mut text, n)?;
    text.push_str("enter main\n")?;
    Ok(text.into_bytes())
}

/// Adds `n` segments to a source.
fn push_segments(text: &mut String, n: u32) -> Result<(), NoMemory>
    requires { n ≤ 112 }
    ensures { IfOk result (λ _. string_bytes text.new ≡ string_bytes text.old ++ text_of_lines (segments n 1 n)) }
{
    let mut number = n;
    for done in 0..n {
        writeln!(text, "segment s{}", done + 1)?;
        number = push_words(text, number)?;
    }
    Ok(())
}

/// Adds the 8 words of the numbers after a given one to a source, and answers the last of these numbers.
fn push_words(text: &mut String, before: u32) -> Result<u32, NoMemory>
    requires { before < 65536 }
    ensures last { IfOk result (λ last. last ≡ number_after 8 before) }
    ensures text { IfOk result
        (λ _. string_bytes text.new ≡ string_bytes text.old ++ text_of_lines (word_lines 8 before)) }
{
    let mut number = before;
    for _word in 0..8u32 {
        number = next(number);
        writeln!(text, "word {}", number / 1024)?;
    }
    Ok(number)
}

/// The number after a given one in the sequence.
fn next(number: u32) -> u32
    requires { number < 65536 }
    ensures { result ≡ next number }
{
    (1105 * number + 12345) % 65536
}
