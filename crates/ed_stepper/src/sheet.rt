//! A text that grows; its last line is held back.
ghost use Rattle.std.specs.Prelude.{◌≡◌, [], ◌≤◌, ◌+◌, vec_capacity, vec_len, MatchResult, IfOk};
ghost use Rattle.ed_io.specs.Bytes.{Gains, GainsPart};
ghost use Rattle.ed_io.specs.Causes.{faults_after};
ghost use Rattle.ed_stepper.specs.Private.Growth.{EndsLine, Puts};

use ed_io::{Failed, Sink, write_all};

/// Writes what is held back of a text.
fn flush<K: Sink>(out: &mut K, line: &mut Vec<u8>) -> Result<(), Failed>
    ensures written { MatchResult result
        (λ _. Gains (K.held out.old) (K.held out.new) line.old.items)
        (λ _. GainsPart (K.held out.old) (K.held out.new) line.old.items) }
    ensures empty { IfOk result (λ _. line.new.items ≡ []) }
    ensures room { vec_capacity line.new ≡ vec_capacity line.old }
    ensures faults { K.faults out.new ≡ faults_after result (K.faults out.old) }
{
    write_all(out, line)?;
    line.clear();
    Ok(())
}

/// Adds a letter to a line, and writes the line if it is then full.
pub(crate) fn put<K: Sink>(
    out: &mut K,
    line: &mut Vec<u8>,
    letter: u8,
    full: bool,
) -> Result<(), Failed>
    requires { vec_len line.old + 2 ≤ vec_capacity line.old }
    ensures puts { Puts full result (K.held out.old) (K.held out.new) line.old.items letter line.new.items }
    ensures room { vec_capacity line.new ≡ vec_capacity line.old }
    ensures faults { K.faults out.new ≡ faults_after result (K.faults out.old) }
{
    line.push_reserved(letter);
    if full {
        line.push_reserved(b'\n');
        return flush(out, line);
    }
    Ok(())
}

/// Ends the last line, if it has a letter.
pub(crate) fn end_line<K: Sink>(out: &mut K, line: &mut Vec<u8>) -> Result<(), Failed>
    requires { vec_len line.old + 1 ≤ vec_capacity line.old }
    ensures ends { EndsLine line.old.items result (K.held out.old) (K.held out.new) }
    ensures faults { K.faults out.new ≡ faults_after result (K.faults out.old) }
{
    if line.is_empty() {
        return Ok(());
    }
    line.push_reserved(b'\n');
    flush(out, line)
}
