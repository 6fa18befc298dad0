ghost use Rattle.std.specs.Prelude.{◌≡◌, [], IfOk};
ghost use Rattle.ed_report.specs.Traces.{trace_text};

use ed_codes::{Code, byte_of};
use ed_words::NoMemory;
use std::alloc::Global;

/// The number of letters on a line of a trace.
pub const LETTERS: usize = 50;

/// The trace of the functions of orders: the letter or sign of each, never a digit, 50 to a line. The last line ends
/// with a line feed if it has a letter.
pub fn trace_text(alloc: Global, functions: &[Code]) -> Result<Vec<u8>, NoMemory>
    ensures { IfOk result (λ bytes. bytes.items ≡ trace_text functions.now) }
{
    let mut text = Vec::new(alloc);
    write_trace(&mut text, functions)?;
    Ok(text)
}

/// Writes the trace of the functions to an empty text.
fn write_trace(text: &mut Vec<u8>, functions: &[Code]) -> Result<(), NoMemory>
    requires { text.old.items ≡ [] }
    ensures { IfOk result (λ _. text.new.items ≡ trace_text functions.now) }
{
    for (place, function) in functions.iter().enumerate() {
        text.push(byte_of(*function, false))?;
        if (place + 1) % LETTERS == 0 {
            text.push(b'\n')?;
        }
    }
    if functions.len() % LETTERS != 0 {
        text.push(b'\n')?;
    }
    Ok(())
}
