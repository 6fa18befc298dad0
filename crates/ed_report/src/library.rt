ghost use Rattle.std.specs.Prelude.{◌≡◌, ◌++◌, IfOk, flat_map};
ghost use Rattle.ed_library.specs.Entries.{entry};
ghost use Rattle.ed_report.specs.Catalogue.{library_text, parameter_text, routine_line};

use crate::text::bytes_of_text;
use ed_codes::byte_of;
use ed_library::{Routine, catalogue_size, routine};
use ed_words::NoMemory;
use std::alloc::Global;

/// A line for each routine of the library, in order of name: its name, its number of words, and the letters of its
/// preset parameters.
pub fn library_text(alloc: Global) -> Result<Vec<u8>, NoMemory>
    ensures { IfOk result (λ bytes. bytes.items ≡ library_text) }
{
    let mut lines = Vec::new(alloc);
    for index in 0..catalogue_size() {
        let line = routine_line(alloc, routine(index))?;
        lines.extend_from_slice(&line)?;
    }
    Ok(lines)
}

/// The line of a routine.
fn routine_line(alloc: Global, routine: Routine) -> Result<Vec<u8>, NoMemory>
    ensures { IfOk result (λ bytes. bytes.items ≡ routine_line (entry routine)) }
{
    let name = routine.name();
    let places = routine.length();
    let mut line = bytes_of_text(format!(in alloc; "{name} {places}"))?;
    push_parameters(&mut line, routine)?;
    line.push(b'\n')?;
    Ok(line)
}

/// Adds the letters of a routine's preset parameters, each after a blank.
fn push_parameters(line: &mut Vec<u8>, routine: Routine) -> Result<(), NoMemory>
    ensures { IfOk result (λ _. line.new.items ≡ line.old.items ++ flat_map parameter_text (entry routine).parameters) }
{
    let letters = routine.parameters();
    let listed = letters.as_slice();
    for letter in listed {
        let text = [b' ', byte_of(*letter, false)];
        line.extend_from_slice(&text)?;
    }
    Ok(())
}
