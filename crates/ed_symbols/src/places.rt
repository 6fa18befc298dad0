ghost use Rattle.std.specs.Prelude.{◌≡◌, ◌-◌, ◌≤◌, IfOk, None, [], length};
ghost use Rattle.ed_symbols.specs.NameTests.{naming_fault_from};
ghost use Rattle.ed_symbols.specs.NameFaults.{EachHasOneNameFault, NameFaultIs};
ghost use Rattle.ed_symbols.specs.Names.{definition_of, symbols_from, place_on};
ghost use Rattle.ed_symbols.specs.Places.{first_counter, positions_from};
ghost use Rattle.ed_symbols.specs.Readers.{line_place, line_segment};

use crate::faults::statement_cause;
use crate::location_counter::{LinePosition, LocationCounter};
use crate::symbols::{Definition, add_line, find_definition, find_place};
use ed_lines::{Name, Program, SourceCause, SourceFault};
use ed_words::NoMemory;
use std::alloc::Global;
use std::marker::Model;

/// The locations of a source's lines and names, and the first fault of its names.
#[derive(Drop)]
pub struct Places {
    positions: Vec<LinePosition>,
    symbols: Vec<Definition>,
    fault: Option<SourceFault>,
}

impl Model for Places {
    ghost use Rattle.ed_symbols.specs.Readers.{Resolved};

    ghost Value = { Resolved };

    ghost view = { λ p. record { positions = p.positions.items; symbols = p.symbols.items; fault = p.fault } };
}

/// The locations of a program's lines, and what they define.
fn resolve_places(
    alloc: Global,
    program: &Program,
) -> Result<(Vec<LinePosition>, Vec<Definition>), NoMemory>
    ensures positions { IfOk result (λ r. r.0.items ≡ positions_from first_counter program.now.lines.items) }
    ensures symbols { IfOk result (λ r. r.1.items ≡ symbols_from first_counter program.now.lines.items) }
    ensures lines { IfOk result (λ r. length r.0.items ≡ length program.now.lines.items) }
{
    let mut positions = Vec::new(alloc);
    let mut symbols = Vec::new(alloc);
    let mut counter = LocationCounter::first();
    for line in &program.lines {
        let next = counter.after_statement(&line.statement);
        positions.push(LinePosition {
            place: counter.place,
            segment: next.segment(),
        })?;
        let _ = add_line(&mut symbols, line, counter)?;
        counter = next;
    }
    Ok((positions, symbols))
}

/// The first fault of a program's names.
fn find_fault(
    alloc: Global,
    symbols: &[Definition],
    program: &Program,
) -> Result<Option<SourceFault>, NoMemory>
    ensures { IfOk result (λ fault. fault ≡ naming_fault_from symbols.now [] first_counter program.now.lines.items) }
{
    let mut earlier = Vec::new(alloc);
    let mut counter = LocationCounter::first();
    for line in &program.lines {
        let again = add_line(&mut earlier, line, counter)?;
        let next = counter.after_statement(&line.statement);
        let cause = if again {
            Some(SourceCause::LabelTwice)
        } else {
            statement_cause(symbols, next.segment(), &line.statement)
        };
        if let Some(cause) = cause {
            return Ok(Some(SourceFault::At {
                line: line.number,
                cause,
            }));
        }
        counter = next;
    }
    Ok(None)
}

/// The locations of a program's lines and names.
pub fn resolve(alloc: Global, program: &Program) -> Result<Places, NoMemory>
    ensures fault { IfOk result (λ p. NameFaultIs program.now.lines.items p.fault) }
    ensures one { EachHasOneNameFault }
    ensures positions { IfOk result (λ p. p.positions ≡ positions_from first_counter program.now.lines.items) }
    ensures symbols { IfOk result (λ p. p.symbols ≡ symbols_from first_counter program.now.lines.items) }
    ensures lines { IfOk result (λ p. length p.positions ≡ length program.now.lines.items) }
{
    let (positions, symbols) = resolve_places(alloc, program)?;
    let fault = find_fault(alloc, &symbols, program)?;
    Ok(Places {
        positions,
        symbols,
        fault,
    })
}

impl Places {
    /// What the source defines, in its order: the labels, the names of segments and the second names of `use` lines.
    pub fn symbols(&self) -> &[Definition]
        ensures { result.now ≡ self.now.symbols }
    {
        self.symbols.as_slice()
    }

    /// The location before a line. The line is one of the program, counted from 1.
    pub fn line_place(&self, line: u32) -> u32
        requires from_one { 1 ≤ line }
        requires of_the_program { line ≤ length self.now.positions }
        ensures { result ≡ line_place self.now line }
    {
        self.positions[(line - 1) as usize].place
    }

    /// The number of the segment to which a line belongs, if it belongs to one. The line is one of the program, counted
    /// from 1.
    pub fn line_segment(&self, line: u32) -> Option<u32>
        requires from_one { 1 ≤ line }
        requires of_the_program { line ≤ length self.now.positions }
        ensures { result ≡ line_segment self.now line }
    {
        self.positions[(line - 1) as usize].segment
    }

    /// The location of a name that isn't local, by its first definition; None for a local name.
    pub fn label(&self, name: &Name) -> Option<u32>
        ensures { result ≡ place_on self.now.symbols None name.now }
    {
        find_place(&self.symbols, None, name)
    }

    /// The location of a name on a line of the program, counted from 1. A local name has one on the lines of a segment
    /// that defines it.
    pub fn label_at(&self, line: u32, name: &Name) -> Option<u32>
        requires from_one { 1 ≤ line }
        requires of_the_program { line ≤ length self.now.positions }
        ensures { result ≡ place_on self.now.symbols (line_segment self.now line) name.now }
    {
        find_place(&self.symbols, self.line_segment(line), name)
    }

    /// The definition of a name that a line sees, with the number of the segment to which the name belongs. The line is
    /// one of the program, counted from 1.
    pub fn home_at(&self, line: u32, name: &Name) -> Option<Definition>
        requires from_one { 1 ≤ line }
        requires of_the_program { line ≤ length self.now.positions }
        ensures { result ≡ definition_of (line_segment self.now line) name.now self.now.symbols }
    {
        find_definition(&self.symbols, self.line_segment(line), name)
    }

    /// The first of the faults S6 to S8 by line and then number, if there is one.
    pub fn fault(&self) -> Option<SourceFault>
        ensures { result ≡ self.now.fault }
    {
        self.fault
    }
}
