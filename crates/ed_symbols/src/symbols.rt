//! Where names are defined.
ghost use Rattle.std.specs.Prelude.{◌≡◌, ◌++◌, ◌≤◌, ◌^◌, IfOk, OnOk, option_map};
ghost use Rattle.ed_symbols.specs.Names.{line_definitions, definition_of, is_definition_of, is_local};
ghost use Rattle.ed_symbols.specs.Names.{label_definition, as_list, statement_definition};
ghost use Rattle.ed_symbols.specs.Names.{place_on};
ghost use Rattle.ed_symbols.specs.NameTests.{defines_again, is_again};

use crate::location_counter::{LocationCounter, base_or, even};
use ed_lines::{Line, Name, Statement};
use ed_words::NoMemory;

/// The definition of a name.
#[derive(Clone, Copy)]
pub struct Definition {
    pub name: Name,
    /// The location of the name.
    pub place: u32,
    /// The number of the segment to which the name belongs: a label to that of its line, a segment's name to its own,
    /// and the second name of a `use` to none.
    pub segment: Option<u32>,
}

/// The definition by a line's label.
fn label_definition(line: &Line, counter: LocationCounter) -> Option<Definition>
    requires { counter.place ≤ 2 ^ 30 }
    ensures { result ≡ label_definition line.now.label line.now.statement counter }
{
    let place = match line.statement {
        Some(Statement::Long { .. }) => even(counter.place),
        _ => counter.place,
    };
    match line.label {
        Some(name) => Some(Definition {
            name,
            place,
            segment: counter.segment(),
        }),
        None => None,
    }
}

/// The definition by a statement.
fn statement_definition(
    statement: &Option<Statement>,
    counter: LocationCounter,
) -> Option<Definition>
    requires place { counter.place ≤ 2 ^ 30 }
    requires segments { counter.segments ≤ 2000 }
    ensures { result ≡ statement_definition statement.now counter }
{
    match statement {
        Some(Statement::Segment { name, base }) => Some(Definition {
            name: *name,
            place: base_or(base, counter.place),
            segment: Some(counter.segments + 1),
        }),
        Some(Statement::Fetch { name, .. }) => Some(Definition {
            name: *name,
            place: even(counter.place),
            segment: None,
        }),
        _ => None,
    }
}

/// Whether a name is local.
pub fn is_local(name: &Name) -> bool
    ensures { result ≡ is_local name.now }
{
    match name.text().as_bytes().split_first() {
        Some((first, _)) => *first == b'_',
        None => false,
    }
}

impl Definition {
    /// Whether this is a definition of a name, as seen from a line of a segment.
    fn is_of(&self, segment: Option<u32>, name: &Name) -> bool
        ensures { result ≡ is_definition_of segment name.now self.now }
    {
        let same_segment = match (self.segment, segment) {
            (Some(own), Some(other)) => own == other,
            _ => false,
        };
        self.name == *name && (!is_local(name) || same_segment)
    }
}

/// The first definition of a name, as seen from a line of a segment.
pub fn find_definition(
    symbols: &[Definition],
    segment: Option<u32>,
    name: &Name,
) -> Option<Definition>
    ensures { result ≡ definition_of segment name.now symbols.now }
{
    for definition in symbols {
        if definition.is_of(segment, name) {
            return Some(*definition);
        }
    }
    None
}

/// The location of a name on a line of a segment, if it is known there.
pub fn find_place(symbols: &[Definition], segment: Option<u32>, name: &Name) -> Option<u32>
    ensures { result ≡ place_on symbols.now segment name.now }
{
    match find_definition(symbols, segment, name) {
        Some(definition) => Some(definition.place),
        None => None,
    }
}

/// Adds a definition, and answers whether its name was defined already.
fn add(symbols: &mut Vec<Definition>, definition: Option<Definition>) -> Result<bool, NoMemory>
    ensures symbols { OnOk result (symbols.new.items ≡ symbols.old.items ++ as_list definition) }
    ensures again { IfOk result (λ again. again ≡ is_again symbols.old.items definition) }
{
    match definition {
        Some(definition) => {
            let again = find_definition(symbols, definition.segment, &definition.name).is_some();
            symbols.push(definition)?;
            Ok(again)
        }
        None => Ok(false),
    }
}

/// Adds what a line defines, and answers whether one of its names was defined already.
pub(crate) fn add_line(
    symbols: &mut Vec<Definition>,
    line: &Line,
    counter: LocationCounter,
) -> Result<bool, NoMemory>
    requires place { counter.place ≤ 2 ^ 30 }
    requires segments { counter.segments ≤ 2000 }
    ensures symbols { OnOk result (symbols.new.items ≡ symbols.old.items ++ line_definitions line.now counter) }
    ensures again { IfOk result (λ again. again ≡ defines_again symbols.old.items line.now counter) }
{
    let label_again = add(symbols, label_definition(line, counter))?;
    let name_again = add(symbols, statement_definition(&line.statement, counter))?;
    Ok(label_again || name_again)
}
