//! Faults of meaning, of a line and of a whole source.
ghost use Rattle.std.specs.Prelude.{◌≡◌, ◌≤◌, ◌<◌, ◌^◌, ◌+◌, min, max, length, None, Some, is_some};
ghost use Rattle.std.specs.List.{list_any, list_all};
ghost use Rattle.ed_words.specs.Sizes.{locations};
ghost use Rattle.ed_library.specs.Routines.{find};
ghost use Rattle.ed_link.specs.Linked.{first_place, end_place, set_to};
ghost use Rattle.ed_link.specs.FaultTests.{any_enter, cause_of, has_no_routine, has_sandwich, use_cause};
ghost use Rattle.ed_link.specs.FaultTests.{is_in_segment};
ghost use Rattle.ed_link.specs.FaultTests.{is_misplaced, is_outside};
ghost use Rattle.ed_link.specs.FaultTests.{extent_at, is_rows, overlaps, reach, sets_otherwise, word_extent};
ghost use Rattle.ed_link.specs.FaultTests.{fault_line, earlier_fault};

use crate::building::Built;
use crate::operands::setting;
use ed_codes::Code;
use ed_library::find;
use ed_lines::{Line, Setting, SourceCause, SourceFault, Statement};
use ed_symbols::{Definition, LocationCounter, even, find_place};
use ed_words::Size;

/// An extent of locations, which may be empty.
#[derive(Clone, Copy)]
pub(crate) struct Extent {
    /// The first location.
    from: u64,
    /// The location after the last one.
    after: u64,
}

impl Extent {
    /// Whether two extents overlap.
    fn overlaps(self, other: Extent) -> bool
        ensures { result ≡ overlaps self other }
    {
        self.from.max(other.from) < self.after.min(other.after)
    }

    /// Whether it overlaps one of others.
    fn overlaps_any(self, others: &[Extent]) -> bool
        ensures { result ≡ list_any (λ other. overlaps self other) others.now }
    {
        for other in others {
            if self.overlaps(*other) {
                return true;
            }
        }
        false
    }
}

/// The locations of the Initial Orders.
const LOADER: Extent = Extent { from: 0, after: 44 };

/// The locations of the parameters.
const PARAMETERS: Extent = Extent {
    from: 44,
    after: 56,
};

/// The extent of a line's words.
pub(crate) fn extent_of(statement: &Option<Statement>, counter: LocationCounter) -> Extent
    requires place { counter.place ≤ 2 ^ 30 }
    requires segments { counter.segments ≤ 2000 }
    ensures { result ≡ word_extent statement.now counter }
{
    let after = counter.after_statement(statement).place;
    let from = match statement {
        Some(Statement::Segment { .. }) => after,
        Some(Statement::Fetch { .. }) => even(counter.place),
        _ => counter.place,
    };
    Extent {
        from: u64::from(from),
        after: u64::from(after),
    }
}

/// The extent that a line needs.
fn reach(symbols: &[Definition], statement: &Option<Statement>, counter: LocationCounter) -> Extent
    requires place { counter.place ≤ 2 ^ 30 }
    requires segments { counter.segments ≤ 2000 }
    ensures { result ≡ reach symbols.now statement.now counter }
{
    match statement {
        Some(Statement::Enter { name }) => match find_place(symbols, None, name) {
            Some(place) => Extent {
                from: u64::from(place),
                after: u64::from(place) + 1,
            },
            None => Extent { from: 0, after: 0 },
        },
        _ => extent_of(statement, counter),
    }
}

/// Whether a line must be in a segment, and isn't.
fn is_outside(line: &Line, counter: LocationCounter) -> bool
    ensures { result ≡ is_outside line.now counter }
{
    !counter.inside
        && (line.label.is_some()
            || matches!(
                line.statement,
                Some(
                    Statement::Order { .. }
                        | Statement::Number { .. }
                        | Statement::Text { .. }
                        | Statement::Long { .. }
                )
            ))
}

/// Whether each of some letters is set.
fn are_set(settings: &[Setting], letters: &[Code]) -> bool
    ensures { result ≡ list_all (λ c. is_some (set_to settings.now c)) letters.now }
{
    for letter in letters {
        if setting(settings, letter.value()).is_none() {
            return false;
        }
    }
    true
}

/// The fault of a `use`: a name that isn't in the catalogue, or settings that aren't exactly the routine's parameters.
fn use_cause(statement: &Option<Statement>) -> Option<SourceCause>
    ensures { result ≡ use_cause statement.now }
{
    match statement {
        Some(
            Statement::Fetch {
                routine,
                settings,
                ..
            },
        ) => match find(routine.text()) {
            Some(routine) => {
                let parameters = routine.parameters();
                if settings.len() == parameters.len() && are_set(settings, &parameters) {
                    None
                } else {
                    Some(SourceCause::Parameters)
                }
            }
            None => Some(SourceCause::NoSuchRoutine),
        },
        _ => None,
    }
}

/// Whether a line breaks the order of `enter` and `data`.
fn is_misplaced(entered: bool, has_enter: bool, line: &Line) -> bool
    ensures { result ≡ is_misplaced entered has_enter line.now }
{
    let is_rows = matches!(line.statement, Some(Statement::Rows { .. }));
    if entered {
        (line.label.is_some() || line.statement.is_some()) && !is_rows
    } else {
        has_enter && is_rows
    }
}

/// Whether a line is a `long` with a sandwich digit.
fn has_sandwich(statement: &Option<Statement>) -> bool
    ensures { result ≡ has_sandwich statement.now }
{
    match statement {
        Some(Statement::Long { value }) => value.halves().sandwich,
        _ => false,
    }
}

/// The fault of a line with the least number, among S9 to S17, after what was built of the lines before it.
pub(crate) fn cause_of(
    size: Size,
    symbols: &[Definition],
    has_enter: bool,
    built: &Built,
    line: &Line,
    counter: LocationCounter,
) -> Option<SourceCause>
    requires place { counter.place ≤ 2 ^ 30 }
    requires segments { counter.segments ≤ 2000 }
    ensures { result ≡ cause_of size symbols.now has_enter
        (record { extents = built.now.extents.items; entered = is_some built.now.entry }) line.now counter }
{
    let reach = reach(symbols, &line.statement, counter);
    let past_store = Extent {
        from: u64::from(size.value()),
        after: reach.after,
    };
    if is_outside(line, counter) {
        Some(SourceCause::OutsideSegment)
    } else if reach.overlaps(LOADER) {
        Some(SourceCause::LoaderStore)
    } else if reach.overlaps(PARAMETERS) {
        Some(SourceCause::ParameterStore)
    } else if reach.overlaps(past_store) {
        Some(SourceCause::StoreEnd)
    } else if extent_of(&line.statement, counter).overlaps_any(&built.extents) {
        Some(SourceCause::Overlap)
    } else if let Some(cause) = use_cause(&line.statement) {
        Some(cause)
    } else if is_misplaced(built.entry.is_some(), has_enter, line) {
        Some(SourceCause::Enter)
    } else if has_sandwich(&line.statement) {
        Some(SourceCause::SandwichDigit)
    } else {
        None
    }
}

/// Whether a program has an `enter` line.
pub(crate) fn any_enter(lines: &[Line]) -> bool
    ensures { result ≡ any_enter lines.now }
{
    for line in lines {
        if let Some(Statement::Enter { .. }) = line.statement {
            return true;
        }
    }
    false
}

/// The earlier of a fault of names, if there is one, and another fault.
pub(crate) fn earlier_fault(names: Option<SourceFault>, fault: SourceFault) -> SourceFault
    ensures { Some result ≡ earlier_fault names (Some fault) }
{
    match names {
        Some(names) => {
            if line_of(names) <= line_of(fault) {
                names
            } else {
                fault
            }
        }
        None => fault,
    }
}

/// The line of a fault.
fn line_of(fault: SourceFault) -> u32
    ensures { result ≡ fault_line fault }
{
    match fault {
        SourceFault::At { line, .. } => line,
        SourceFault::Memory => 0,
    }
}
