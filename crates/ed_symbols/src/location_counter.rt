//! The location of a line.
ghost use Rattle.std.specs.Prelude.{◌≡◌, ◌+◌, ◌≤◌, ◌^◌, unwrap_or};
ghost use Rattle.ed_library.specs.Routines.{find};
ghost use Rattle.ed_symbols.specs.Places.{even_from, first_counter, after_statement, segment_at};
ghost use Rattle.ed_symbols.specs.Places.{routine_places};

use ed_library::find;
use ed_lines::{Name, Statement};

/// The location counter and the segment before a line.
#[derive(Clone, Copy)]
pub struct LocationCounter {
    /// The location before the line.
    pub place: u32,
    /// The location at which the last `segment` or `use` line before it begins, or 56 if there is none.
    pub base: u32,
    /// The number of `segment` and `use` lines before the line.
    pub segments: u32,
    /// Whether the last of these is a `segment` line.
    pub inside: bool,
}

/// The location before a line, and the segment to which the line belongs.
#[derive(Clone, Copy)]
pub(crate) struct LinePosition {
    pub(crate) place: u32,
    pub(crate) segment: Option<u32>,
}

/// A location, rounded up to even.
pub fn even(place: u32) -> u32
    requires { place ≤ 2 ^ 30 }
    ensures is { result ≡ even_from place }
    ensures near { result ≤ place + 1 }
{
    place + place % 2
}

/// The number of words of a routine, and 0 for an unknown one.
fn routine_length(routine: &Name) -> u32
    ensures is { result ≡ routine_places (find routine.now) }
    ensures few { result ≤ 65535 }
{
    match find(routine.text()) {
        Some(routine) => u32::from(routine.length()),
        None => 0,
    }
}

/// The base of a segment, or the current location if it has none.
pub(crate) fn base_or(base: &Option<u16>, place: u32) -> u32
    ensures is { result ≡ unwrap_or base.now place }
    ensures near { result ≤ place + 65535 }
{
    match base {
        Some(base) => u32::from(*base),
        None => place,
    }
}

impl LocationCounter {
    /// Before the first line.
    pub fn first() -> LocationCounter
        ensures { result ≡ first_counter }
    {
        LocationCounter {
            place: 56,
            base: 56,
            segments: 0,
            inside: false,
        }
    }

    /// After a statement.
    pub fn after_statement(self, statement: &Option<Statement>) -> LocationCounter
        requires place { self.place ≤ 2 ^ 30 }
        requires segments { self.segments ≤ 2000 }
        ensures is { result ≡ after_statement statement.now self }
        ensures place { result.place ≤ self.place + 65536 }
        ensures segments { result.segments ≤ self.segments + 1 }
    {
        match statement {
            None | Some(Statement::Enter { .. } | Statement::Rows { .. }) => self,
            Some(Statement::Order { .. } | Statement::Number { .. }) => LocationCounter {
                place: self.place + 1,
                ..self
            },
            Some(Statement::Text { codes }) => LocationCounter {
                place: self.place + codes.len() as u32,
                ..self
            },
            Some(Statement::Long { .. }) => LocationCounter {
                place: even(self.place) + 2,
                ..self
            },
            Some(Statement::Segment { base, .. }) => {
                let base = base_or(base, self.place);
                LocationCounter {
                    place: base,
                    base,
                    segments: self.segments + 1,
                    inside: true,
                }
            }
            Some(Statement::Fetch { routine, .. }) => {
                let base = even(self.place);
                LocationCounter {
                    place: base + routine_length(routine),
                    base,
                    segments: self.segments + 1,
                    inside: false,
                }
            }
        }
    }

    /// The segment of the location counter.
    pub fn segment(self) -> Option<u32>
        ensures { result ≡ segment_at self }
    {
        if self.inside {
            Some(self.segments)
        } else {
            None
        }
    }
}
