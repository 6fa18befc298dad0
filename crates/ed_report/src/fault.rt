ghost use Rattle.std.specs.Prelude.{◌≡◌, ◌≢◌, ◌++◌, ◌∷◌, [], IfOk, codes};
ghost use Rattle.std.specs.Fmt.{decimal};
ghost use Rattle.ed_codes.specs.declared.tape.TextFault.TheVariants.{Memory};
ghost use Rattle.ed_report.specs.Notes.{cause_text, part_line, source_cause_text};
ghost use Rattle.ed_report.specs.Notes.{source_fault_line, tape_fault_line, text_fault_line};

use crate::text::bytes_of_text;
use ed_codes::TextFault;
use ed_lines::{SourceCause, SourceFault};
use ed_notation::{TapeCause, TapeFault};
use ed_words::NoMemory;
use std::alloc::Global;

/// The line that reports a fault of a tape text, with the byte's offset counted from 0.
pub fn text_fault(alloc: Global, fault: &TextFault) -> Result<Vec<u8>, NoMemory>
    requires { fault.now ≢ Memory }
    ensures { IfOk result (λ bytes. bytes.items ≡ text_fault_line fault.now) }
{
    match fault {
        TextFault::NoRow { place, .. } => place_note(alloc, "byte", *place as u64, "T1 no row"),
        TextFault::OpenComment { place } => place_note(
            alloc,
            "byte",
            *place as u64,
            "T2 open comment",
        ),
        TextFault::Memory => unreachable!(),
    }
}

/// The line that reports a fault of a tape, with the row counted from 0.
pub fn tape_fault(alloc: Global, fault: &TapeFault) -> Result<Vec<u8>, NoMemory>
    requires { fault.now ≢ TapeFault.Memory }
    ensures { IfOk result (λ bytes. bytes.items ≡ tape_fault_line fault.now) }
{
    match fault {
        TapeFault::At { row, cause } => {
            place_note(alloc, "row", *row as u64, cause_text(*cause))
        }
        TapeFault::Memory => unreachable!(),
    }
}

/// The line that reports a rule broken in a part of a tape, with the parts counted from 1 and the row from 0 at the
/// tape's first.
pub fn part_fault(
    alloc: Global,
    part: u32,
    row: usize,
    cause: TapeCause,
) -> Result<Vec<u8>, NoMemory>
    ensures { IfOk result (λ bytes. bytes.items ≡ part_line part row cause) }
{
    let place = format!(in alloc; "part {part}, row")?;
    place_note(alloc, &place, row as u64, cause_text(cause))
}

/// The line of a note on a byte, a row or a line, with its number.
pub(crate) fn place_note(
    alloc: Global,
    kind: &str,
    number: u64,
    note: &str,
) -> Result<Vec<u8>, NoMemory>
    ensures { IfOk result (λ bytes. bytes.items
        ≡ kind.now ++ codes " " ++ decimal number ++ codes ": " ++ note.now ++ 10 ∷ []) }
{
    bytes_of_text(format!(in alloc; "{kind} {number}: {note}\n"))
}

/// The number and the text of a rule of the tape notation.
fn cause_text(cause: TapeCause) -> &'static str
    ensures { result.now ≡ cause_text cause }
{
    match cause {
        TapeCause::EndOfTape => "N1 end of tape",
        TapeCause::BadRow => "N2 bad row",
        TapeCause::NumberTooLarge => "N3 number too large",
        TapeCause::AfterMark => "N4 after mark",
        TapeCause::BadControl => "N5 bad control",
        TapeCause::LoaderStore => "N6 loader store",
        TapeCause::StoreEnd => "N7 store end",
        TapeCause::NoPlace => "N8 no place",
        TapeCause::EntryNegative => "N9 entry negative",
        TapeCause::EntryInLoader => "N10 entry in loader",
    }
}

/// The line that reports a fault of a source.
pub fn source_fault(alloc: Global, fault: &SourceFault) -> Result<Vec<u8>, NoMemory>
    requires { fault.now ≢ SourceFault.Memory }
    ensures { IfOk result (λ bytes. bytes.items ≡ source_fault_line fault.now) }
{
    match fault {
        SourceFault::At { line, cause } => place_note(
            alloc,
            "line",
            u64::from(*line),
            source_cause_text(*cause),
        ),
        SourceFault::Memory => unreachable!(),
    }
}

/// The number and the text of a fault of a source.
fn source_cause_text(cause: SourceCause) -> &'static str
    ensures { result.now ≡ source_cause_text cause }
{
    match cause {
        SourceCause::BadByte => "S1 bad byte",
        SourceCause::LongLine => "S2 long line",
        SourceCause::NotAStatement => "S3 not a statement",
        SourceCause::NumberRange => "S4 number out of range",
        SourceCause::TooManyLines => "S5 too many lines",
        SourceCause::LabelTwice => "S6 label twice",
        SourceCause::LabelUnknown => "S7 unknown label",
        SourceCause::AddressRange => "S8 address out of range",
        SourceCause::OutsideSegment => "S9 outside a segment",
        SourceCause::LoaderStore => "S10 loader store",
        SourceCause::ParameterStore => "S11 parameter store",
        SourceCause::StoreEnd => "S12 store end",
        SourceCause::Overlap => "S13 overlap",
        SourceCause::NoSuchRoutine => "S14 no such routine",
        SourceCause::Parameters => "S15 parameters",
        SourceCause::Enter => "S16 enter",
        SourceCause::SandwichDigit => "S17 sandwich digit",
    }
}
