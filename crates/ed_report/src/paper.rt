ghost use Rattle.std.specs.Prelude.{◌≡◌, ◌++◌, IfOk};
ghost use Rattle.ed_printer.specs.Paper.{paper};

use ed_codes::Code;
use ed_printer::Printer;
use ed_words::NoMemory;
use std::alloc::Global;

/// The bytes that codes print, starting in letter shift.
pub fn paper_text(alloc: Global, codes: &[Code]) -> Result<Vec<u8>, NoMemory>
    ensures { IfOk result (λ bytes. bytes.items ≡ paper codes.now) }
{
    let mut printer = Printer::new();
    Ok(printer.text_of(alloc, codes)?)
}

/// The bytes that two papers print, starting in letter shift: the second begins in the shift that the first leaves.
pub fn papers_text(alloc: Global, first: &[Code], second: &[Code]) -> Result<Vec<u8>, NoMemory>
    ensures { IfOk result (λ bytes. bytes.items ≡ paper (first.now ++ second.now)) }
{
    let mut printer = Printer::new();
    let mut bytes = printer.text_of(alloc, first)?;
    let more = printer.text_of(alloc, second)?;
    bytes.extend_from_slice(&more)?;
    Ok(bytes)
}
