ghost use Rattle.std.specs.Prelude.{◌≡◌, ◌≤◌, ◌++◌, IfOk, false};
ghost use Rattle.ed_postmortem.specs.Tape.{rows_of_text, tape_rows};

use ed_codes::{Code, letters, row_of_byte};
use ed_notation::{Item, rows_of_items};
use ed_words::NoMemory;
use std::alloc::Global;

/// The rows after the first three items: the orders of the post-mortem, ten words a line, between their directives.
const ORDERS: &[u8] = b"T56KGK\
    A83@S2FG63@T83@O64@OHO65@H66@CHT78@\
    H67@C78@T79@T80@A69@T19@T82@T81@A78@S73@\
    G26@T78@A81@A68@T81@E18@T82@A81@A80@S68@\
    G35@O81@T82@A68@T80@T82@A19@A2FU19@S70@\
    G16@A78@S79@L512FT81@O81@O64@A79@S67@E52@\
    O71@G53@O72@O76@O77@T82@A5@A2FT5@A8@\
    A2FT8@E@ZF*F#FP2047DPDQFS73@\
    S76@FFDFP1000FP100FP10F@F&FPFPF\
    PFPFPFPN\
    E56KPF";

/// The rows of the tape that prints the words at `count` locations from `first` upwards.
pub(crate) fn tape(alloc: Global, first: u16, count: u16) -> Result<Vec<Code>, NoMemory>
    requires first { first ≤ 1024 }
    requires count { count ≤ 1024 }
    ensures { IfOk result (λ v. v.items ≡ tape_rows first count) }
{
    let place_at_45 = item(Code::new(letters::T).unwrap(), 45, Code::K);
    let first = item(Code::P, first, Code::F);
    let count = item(Code::P, count, Code::F);
    let mut rows = rows_of_items(alloc, &[place_at_45, first, count])?;
    push_text(&mut rows, ORDERS)?;
    Ok(rows)
}

/// An item without a π.
fn item(function: Code, number: u16, end: Code) -> Item
    ensures { result ≡ record { function = function; number = number; mark = false; end = end } }
{
    Item {
        function,
        number,
        mark: false,
        end,
    }
}

/// Adds the rows of a text of letters, signs and digits at the end of the rows so far.
fn push_text(rows: &mut Vec<Code>, text: &[u8]) -> Result<(), NoMemory>
    ensures { IfOk result (λ v. rows.new.items ≡ rows.old.items ++ rows_of_text text.now) }
{
    for byte in text {
        let row = row_of_byte(*byte).unwrap_or_default();
        rows.push(row)?;
    }
    Ok(())
}
