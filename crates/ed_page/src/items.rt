//! The items of a tape: the rows that spell each, and the word that it places.

ghost use Rattle.std.specs.Prelude.{◌≡◌, ◌+◌, ◌*◌, ◌≤◌, ◌<◌, ◌^◌, [], ◌∷◌, ◌++◌, Err, IfOk, MatchResult, None, length, take, ℕ};
ghost use Rattle.std.specs.List.{flat_map};
ghost use Rattle.ed_store.specs.Cells.{cleared_cells, with_short};
ghost use Rattle.ed_notation.specs.Checks.{AnswersCheck};
ghost use Rattle.ed_notation.specs.Fold.{control_of, item_word, with_kay, with_zed};
ghost use Rattle.ed_notation.specs.Items.{row_kind};
ghost use Rattle.ed_notation.specs.declared.kind.RowKind.TheVariants.{Digit};
ghost use Rattle.ed_page.specs.Answers.{IsTextWritten, text_buffers};
ghost use Rattle.ed_page.specs.Pictures.{size_shown};
ghost use Rattle.ed_tapes.specs.Tapes.{opening_notation};
ghost use Rattle.ed_page.specs.Private.ItemTables.{IsSetAs, IsSetBelow, first_notation, is_last_row, item_at};
ghost use Rattle.ed_page.specs.Private.ItemTables.{notation_after, notation_state};
ghost use Rattle.ed_page.specs.Private.ItemTables.{placing_over, table_on, whole_item, opened_with};
ghost use Rattle.ed_page.specs.Private.Stages.{HasRowsToEntry, IsAnswered};
ghost use Rattle.ed_page.specs.TapeItems.{IsItemsOutcome, PlacingLaw, four_bytes, item_line, items_answer};
ghost use Rattle.ed_tapes.specs.declared.input.TheConstants.{INPUT_BYTES};

use crate::request::{Request, RowsRequest, write_answer};
use crate::running::size_of;
use crate::writing::Lengths;
use ed_codes::{Code, letters};
use ed_notation::{FIRST_DIRECTIVE, TapeFault};
use ed_report::tape_fault;
use ed_store::{LOCATIONS, Store};
use ed_tapes::{Rejection, Reply, check_from_cleared};
use ed_words::{NoMemory, Size, Word};
use std::alloc::Global;

/// What stands for the location of an item that places no word.
const NO_LOCATION: u32 = 1024;

/// The status if a tape has a fault.
pub const REFUSED: u8 = 3;

/// An item whose function row, and perhaps more rows, have been read.
#[derive(Drop)]
pub struct OpenItem {
    /// The row of its function.
    pub first: u32,
    pub function: Code,
    pub number: u32,
    pub mark: bool,
}

/// The state of the notation: the directive, θ, and a store with the words that were placed so far.
#[derive(Drop)]
pub struct Notation {
    pub directive: u64,
    pub theta: u64,
    pub contents: Store,
}

/// Writes the table of the items of a tape's text, and answers 0: for each item up to the entry four numbers of four
/// bytes, the least byte first. They are its first row, the row after its last, the location at which it places a word,
/// or 1,024, and the word. For a tape with a fault the answer is 3: the table has the items before the fault, and the
/// note is its line. The other answers are those of `page_tape_rows`.
#[unsafe(no_mangle)]
pub extern "C" fn page_items(
    alloc: Global,
    text: &[u8],
    small: bool,
    items: &mut [u8],
    note: &mut [u8],
    lengths: &mut Lengths,
) -> u32
    ensures told { IsTextWritten (items_answer (size_shown small)) text.now
        (text_buffers items.old note.old lengths.old)
        (text_buffers items.new note.new lengths.new) result }
    ensures law { PlacingLaw }
{
    let request = Request::Tape(RowsRequest::Items(size_of(small)));
    write_answer(alloc, request, text, items, note, lengths)
}

/// What is answered about the items of rows.
pub fn row_items(alloc: Global, size: Size, rows: &[Code]) -> Result<Reply, Rejection>
    requires { length rows.now ≤ INPUT_BYTES }
    ensures { IsAnswered (IsItemsOutcome size) rows.now result }
{
    match rows_to_entry(alloc, size, rows) {
        Ok(count) => Ok(Reply::done(alloc, item_table(alloc, rows, count)?)),
        Err(TapeFault::At { row, cause }) => {
            let note = tape_fault(alloc, &TapeFault::At { row, cause })?;
            let out = item_table(alloc, rows, row)?;
            Err(Rejection::Refused(Reply {
                out,
                note,
                status: REFUSED,
            }))
        }
        Err(TapeFault::Memory) => Err(Rejection::Memory),
    }
}

/// The number of rows up to the entry of a well-formed tape, or the tape's fault.
fn rows_to_entry(alloc: Global, size: Size, rows: &[Code]) -> Result<usize, TapeFault>
    requires { length rows.now ≤ INPUT_BYTES }
    ensures { MatchResult result
        (λ count. HasRowsToEntry size rows.now count)
        (λ fault. AnswersCheck size cleared_cells.words opening_notation 9 rows.now (Err fault)) }
{
    Ok(check_from_cleared(alloc, size, rows)?.rows())
}

/// The table of the items that the first rows spell.
fn item_table(alloc: Global, rows: &[Code], count: usize) -> Result<Vec<u8>, NoMemory>
    requires few { length rows.now ≤ INPUT_BYTES }
    requires count { count ≤ length rows.now }
    ensures { IfOk result (λ table. table.items ≡ table_on 0 first_notation None (take count rows.now)) }
{
    let mut notation = Notation {
        directive: u64::from(FIRST_DIRECTIVE),
        theta: 0,
        contents: Store::cleared(alloc)?,
    };
    let mut table = Vec::new(alloc);
    push_items(&mut notation, &mut table, &rows[..count])?;
    Ok(table)
}

/// Adds the lines of the items that rows spell to a table.
fn push_items(notation: &mut Notation, table: &mut Vec<u8>, rows: &[Code]) -> Result<(), NoMemory>
    requires few { length rows.now ≤ INPUT_BYTES }
    requires first { notation.old ≡ first_notation }
    requires empty { table.old.items ≡ [] }
    ensures { IfOk result (λ _. table.new.items ≡ table_on 0 first_notation None rows.now) }
{
    let mut part: Option<OpenItem> = None;
    for (row, code) in rows.iter().enumerate() {
        part = match part {
            None => Some(OpenItem::at(row as u32, *code)),
            Some(item) => {
                if is_last_row(*code) {
                    let placing = notation.placing(&item, *code);
                    push_line(table, &item, row as u32 + 1, placing)?;
                    notation.take(&item, *code);
                    None
                } else {
                    Some(item.with_row(*code))
                }
            }
        };
    }
    Ok(())
}

/// Whether a row inside an item ends it: Z, K, blank or a code letter.
fn is_last_row(row: Code) -> bool
    ensures { result ≡ is_last_row (row_kind row) }
{
    let code = row.value();
    code == letters::Z || code == letters::K || letters::BLANK <= code
}

/// Adds the line of an item to a table.
fn push_line(
    table: &mut Vec<u8>,
    item: &OpenItem,
    after: u32,
    placing: Option<(u16, Word)>,
) -> Result<(), NoMemory>
    ensures { IfOk result (λ _. table.new.items ≡ table.old.items ++ item_line item.now.first after placing) }
{
    let (location, word) = match placing {
        Some((location, word)) => (u32::from(location), word.value()),
        None => (NO_LOCATION, 0),
    };
    push_numbers(table, &[item.first, after, location, word])
}

/// Adds numbers to a table, the least byte of each first.
pub fn push_numbers(table: &mut Vec<u8>, numbers: &[u32]) -> Result<(), NoMemory>
    ensures { IfOk result (λ _. table.new.items ≡ table.old.items ++ flat_map four_bytes numbers.now) }
{
    for number in numbers {
        table.extend_from_slice(&number.to_le_bytes())?;
    }
    Ok(())
}

impl OpenItem {
    /// The item that a function row begins.
    pub fn at(row: u32, function: Code) -> OpenItem
        ensures { result ≡ item_at row function }
    {
        OpenItem {
            first: row,
            function,
            number: 0,
            mark: false,
        }
    }

    /// The item with one more row that does not end it.
    fn with_row(self, row: Code) -> OpenItem
        requires { self.number ≤ 327679 }
        ensures is { result ≡ opened_with (row_kind row) self row }
        ensures fits { result.number ≤ 327679 }
    {
        let code = row.value();
        if code < 10 {
            self.with_digit(code)
        } else {
            OpenItem { mark: true, ..self }
        }
    }

    /// The item with one more digit; a number that is too large stays.
    pub fn with_digit(self, digit: u8) -> OpenItem
        requires number { self.number ≤ 327679 }
        requires digit { digit < 10 }
        ensures is { result ≡ opened_with Digit self digit }
        ensures fits { result.number ≤ 327679 }
    {
        if 32767 < self.number {
            self
        } else {
            OpenItem {
                number: 10 * self.number + u32::from(digit),
                ..self
            }
        }
    }

    /// The number of the function and the address, as K and Z take them.
    pub fn sum(&self) -> u64
        requires { self.now.number ≤ 327679 }
        ensures is { result ≡ 4096 * self.now.function + 2 * self.now.number }
        ensures fits { result ≤ 2 ^ 20 }
    {
        4096 * u64::from(self.function.value()) + 2 * u64::from(self.number)
    }
}

impl Notation {
    /// The location and the word that an item places, if it places one.
    fn placing(&self, item: &OpenItem, end: Code) -> Option<(u16, Word)>
        requires number { item.now.number ≤ 327679 }
        requires theta { self.now.theta ≤ 2 ^ 42 }
        ensures { result ≡ placing_over self.now (whole_item item.now end) }
    {
        if end.value() < letters::F || self.directive / 4096 == u64::from(letters::E) {
            None
        } else {
            let address = (self.directive % 4096 / 2) as u16;
            Some((address, self.word(item, end)))
        }
    }

    /// The word of an item that a code letter ends.
    fn word(&self, item: &OpenItem, letter: Code) -> Word
        requires number { item.now.number ≤ 327679 }
        requires theta { self.now.theta ≤ 2 ^ 42 }
        ensures { result ≡ item_word self.now.contents.words (notation_state self.now) (whole_item item.now letter) }
    {
        let value = match letter.value() {
            letters::F => 0,
            letters::THETA => self.theta,
            letters::D => 1,
            code => u64::from(self.contents.short(24 + u16::from(code)).value()),
        };
        let sum = item.sum() + u64::from(item.mark) + value;
        Word::of_number((sum % (1 << 17)) as u32)
    }

    /// Takes an item: it places its word, or sets the directive or θ, or neither.
    fn take(&mut self, item: &OpenItem, end: Code)
        requires number { item.now.number ≤ 327679 }
        requires bound { (self.old.directive ≤ 2 ^ 42) × (self.old.theta ≤ 2 ^ 42) }
        ensures is { self.new ≡ notation_after self.old (whole_item item.now end) }
        ensures bound { IsSetBelow self.old self.new }
    {
        match self.placing(item, end) {
            Some((location, word)) => self.place(location, word),
            None => match end.value() {
                letters::Z => self.take_zed(item),
                letters::K => self.take_kay(item),
                letters::BLANK => self.theta = self.directive,
                _ => {}
            },
        }
    }

    /// Places a word, and moves the directive on.
    fn place(&mut self, location: u16, word: Word)
        requires { self.old.directive ≤ 2 ^ 42 }
        ensures { self.new ≡ record {
          directive = self.old.directive + 2;
          theta = self.old.theta;
          contents = with_short self.old.contents location word;
        } }
    {
        // This call is there for its contract alone: that this is a store.
        let _ = self.contents.short(0);
        if usize::from(location) < LOCATIONS {
            self.contents.put_short(location, word);
        }
        self.directive += 2;
    }

    /// Takes an item that ends with K: blank and G set θ, every other function the directive.
    fn take_kay(&mut self, item: &OpenItem)
        requires number { item.now.number ≤ 327679 }
        requires bound { (self.old.directive ≤ 2 ^ 42) × (self.old.theta ≤ 2 ^ 42) }
        ensures is { IsSetAs (with_kay (control_of item.now.function) (notation_state self.old) (whole_item item.now 14))
            self.old self.new }
        ensures bound { IsSetBelow self.old self.new }
    {
        let sum = item.sum();
        match item.function.value() {
            letters::BLANK | letters::G => self.theta = (sum + self.directive) % (1 << 17),
            _ => self.directive = sum,
        }
    }

    /// Takes an item that ends with Z: blank sets θ, every other function the directive.
    fn take_zed(&mut self, item: &OpenItem)
        requires number { item.now.number ≤ 327679 }
        requires bound { (self.old.directive ≤ 2 ^ 42) × (self.old.theta ≤ 2 ^ 42) }
        ensures is { IsSetAs (with_zed (control_of item.now.function) (notation_state self.old) (whole_item item.now 13))
            self.old self.new }
        ensures bound { IsSetBelow self.old self.new }
    {
        let sum = item.sum() + self.theta;
        match item.function.value() {
            letters::BLANK => self.theta = (sum + self.directive) % (1 << 17),
            _ => self.directive = sum,
        }
    }
}
