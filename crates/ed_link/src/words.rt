//! The words of a line.
ghost use Rattle.std.specs.Prelude.{◌≡◌, ◌≤◌, ◌<◌, ◌^◌, ◌+◌, ◌*◌, ◌%◌, ◌∷◌, [], ◌++◌, Some, None, IfOk, length, map};
ghost use Rattle.std.specs.Prelude.{false, ℕ};
ghost use Rattle.std.specs.List.{flat_map};
ghost use Rattle.ed_words.specs.Words.{digit};
ghost use Rattle.ed_notation.specs.Fold.{word_with};
ghost use Rattle.ed_library.specs.Routines.{find};
ghost use Rattle.ed_symbols.specs.Places.{segment_at, even_from, routine_places};
ghost use Rattle.ed_link.specs.Linked.{image, placed_words, long_words, operand_number, parameters, placed_by_line};
ghost use Rattle.ed_link.specs.Linked.{preset};
ghost use Rattle.ed_link.specs.Linked.{presets};
ghost use Rattle.ed_link.specs.Linked.{set_to, line_words};
ghost use Rattle.ed_link.specs.FaultTests.{reach};
ghost use Rattle.ed_link.specs.Tables.{put_all, place_word, words_from};

use crate::linked::Placed;
use crate::operands::{PARAMETER_LETTERS, number, parameters, setting};
use ed_codes::Code;
use ed_library::{find, image_word};
use ed_lines::{Name, Operand, Setting, Statement};
use ed_symbols::{Definition, LocationCounter, even};
use ed_words::{Long, NoMemory, Word};
use std::alloc::Global;

/// Puts a word at a location.
fn put(table: &mut Vec<Option<Word>>, place: u32, word: Word)
    requires { place < length table.old.items }
    ensures { table.new.items ≡ put_all table.old.items ((place, word) ∷ []) }
{
    table[place as usize] = Some(word);
}

/// The word of an order.
fn order_word(
    symbols: &[Definition],
    counter: LocationCounter,
    function: Code,
    operand: &Operand,
    length: bool,
) -> Word
    ensures { result
        ≡ word_with function (operand_number symbols.now (segment_at counter) operand.now) false (digit length) }
{
    let number = u32::from(number(symbols, counter.segment(), operand));
    let sum = 4096 * u32::from(function.value()) + 2 * number + u32::from(length);
    Word::of_number(sum % 131072)
}

/// Puts the words of a `text`.
fn put_text(table: &mut Vec<Option<Word>>, place: u32, codes: &[Code])
    requires table { 0 < length codes.now → place + length codes.now ≤ length table.old.items }
    requires few { length table.old.items ≤ 1024 }
    ensures { table.new.items ≡ put_all table.old.items (placed_words place (map (λ c. 4096 * c) codes.now)) }
{
    let mut at = place;
    for code in codes {
        put(table, at, Word::of_number(4096 * u32::from(code.value())));
        at += 1;
    }
}

/// Puts the words of a `long`.
fn put_long(table: &mut Vec<Option<Word>>, place: u32, value: Long)
    requires table { place + length (long_words place value) ≤ length table.old.items }
    requires few { length table.old.items ≤ 1024 }
    ensures { table.new.items ≡ put_all table.old.items (placed_words place (long_words place value)) }
{
    let halves = value.halves();
    let mut at = place;
    if place % 2 == 1 {
        put(table, at, Word::of_number(0));
        at += 1;
    }
    put(table, at, halves.even);
    put(table, at + 1, halves.odd);
}

/// Puts the words of the parameters of some letters.
fn put_presets(
    table: &mut Vec<Option<Word>>,
    symbols: &[Definition],
    settings: &[Setting],
    letters: &[u8],
)
    requires { length table.old.items ≡ 1024 }
    ensures { table.new.items
        ≡ put_all table.old.items (flat_map (λ c. preset symbols.now (set_to settings.now c) c) letters.now) }
{
    for letter in letters {
        if let Some(operand) = setting(settings, *letter) {
            let word = 2 * u32::from(number(symbols, None, &operand));
            put(table, 24 + u32::from(*letter), Word::of_number(word));
        }
    }
}

/// Puts the words of a `use`.
#[tactic(auto, using(crate::proofs::Lengths::put_all_append))]
fn put_use(
    table: &mut Vec<Option<Word>>,
    symbols: &[Definition],
    settings: &[Setting],
    base: u32,
    routine: &Name,
)
    requires base { 0 < routine_places (find routine.now)
        → base + routine_places (find routine.now) ≤ length table.old.items }
    requires table { length table.old.items ≡ 1024 }
    ensures { table.new.items
        ≡ put_all table.old.items (presets symbols.now settings.now ++ image symbols.now settings.now base
        (find routine.now)) }
{
    put_presets(table, symbols, settings, &PARAMETER_LETTERS);
    let Some(routine) = find(routine.text()) else {
        return;
    };
    let parameters = parameters(symbols, settings);
    for place in 0..routine.length() {
        let word = image_word(&routine, place, base as u16, &parameters);
        put(table, base + u32::from(place), word);
    }
}

/// Puts the words that a line places.
pub(crate) fn put_line(
    table: &mut Vec<Option<Word>>,
    symbols: &[Definition],
    counter: LocationCounter,
    statement: &Option<Statement>,
)
    requires table { length table.old.items ≡ 1024 }
    requires place { counter.place ≤ 2 ^ 30 }
    requires fits { (reach symbols.now statement.now counter).from < (reach symbols.now statement.now counter).after
        → (reach symbols.now statement.now counter).after ≤ 1024 }
    ensures { table.new.items ≡ put_all table.old.items (placed_by_line symbols.now counter statement.now) }
{
    let Some(statement) = statement else {
        return;
    };
    match statement {
        Statement::Order {
            function,
            operand,
            length,
        } => put(
            table,
            counter.place,
            order_word(symbols, counter, *function, operand, *length),
        ),
        Statement::Number { value } => put(table, counter.place, *value),
        Statement::Text { codes } => put_text(table, counter.place, codes),
        Statement::Long { value } => put_long(table, counter.place, *value),
        Statement::Fetch {
            routine,
            settings,
            ..
        } => put_use(table, symbols, settings, even(counter.place), routine),
        Statement::Segment { .. } | Statement::Rows { .. } | Statement::Enter { .. } => {}
    }
}

/// The words of a table with their locations, in ascending order.
pub(crate) fn words_of(alloc: Global, table: &[Option<Word>]) -> Result<Vec<Placed>, NoMemory>
    requires { length table.now ≡ 1024 }
    ensures { IfOk result (λ v. v.items ≡ words_from 0 table.now) }
{
    let mut words = Vec::new(alloc);
    for (place, word) in table.iter().enumerate() {
        if let Some(word) = word {
            let placed = Placed {
                place: place as u16,
                word: *word,
            };
            words.push(placed)?;
        }
    }
    Ok(words)
}
