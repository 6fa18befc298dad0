//! The items of a line.
ghost use Rattle.std.specs.Prelude.{◌≡◌, ◌≤◌, ◌<◌, ◌^◌, ◌+◌, ◌*◌, ◌++◌, ◌∷◌, [], OnOk, map};
ghost use Rattle.std.specs.Prelude.{unwrap_or, length, false, true, None, ◌&&◌};
ghost use Rattle.std.specs.List.{flat_map};
ghost use Rattle.ed_symbols.specs.Names.{place_on};
ghost use Rattle.ed_symbols.specs.Places.{segment_at};
ghost use Rattle.ed_library.specs.Routines.{find};
ghost use Rattle.ed_symbols.specs.Places.{after_statement, routine_places};
ghost use Rattle.ed_link.specs.Private.Building.{IsFew, bare_items};
ghost use Rattle.ed_link.specs.FaultTests.{has_words, reach};
ghost use Rattle.ed_link.specs.Linked.{operand_number, long_words, set_to, parameter_letters, line_words};
ghost use Rattle.ed_link.specs.Punch.{ending, head, item_with, items_of, order_item, goes_by_theta};
ghost use Rattle.ed_link.specs.Punch.{preset_items, routine_items, use_items, word_item};

use crate::operands::{PARAMETER_LETTERS, goes_by_theta, number, setting};
use ed_codes::{Code, letters};
use ed_library::find;
use ed_lines::{Name, Operand, Setting, Statement};
use ed_notation::Item;
use ed_symbols::{Definition, LocationCounter, even, find_place};
use ed_words::{Long, NoMemory, Word};

/// Adds an item.
fn push(items: &mut Vec<Item>, item: Item) -> Result<(), NoMemory>
    ensures { OnOk result (items.new.items ≡ items.old.items ++ item ∷ []) }
{
    Ok(items.push(item)?)
}

/// An item that ends with K.
fn control(function: u8, number: u16) -> Item
    requires { function < 32 }
    ensures { result ≡ item_with function number false 14 }
{
    Item {
        function: Code::new(function).unwrap(),
        number,
        mark: false,
        end: Code::K,
    }
}

/// An item of a word by its number, with F or D.
fn numbered(function: Code, number: u16, length: bool) -> Item
    ensures { result ≡ item_with function number false (ending length) }
{
    Item {
        function,
        number,
        mark: false,
        end: if length { Code::D } else { Code::F },
    }
}

/// Adds the head of a segment.
fn push_head(items: &mut Vec<Item>, base: u16) -> Result<(), NoMemory>
    ensures { OnOk result (items.new.items ≡ items.old.items ++ head base) }
{
    push(items, control(letters::T, base))?;
    push(items, control(letters::G, 0))
}

/// The item of a word.
fn word_item(word: Word) -> Item
    ensures { result ≡ word_item word }
{
    let word = word.value();
    numbered(
        Code::new((word / 4096) as u8).unwrap(),
        (word % 4096 / 2) as u16,
        word % 2 == 1,
    )
}

/// The item of an order.
fn order_item(
    symbols: &[Definition],
    counter: LocationCounter,
    function: Code,
    operand: &Operand,
    length: bool,
) -> Item
    requires { counter.base ≤ 32767 }
    ensures { result ≡ order_item (goes_by_theta symbols.now counter operand.now)
        counter.base function (operand_number symbols.now (segment_at counter) operand.now) length }
{
    let number = number(symbols, counter.segment(), operand);
    if goes_by_theta(symbols, counter, operand) {
        Item {
            function,
            number: number.saturating_sub(counter.base as u16),
            mark: length,
            end: Code::THETA,
        }
    } else {
        numbered(function, number, length)
    }
}

/// Whether a line has a word of its own.
fn has_words(statement: &Option<Statement>) -> bool
    ensures { result ≡ has_words statement.now }
{
    match statement {
        Some(Statement::Order { .. } | Statement::Number { .. } | Statement::Long { .. }) => true,
        Some(Statement::Text { codes }) => !codes.is_empty(),
        _ => false,
    }
}

/// Adds the items of a `text`.
fn push_text(items: &mut Vec<Item>, codes: &[Code]) -> Result<(), NoMemory>
    ensures { OnOk result (items.new.items ≡ items.old.items ++ map word_item (map (λ c. 4096 * c) codes.now)) }
{
    for code in codes {
        let word = Word::of_number(4096 * u32::from(code.value()));
        push(items, word_item(word))?;
    }
    Ok(())
}

/// Adds the items of a `long`.
fn push_long(items: &mut Vec<Item>, place: u32, value: Long) -> Result<(), NoMemory>
    ensures { OnOk result (items.new.items ≡ items.old.items ++ map word_item (long_words place value)) }
{
    let halves = value.halves();
    if place % 2 == 1 {
        push(items, numbered(Code::P, 0, false))?;
    }
    push(items, word_item(halves.even))?;
    push(items, word_item(halves.odd))
}

/// Adds the items of the parameters of some letters.
fn push_presets(
    items: &mut Vec<Item>,
    symbols: &[Definition],
    settings: &[Setting],
    letters: &[u8],
) -> Result<(), NoMemory>
    ensures { OnOk result (items.new.items
        ≡ items.old.items ++ flat_map (λ c. preset_items symbols.now (set_to settings.now c) c) letters.now) }
{
    for letter in letters {
        if let Some(operand) = setting(settings, *letter) {
            push(items, control(letters::T, 24 + u16::from(*letter)))?;
            push(
                items,
                numbered(Code::P, number(symbols, None, &operand), false),
            )?;
        }
    }
    Ok(())
}

/// Adds the items of a `use`.
fn push_use(
    items: &mut Vec<Item>,
    symbols: &[Definition],
    settings: &[Setting],
    base: u32,
    routine: &Name,
) -> Result<(), NoMemory>
    requires { 0 < routine_places (find routine.now) → base ≤ 32767 }
    ensures items { OnOk result
        (items.new.items ≡ items.old.items ++ use_items symbols.now settings.now base (find routine.now)) }
    ensures few { OnOk result (length (routine_items (find routine.now)) ≤ 128) }
{
    push_presets(items, symbols, settings, &PARAMETER_LETTERS)?;
    let Some(routine) = find(routine.text()) else {
        return Ok(());
    };
    let length = routine.length();
    push_head(items, base as u16)?;
    for place in 0..length {
        push(items, routine.item(place))?;
    }
    Ok(())
}

/// Adds the items of a line, without the head of its segment.
fn push_bare(
    items: &mut Vec<Item>,
    symbols: &[Definition],
    counter: LocationCounter,
    statement: &Option<Statement>,
) -> Result<(), NoMemory>
    requires place { counter.place ≤ 2 ^ 30 }
    requires base { has_words statement.now ≡ true → counter.base ≤ 32767 }
    requires fits { (reach symbols.now statement.now counter).from < (reach symbols.now statement.now counter).after
        → (reach symbols.now statement.now counter).after ≤ 1024 }
    ensures items { OnOk result (items.new.items ≡ items.old.items ++ bare_items symbols.now counter statement.now) }
    ensures few { OnOk result (IsFew statement.now) }
{
    let Some(statement) = statement else {
        return Ok(());
    };
    match statement {
        Statement::Order {
            function,
            operand,
            length,
        } => push(
            items,
            order_item(symbols, counter, *function, operand, *length),
        ),
        Statement::Number { value } => push(items, word_item(*value)),
        Statement::Text { codes } => push_text(items, codes),
        Statement::Long { value } => push_long(items, counter.place, *value),
        Statement::Fetch {
            routine,
            settings,
            ..
        } => push_use(items, symbols, settings, even(counter.place), routine),
        Statement::Enter { name } => {
            push(items, control(letters::E, entry_of(symbols, name)))?;
            push(items, numbered(Code::P, 0, false))
        }
        Statement::Segment { .. } | Statement::Rows { .. } => Ok(()),
    }
}

/// Adds the items of a line, after the head of its segment if it is the first there with a word.
pub(crate) fn push_line(
    items: &mut Vec<Item>,
    symbols: &[Definition],
    counter: LocationCounter,
    statement: &Option<Statement>,
) -> Result<(), NoMemory>
    requires place { counter.place ≤ 2 ^ 30 }
    requires base { counter.base ≤ counter.place }
    requires fits { (reach symbols.now statement.now counter).from < (reach symbols.now statement.now counter).after
        → (reach symbols.now statement.now counter).after ≤ 1024 }
    ensures items { OnOk result (items.new.items ≡ items.old.items ++ items_of symbols.now counter statement.now) }
    ensures few { OnOk result (IsFew statement.now) }
{
    if has_words(statement) && counter.place == counter.base {
        push_head(items, counter.base as u16)?;
    }
    push_bare(items, symbols, counter, statement)
}

/// The location of a name, if it is in the store, and 0 if there is none.
pub(crate) fn entry_of(symbols: &[Definition], name: &Name) -> u16
    requires { unwrap_or (place_on symbols.now None name.now) 0 ≤ 32767 }
    ensures is { result ≡ unwrap_or (place_on symbols.now None name.now) 0 }
{
    match find_place(symbols, None, name) {
        Some(place) => place as u16,
        None => 0,
    }
}
