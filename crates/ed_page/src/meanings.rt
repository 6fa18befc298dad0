//! What an order word names.

ghost use Rattle.std.specs.Prelude.{◌≡◌, ◌↔◌, ◌<◌, ◌≤◌, ◌^◌, IsTrue};
ghost use Rattle.ed_words.specs.Signed.{signed};
ghost use Rattle.ed_words.specs.Words.{digit, function_of};
ghost use Rattle.ed_orders.specs.Kinds.{kind_of_function};
ghost use Rattle.ed_page.specs.Meanings.{IsMeaning, names_shown, shift_shown};
ghost use Rattle.ed_page.specs.Pictures.{size_shown};
ghost use Rattle.ed_page.specs.Private.Letters.{letter_byte};

use crate::running::size_of;
use ed_orders::{Kind, kind_of, places};
use ed_words::{Size, Word};

/// What a word means as an order.
#[repr(C)]
#[derive(Drop)]
pub struct Meaning {
    /// The letter of the order; 0 if the word is no order.
    pub letter: u32,
    /// 1 if the order names a location.
    pub names: u32,
    /// The location in the word's address.
    pub location: u32,
    /// The even location of that pair.
    pub pair: u32,
    /// 1 for a long order.
    pub long: u32,
    /// How many places a shift order shifts; 0 for every other.
    pub shift: u32,
    /// The word as a signed number.
    pub number: i32,
}

/// Writes what a word below 131,072 means on a machine of a size, and answers true; for any other number it writes
/// nothing and answers false.
#[unsafe(no_mangle)]
pub extern "C" fn page_meaning(word: u32, small: bool, meaning: &mut Meaning) -> bool
    ensures word { IsTrue result ↔ (word < 2 ^ 17) }
    ensures meaning { word < 2 ^ 17 → IsMeaning (size_shown small) word meaning.new }
    ensures untouched { 2 ^ 17 ≤ word → meaning.new ≡ meaning.old }
{
    match Word::new(word) {
        Some(word) => {
            *meaning = Meaning::of(word, size_of(small));
            true
        }
        None => false,
    }
}

impl Meaning {
    /// What a word means on a machine of a size.
    fn of(word: Word, size: Size) -> Meaning
        ensures { IsMeaning size word result }
    {
        let order = word.order();
        let kind = kind_of(order.function);
        let location = order.address % size.value();
        Meaning {
            letter: u32::from(letter_of(kind)),
            names: u32::from(names_location(kind)),
            location: u32::from(location),
            pair: u32::from(location - location % 2),
            long: u32::from(order.length),
            shift: shift_of(kind, word),
            number: signed(word),
        }
    }
}

/// The letter of an order; 0 for no order.
fn letter_of(kind: Option<Kind>) -> u8
    ensures { result ≡ letter_byte kind }
{
    match kind {
        None => 0,
        Some(Kind::A) => b'A',
        Some(Kind::S) => b'S',
        Some(Kind::H) => b'H',
        Some(Kind::V) => b'V',
        Some(Kind::N) => b'N',
        Some(Kind::T) => b'T',
        Some(Kind::U) => b'U',
        Some(Kind::C) => b'C',
        Some(Kind::R) => b'R',
        Some(Kind::L) => b'L',
        Some(Kind::E) => b'E',
        Some(Kind::G) => b'G',
        Some(Kind::I) => b'I',
        Some(Kind::O) => b'O',
        Some(Kind::F) => b'F',
        Some(Kind::X) => b'X',
        Some(Kind::Y) => b'Y',
        Some(Kind::Z) => b'Z',
    }
}

/// Whether an order names a location.
fn names_location(kind: Option<Kind>) -> bool
    ensures { digit result ≡ names_shown kind }
{
    match kind {
        None | Some(Kind::R | Kind::L | Kind::X | Kind::Y | Kind::Z) => false,
        Some(_) => true,
    }
}

/// How many places an order shifts; 0 if it is no shift.
fn shift_of(kind: Option<Kind>, word: Word) -> u32
    requires { kind ≡ kind_of_function (function_of word) }
    ensures { result ≡ shift_shown kind word }
{
    match kind {
        Some(Kind::R | Kind::L) => u32::from(places(word)),
        _ => 0,
    }
}

/// The word as a signed number.
fn signed(word: Word) -> i32
    ensures { result ≡ signed 17 word }
{
    let number = word.value() as i32;
    if number < 65536 {
        number
    } else {
        number - 131072
    }
}
