ghost use Rattle.std.specs.Prelude.{◌≡◌, ◌<◌, ◌+◌, ◌≤◌, ◌++◌, ◌∷◌, [], IfErr, IfOk, List, ℕ};
ghost use Rattle.std.specs.Prelude.{slice_index, vec_capacity, vec_len};
ghost use Rattle.std.specs.Bool.{OnTrue};
ghost use Rattle.ed_printer.specs.Paper.{IsInLatestShift, bytes_of, paper_from, shift_after, struck_bytes};

use arrayvec::ArrayVec;
use ed_codes::{Code, letters};
use std::alloc::{AllocError, Global};
use std::marker::Model;

/// Which of the two characters of a code prints.
#[derive(Clone, Copy)]
pub enum Shift {
    /// Letter shift, set by code 15.
    Letters,
    /// Figure shift, set by code 11.
    Figures,
}

/// A teleprinter, which is in one of the two shifts.
#[derive(Clone, Copy)]
pub struct Printer {
    shift: Shift,
}

impl Model for Printer {
    ghost use Rattle.ed_printer.specs.declared.printer.Shift.{Shift};

    ghost Value = { Shift };

    ghost view = { λ p. p.shift };

    ghost inverse = { λ s. record { shift = s } };
}

/// The character of each code in letter shift: 0 if it prints nothing.
const LETTERS: &[u8; 32] = b"PQWERTYUIOJ\0SZK\0\0F\rD HNM\nLXGABCV";

/// The character of each code in figure shift: 0 if it prints nothing.
const FIGURES: &[u8; 32] = b"0123456789\0\0\"+(\0\0$\r; \xA3,.\n)/#-?:=";

/// The character that prints nothing.
const NOTHING: u8 = 0;

/// The pound sign, the only character of two bytes.
const POUND: u8 = 0xA3;

/// The first byte of the pound sign; the second is the character itself.
const BEFORE_POUND: u8 = 0xC2;

/// The first number that is no character of ASCII.
const BEYOND_ASCII: u8 = 0x80;

/// The most bytes that a code prints.
const MOST_BYTES: usize = 2;

impl Shift {
    /// The characters of the codes 0 to 31.
    fn characters(self) -> &'static [u8; 32]
        ensures { (code : ℕ) → code < 32 → bytes_of (slice_index result.now code) ≡ struck_bytes self code }
    {
        match self {
            Shift::Letters => LETTERS,
            Shift::Figures => FIGURES,
        }
    }

    /// The shift after a code.
    fn after(self, code: Code) -> Shift
        ensures { result ≡ shift_after self code }
    {
        match code.value() {
            letters::FIGURE_SHIFT => Shift::Figures,
            letters::LETTER_SHIFT => Shift::Letters,
            _ => self,
        }
    }
}

/// The bytes of a character.
fn bytes_of(character: u8) -> ArrayVec<u8, 2>
    ensures { result.items ≡ bytes_of character }
{
    let mut bytes = ArrayVec::new();
    match character {
        NOTHING => {}
        POUND => {
            bytes.push(BEFORE_POUND);
            bytes.push(POUND);
        }
        _ => bytes.push(character),
    }
    bytes
}

/// Whether a character is one byte of ASCII. The others in the tables are the one that prints nothing and the pound sign.
fn is_plain(character: u8) -> bool
    ensures { OnTrue result (bytes_of character ≡ character ∷ []) }
{
    NOTHING < character && character < BEYOND_ASCII
}

/// Adds the bytes of a character to a text that has room for two.
fn push_character(text: &mut Vec<u8>, character: u8)
    requires { vec_len text.old + 2 ≤ vec_capacity text.old }
    ensures text { text.new.items ≡ text.old.items ++ bytes_of character }
    ensures len { vec_len text.new ≤ vec_len text.old + 2 }
    ensures capacity { vec_capacity text.new ≡ vec_capacity text.old }
{
    match character {
        NOTHING => {}
        POUND => {
            text.push_reserved(BEFORE_POUND);
            text.push_reserved(POUND);
        }
        _ => text.push_reserved(character),
    }
}

impl Printer {
    /// A printer at its start, in letter shift.
    pub fn new() -> Printer
        ensures { result ≡ Shift.Letters }
    {
        Printer {
            shift: Shift::Letters,
        }
    }

    /// Prints a code: the bytes are those of the shift that the printer was in.
    pub fn strike(&mut self, code: Code) -> ArrayVec<u8, 2>
        ensures bytes { result.items ≡ struck_bytes self.old code }
        ensures shift { self.new ≡ shift_after self.old code }
        ensures law { IsInLatestShift }
    {
        let character = self.shift.characters()[usize::from(code.value())];
        self.shift = self.shift.after(code);
        bytes_of(character)
    }

    /// The text that codes print. It is much faster than to strike them one by one: the text has room for all of them
    /// at once, and only a code that prints nothing can set a shift.
    #[inline(never)]
    pub fn text_of(&mut self, alloc: Global, codes: &[Code]) -> Result<Vec<u8>, AllocError>
        ensures text { IfOk result (λ text. (rest : List ℕ) →
            paper_from self.old (codes.now ++ rest) ≡ text.items ++ paper_from self.new rest) }
        ensures kept { IfErr result (λ _. self.new ≡ self.old) }
    {
        let mut text = Vec::with_capacity(alloc, MOST_BYTES * codes.len())?;
        let mut shift = self.shift;
        let mut characters = shift.characters();
        for code in codes {
            let character = characters[usize::from(code.value())];
            if is_plain(character) {
                text.push_reserved(character);
            } else {
                push_character(&mut text, character);
                shift = shift.after(*code);
                characters = shift.characters();
            }
        }
        self.shift = shift;
        Ok(text)
    }

    /// The shift that the printer is in.
    pub fn shift(&self) -> Shift
        ensures { result ≡ self.now }
    {
        self.shift
    }
}
