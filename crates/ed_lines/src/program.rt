ghost use Rattle.std.specs.Prelude.{◌≡◌, ◌≤◌, ◌==◌, true, length};
ghost use Rattle.std.specs.List.{list_all};
ghost use Rattle.ed_lines.specs.Programs.{AreNumbered, is_line};

use crate::Name;
use arrayvec::ArrayVec;
use ed_codes::Code;
use ed_words::{Long, Word};

/// The operand of an order, or of a setting.
#[derive(Clone, Copy)]
pub enum Operand {
    /// A number, 0 to 32767.
    Number(u16),
    /// The location of a name, plus -1023 to 1023.
    Label {
        name: Name,
        plus: i32,
    },
    /// The sum of the locations of two names, or their difference.
    Two {
        first: Name,
        second: Name,
        minus: bool,
    },
}

/// A preset parameter of a routine: its letter is one of `H N M & L X`.
#[derive(Clone, Copy)]
pub struct Setting {
    pub letter: Code,
    pub operand: Operand,
}

impl Default for Setting {
    ghost use Rattle.std.specs.Prelude.{◌≡◌};
    ghost use Rattle.ed_lines.specs.declared.program.Operand.TheVariants.{Number};

    ghost is_default = { λ s. (s.letter ≡ 21) × (s.operand ≡ Number 0) };

    /// H set to the number 0.
    fn default() -> Setting {
        Setting {
            letter: Code::H,
            operand: Operand::Number(0),
        }
    }
}

/// What a line says.
#[derive(Drop)]
pub enum Statement {
    /// A segment begins, at a base of 0 to 1023 or at the next location.
    Segment {
        name: Name,
        base: Option<u16>,
    },
    /// An order; the length is true for D.
    Order {
        function: Code,
        operand: Operand,
        length: bool,
    },
    /// A word by its number.
    Number {
        value: Word,
    },
    /// A word for each row of a string, at least one.
    Text {
        codes: ArrayVec<Code, 120>,
    },
    /// A routine of the library under a name, with no setting or one to six.
    Fetch {
        routine: Name,
        name: Name,
        settings: ArrayVec<Setting, 6>,
    },
    /// Where the program begins.
    Enter {
        name: Name,
    },
    /// Rows of the tape after the program, at least one.
    Rows {
        codes: ArrayVec<Code, 120>,
    },
    /// A long word by its number.
    Long {
        value: Long,
    },
}

/// A line of a source.
#[derive(Drop)]
pub struct Line {
    /// Counted from 1.
    pub number: u32,
    pub label: Option<Name>,
    pub statement: Option<Statement>,
}

/// A source: its version, 1 or 2, and its lines, which have forms of the version's grammar.
#[derive(Drop)]
pub struct Program {
    pub version: u8,
    pub lines: Vec<Line>,
    ghost version_is: { (1 ≤ version) × (version ≤ 2) },
    ghost few: { length lines.items ≤ 2000 },
    ghost numbered: { AreNumbered lines.items },
    ghost formed: { list_all (is_line (version == 2)) lines.items ≡ true },
}
