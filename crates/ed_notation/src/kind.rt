ghost use Rattle.std.specs.Prelude.{◌≡◌};
ghost use Rattle.ed_notation.specs.Items.{row_kind};
ghost use Rattle.ed_notation.specs.Fold.{control_of, letter_action_of};

use ed_codes::{Code, letters};
use ed_words::Word;

/// The kind of a row inside an item.
#[derive(Clone, Copy)]
pub enum RowKind {
    /// 0 to 9.
    Digit,
    /// π.
    Mark,
    /// Z.
    Zed,
    /// K.
    Kay,
    /// Blank.
    Blank,
    /// A code letter, 17 to 31.
    Letter,
    /// J, S and erase.
    Other,
}

/// What the function of an item sets if K or Z ends the item.
#[derive(Clone, Copy)]
pub enum Control {
    /// P, E and T.
    Directive,
    /// Blank.
    ThetaByBlank,
    /// G.
    ThetaByG,
    /// Every other function.
    Neither,
}

/// What a code letter does under a directive.
#[derive(Clone, Copy)]
pub enum LetterAction {
    /// T: the item's word is placed.
    Places,
    /// E: the program is entered.
    Enters,
    /// P: there is no location to place the word.
    Nowhere,
    /// No other order is ever a directive.
    Unset,
}

impl RowKind {
    /// The kind of a row.
    pub fn of(row: Code) -> RowKind
        ensures { result ≡ row_kind row }
    {
        let code = row.value();
        if code < 10 {
            RowKind::Digit
        } else if code == letters::PI {
            RowKind::Mark
        } else if code == letters::Z {
            RowKind::Zed
        } else if code == letters::K {
            RowKind::Kay
        } else if code == letters::BLANK {
            RowKind::Blank
        } else if letters::F <= code {
            RowKind::Letter
        } else {
            RowKind::Other
        }
    }
}

impl Control {
    /// What a function sets.
    pub fn of(function: Code) -> Control
        ensures { result ≡ control_of function }
    {
        let code = function.value();
        if code == letters::P || code == letters::E || code == letters::T {
            Control::Directive
        } else if code == letters::BLANK {
            Control::ThetaByBlank
        } else if code == letters::G {
            Control::ThetaByG
        } else {
            Control::Neither
        }
    }
}

impl LetterAction {
    /// What a code letter does under a directive.
    pub fn of(directive: Word) -> LetterAction
        ensures { result ≡ letter_action_of directive }
    {
        let function = directive.value() / 4096;
        if function == 5 {
            LetterAction::Places
        } else if function == 3 {
            LetterAction::Enters
        } else if function == 0 {
            LetterAction::Nowhere
        } else {
            LetterAction::Unset
        }
    }
}
