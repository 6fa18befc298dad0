ghost use Rattle.std.specs.Prelude.{◌≡◌, ◌+◌, ◌*◌, ◌%◌, ◌<◌, ◌≤◌, ◌^◌, false};
ghost use Rattle.ed_notation.specs.Items.{row_kind};
ghost use Rattle.ed_notation.specs.Fold.{address, control_of, letter_action_of};
ghost use Rattle.ed_notation.specs.Faults.{is_place};
ghost use Rattle.ed_notation.specs.Reading.{digit_effect, mark_effect, kay_effect, zed_effect, blank_effect};
ghost use Rattle.ed_notation.specs.Reading.{letter_effect};
ghost use Rattle.ed_notation.specs.Reading.{part_word, part_of, row_effect};

use crate::cause::TapeCause;
use crate::kind::{Control, LetterAction, RowKind};
use ed_codes::{Code, letters};
use ed_store::Store;
use ed_words::{Size, Word};

/// The directive and θ.
#[derive(Clone, Copy)]
pub struct DirectiveState {
    pub directive: Word,
    pub theta: Word,
}

/// An item whose function row, and perhaps more rows, have been read.
#[derive(Clone, Copy)]
pub struct PartialItem {
    pub function: Code,
    pub number: u16,
    pub mark: bool,
    /// Whether it is a function row 16 alone.
    pub blank: bool,
}

/// What a row inside an item does. The numbers are numbers of orders.
#[derive(Clone, Copy)]
pub enum RowEffect {
    /// The row breaks a rule.
    Refused(TapeCause),
    /// The item goes on.
    Longer(PartialItem, u64),
    /// The item ends and sets the directive or θ.
    Ended(DirectiveState, u64),
    /// The item ends and its word is placed at an address.
    Placed(u16, Word),
    /// The entry item ends, and the program is entered at an address.
    Entered(u16),
}

/// Where a tape was entered.
#[derive(Clone, Copy)]
pub struct Reached {
    pub entry: u16,
    pub orders: u64,
    pub rows: usize,
    pub theta: Word,
}

/// What a row inside an item does, over the store with the words placed so far.
pub fn take(
    size: Size,
    contents: &Store,
    setting: &DirectiveState,
    part: &PartialItem,
    row: Code,
) -> RowEffect
    requires { part.now.number ≤ 32767 }
    ensures { result ≡ row_effect size (row_kind row) contents.now.words setting.now part.now row }
{
    match RowKind::of(row) {
        RowKind::Digit => part.take_digit(row.value()),
        RowKind::Mark => part.take_mark(),
        RowKind::Zed => part.take_zed(setting),
        RowKind::Kay => part.take_kay(setting),
        RowKind::Blank => part.take_blank(setting),
        RowKind::Letter => setting.take_letter(size, part.word(contents, setting, row)),
        RowKind::Other => RowEffect::Refused(TapeCause::BadRow),
    }
}

impl PartialItem {
    /// The item that a function row begins.
    pub fn begun(function: Code) -> PartialItem
        ensures is { result ≡ part_of function }
        ensures fits { function < 32 }
    {
        PartialItem {
            function,
            number: 0,
            mark: false,
            blank: function.value() == letters::BLANK,
        }
    }

    /// A digit row.
    fn take_digit(&self, digit: u8) -> RowEffect
        requires number { self.now.number ≤ 32767 }
        requires digit { digit < 10 }
        ensures { result ≡ digit_effect self.now digit }
    {
        if self.mark {
            return RowEffect::Refused(TapeCause::AfterMark);
        }
        let number = 10 * u32::from(self.number) + u32::from(digit);
        if 32767 < number {
            return RowEffect::Refused(TapeCause::NumberTooLarge);
        }
        let longer = PartialItem {
            number: number as u16,
            blank: false,
            ..*self
        };
        RowEffect::Longer(longer, 9)
    }

    /// A π row.
    fn take_mark(&self) -> RowEffect
        requires { self.now.number ≤ 32767 }
        ensures { result ≡ mark_effect self.now }
    {
        if self.mark {
            return RowEffect::Refused(TapeCause::AfterMark);
        }
        let longer = PartialItem {
            mark: true,
            blank: false,
            ..*self
        };
        RowEffect::Longer(longer, 15)
    }

    /// A blank row, which may only end a blank pair.
    fn take_blank(&self, setting: &DirectiveState) -> RowEffect
        ensures { result ≡ blank_effect setting.now self.now }
    {
        if self.blank {
            let next = DirectiveState {
                directive: setting.directive,
                theta: setting.directive,
            };
            RowEffect::Ended(next, 14)
        } else {
            RowEffect::Refused(TapeCause::BadRow)
        }
    }

    /// The row K.
    fn take_kay(&self, setting: &DirectiveState) -> RowEffect
        requires { self.now.number ≤ 32767 }
        ensures { result ≡ kay_effect (control_of self.now.function) setting.now self.now }
    {
        if self.mark {
            return RowEffect::Refused(TapeCause::BadControl);
        }
        match Control::of(self.function) {
            Control::Neither => RowEffect::Refused(TapeCause::BadControl),
            Control::Directive => {
                if 1023 < self.number {
                    return RowEffect::Refused(TapeCause::StoreEnd);
                }
                let directive = Word::of_number(self.sum());
                RowEffect::Ended(
                    DirectiveState {
                        directive,
                        ..*setting
                    },
                    16,
                )
            }
            Control::ThetaByBlank | Control::ThetaByG => {
                if 1023 < self.number {
                    return RowEffect::Refused(TapeCause::StoreEnd);
                }
                let sum = self.sum() + setting.directive.value();
                let theta = Word::of_number(sum % (1 << 17));
                RowEffect::Ended(DirectiveState { theta, ..*setting }, 16)
            }
        }
    }

    /// The row Z, which adds θ.
    fn take_zed(&self, setting: &DirectiveState) -> RowEffect
        requires { self.now.number ≤ 32767 }
        ensures { result ≡ zed_effect (control_of self.now.function) setting.now self.now }
    {
        if self.mark {
            return RowEffect::Refused(TapeCause::BadControl);
        }
        match Control::of(self.function) {
            Control::Neither | Control::ThetaByG => RowEffect::Refused(TapeCause::BadControl),
            Control::Directive => {
                let sum = self.sum() + setting.theta.value();
                if !is_place(sum) {
                    return RowEffect::Refused(TapeCause::StoreEnd);
                }
                let directive = Word::of_number(sum);
                RowEffect::Ended(
                    DirectiveState {
                        directive,
                        ..*setting
                    },
                    17,
                )
            }
            Control::ThetaByBlank => {
                let double = 2 * u32::from(self.number) + setting.theta.value();
                if 65536 <= double {
                    return RowEffect::Refused(TapeCause::StoreEnd);
                }
                let sum = 65536 + double + setting.directive.value();
                let theta = Word::of_number(sum % (1 << 17));
                RowEffect::Ended(DirectiveState { theta, ..*setting }, 17)
            }
        }
    }

    /// The word of the function and the number.
    fn sum(&self) -> u32
        requires { self.now.number ≤ 32767 }
        ensures is { result ≡ 4096 * self.now.function + 2 * self.now.number }
        ensures fits { result < 2 ^ 18 }
    {
        4096 * u32::from(self.function.value()) + 2 * u32::from(self.number)
    }

    /// The word of the item that a code letter ends.
    fn word(&self, contents: &Store, setting: &DirectiveState, letter: Code) -> Word
        requires { self.now.number ≤ 32767 }
        ensures { result ≡ part_word contents.now.words setting.now self.now letter }
    {
        let value = match letter.value() {
            letters::F => 0,
            letters::THETA => setting.theta.value(),
            letters::D => 1,
            code => contents.short(24 + u16::from(code)).value(),
        };
        Word::of_number((self.sum() + u32::from(self.mark) + value) % (1 << 17))
    }
}

impl DirectiveState {
    /// The setting with the directive advanced by one location.
    pub fn moved_on(&self) -> DirectiveState
        requires { self.now.directive + 2 < 2 ^ 17 }
        ensures { result ≡ record self.now { directive = self.now.directive + 2 } }
    {
        let directive = Word::of_number(self.directive.value() + 2);
        DirectiveState { directive, ..*self }
    }

    /// A code letter that ends an item with this word.
    fn take_letter(&self, size: Size, word: Word) -> RowEffect
        ensures { result ≡ letter_effect size (letter_action_of self.now.directive) self.now word }
    {
        let at = (self.directive.value() % 4096 / 2) as u16;
        match LetterAction::of(self.directive) {
            LetterAction::Places => {
                if at < 44 {
                    RowEffect::Refused(TapeCause::LoaderStore)
                } else if size.value() <= at {
                    RowEffect::Refused(TapeCause::StoreEnd)
                } else {
                    RowEffect::Placed(at, word)
                }
            }
            LetterAction::Enters => {
                if size.value() <= at {
                    RowEffect::Refused(TapeCause::StoreEnd)
                } else if 65536 <= word.value() {
                    RowEffect::Refused(TapeCause::EntryNegative)
                } else if at < 44 {
                    RowEffect::Refused(TapeCause::EntryInLoader)
                } else {
                    RowEffect::Entered(at)
                }
            }
            LetterAction::Nowhere | LetterAction::Unset => RowEffect::Refused(TapeCause::NoPlace),
        }
    }
}

/// Whether a word is an order P, E or T with length digit F and an address below 1024.
fn is_place(word: u32) -> bool
    ensures { result ≡ is_place word }
{
    let function = word / 2048;
    word % 2 == 0 && (function == 0 || function == 6 || function == 10)
}
