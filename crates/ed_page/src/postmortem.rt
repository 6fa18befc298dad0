//! The post-mortem of the state that a picture shows.

ghost use Rattle.std.specs.Prelude.{◌≡◌, ◌⊎◌, ◌≢◌, ◌↔◌, ℕ, ◌+◌, ◌^◌, ◌≤◌, IfOk, IsTrue, List, Some, length};
ghost use Rattle.ed_machine.specs.State.{State};
ghost use Rattle.ed_machine.specs.Steps.{state_after};
ghost use Rattle.ed_run.specs.SettingRanges.{IsWindowOf};
ghost use Rattle.ed_run.specs.declared.settings.Window.{Window};
ghost use Rattle.ed_postmortem.specs.Answers.{enough_orders};
ghost use Rattle.ed_tapes.specs.Runs.{post_mortem_codes};
ghost use Rattle.ed_page.specs.Going.{CanGoOn, IsAfterStart};
ghost use Rattle.ed_page.specs.Pictures.{Pictures, size_shown};
ghost use Rattle.ed_page.specs.PostMortems.{IsPostMortemWritten, IsWindowWritten, code_buffer};

use crate::reply::{NO_MEMORY, NO_ROOM};
use crate::running::size_of;
use crate::snapshot::snapshot;
use crate::writing::{Registers, write_codes};
use ed_codes::Code;
use ed_machine::Paper;
use ed_run::Window;
use ed_tapes::window_printed;
use ed_words::{NoMemory, Size};
use std::alloc::Global;

/// The answer if the codes were written.
const WRITTEN: u32 = 0;

/// The answer if there are no such locations.
const REFUSED: u32 = 3;

/// Writes the codes that a post-mortem prints of the words at `window` in the state that a picture shows, and their
/// number, and answers 0.
///
/// The picture is one that `page_go_on` takes. It answers 12 if a buffer of the store has the wrong length or the codes
/// have no room, 3 if the locations do not lie between 144 and the end of the store, and 10 if no memory was found;
/// nothing is written then.
#[unsafe(no_mangle)]
pub extern "C" fn page_post_mortem(
    alloc: Global,
    rows: &[u8],
    small: bool,
    first: u16,
    count: u16,
    words: &[u32],
    digits: &[u8],
    registers: &Registers,
    codes: &mut [u8],
    printed: &mut u64,
) -> u32
    requires picture { CanGoOn small rows.now words.now digits.now registers.now }
    requires orders { registers.now.orders + enough_orders ≤ 2 ^ 63 }
    ensures told { length words.now ≡ 1024 → length digits.now ≡ 512
        → (s : State) → IsAfterStart small rows.now s → (k : ℕ)
        → Pictures (state_after k s) words.now digits.now registers.now
        → IsPostMortemWritten (size_shown small) (record { first = first; count = count }) (state_after k s)
        (code_buffer codes.old printed.old) (code_buffer codes.new printed.new) result }
    ensures early { (length words.now ≢ 1024) ⊎ (length digits.now ≢ 512)
        → (result ≡ 12) × (code_buffer codes.new printed.new ≡ code_buffer codes.old printed.old) }
{
    if words.len() != 1024 || digits.len() != 512 {
        return NO_ROOM;
    }
    let window = Window { first, count };
    if !is_window(size_of(small), window) {
        return REFUSED;
    }
    match printed_paper(alloc, rows, small, window, words, digits, registers) {
        Ok(paper) => write_printed(paper.codes(), codes, printed),
        Err(NoMemory) => NO_MEMORY,
    }
}

/// Whether a store has these locations for a post-mortem.
fn is_window(size: Size, window: Window) -> bool
    ensures { IsTrue result ↔ IsWindowOf size window }
{
    144 <= window.first
        && u32::from(window.first) + u32::from(window.count) <= u32::from(size.value())
}

/// The paper of a post-mortem of the state that a picture shows.
fn printed_paper(
    alloc: Global,
    rows: &[u8],
    small: bool,
    window: Window,
    words: &[u32],
    digits: &[u8],
    registers: &Registers,
) -> Result<Paper, NoMemory>
    requires words { length words.now ≡ 1024 }
    requires digits { length digits.now ≡ 512 }
    requires picture { CanGoOn small rows.now words.now digits.now registers.now }
    requires orders { registers.now.orders + enough_orders ≤ 2 ^ 63 }
    requires window { IsWindowOf (size_shown small) window }
    ensures { IfOk result (λ paper. (s : State) → IsAfterStart small rows.now s → (k : ℕ)
        → Pictures (state_after k s) words.now digits.now registers.now
        → paper.codes ≡ post_mortem_codes (Some window) (state_after k s)) }
{
    let mut machine = snapshot(alloc, small, rows, words, digits, registers)?;
    window_printed(alloc, window, &mut machine)
}

/// Writes codes and their number, if the buffer has room.
fn write_printed(found: &[Code], codes: &mut [u8], printed: &mut u64) -> u32
    ensures { (w : Window) (s : State) → found.now ≡ post_mortem_codes (Some w) s
        → IsWindowWritten w s (code_buffer codes.old printed.old) (code_buffer codes.new printed.new) result }
{
    if codes.len() < found.len() {
        return NO_ROOM;
    }
    write_codes(found, codes);
    *printed = found.len() as u64;
    WRITTEN
}
