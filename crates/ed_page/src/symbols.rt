ghost use Rattle.std.specs.Prelude.{◌≡◌, ◌<◌, ◌≤◌, ◌^◌, ◌⊎◌, false, length, take};
ghost use Rattle.ed_codes.specs.Spelling.{byte_of};
ghost use Rattle.ed_orders.specs.Texts.{order_text};

use crate::writing::write_text;
use ed_codes::{Code, byte_of};
use ed_orders::order_text;
use ed_words::Word;

/// The letter or sign of a code below 32; 0 for any other number.
#[unsafe(no_mangle)]
pub extern "C" fn page_letter(code: u8) -> u8
    ensures letter { code < 32 → result ≡ byte_of code false }
    ensures none { 32 ≤ code → result ≡ 0 }
{
    match Code::new(code) {
        Some(code) => byte_of(code, false),
        None => 0,
    }
}

/// Writes the text of an order word below 131,072 at the beginning of a buffer, and answers its length; 0 if the word
/// is not one or the buffer has no room.
#[unsafe(no_mangle)]
pub extern "C" fn page_order(word: u32, buffer: &mut [u8]) -> usize
    ensures text { word < 2 ^ 17 → length (order_text word) ≤ length buffer.old
        → take result buffer.new ≡ order_text word }
    ensures length { word < 2 ^ 17 → length (order_text word) ≤ length buffer.old → result ≡ length (order_text word) }
    ensures none { (2 ^ 17 ≤ word) ⊎ (length buffer.old < length (order_text word)) → result ≡ 0 }
    ensures untouched { (2 ^ 17 ≤ word) ⊎ (length buffer.old < length (order_text word)) → buffer.new ≡ buffer.old }
{
    let Some(order) = Word::new(word) else {
        return 0;
    };
    let text = order_text(order);
    let bytes = text.as_bytes();
    if buffer.len() < bytes.len() {
        return 0;
    }
    write_text(bytes, buffer);
    bytes.len()
}
