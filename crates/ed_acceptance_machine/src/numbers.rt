//! What the tests share: words, long words and codes by their numbers.

use ed_codes::Code;
use ed_words::{Long, Word};
use std::alloc::Global;
use std::process::Abort;

pub fn word(rt: &impl Abort, number: u32) -> Word {
    Word::new(number).expect(rt, "a word")
}

pub fn long(rt: &impl Abort, number: u64) -> Long {
    Long::new(number).expect(rt, "a long word")
}

pub fn code(rt: &impl Abort, number: u8) -> Code {
    Code::new(number).expect(rt, "a code")
}

/// The codes of these numbers.
pub fn codes(rt: &impl Abort, alloc: Global, numbers: &[u8]) -> Vec<Code> {
    let mut codes = Vec::new(alloc);
    for number in numbers {
        codes.push(code(rt, *number)).ok().expect(rt, "memory");
    }
    codes
}

/// The number of the code of a list of one.
pub fn number_of_the_only(codes: &[Code]) -> Option<u8> {
    match codes {
        [code] => Some(code.value()),
        _ => None,
    }
}
