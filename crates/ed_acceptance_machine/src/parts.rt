//! Each public call of the machine's parts once on its happy path.

use crate::numbers::{code, long, number_of_the_only, word};
use crate::support::{expect, first_difference};
use ed_acc::Acc;
use ed_codes::{Code, TextFault, byte_of, row_of_byte, tape_of_text};
use ed_machine::Paper;
use ed_orders::{Kind, kind_of, order_text, places};
use ed_store::Store;
use ed_words::{Halves, Long, Order, Size, Word, fits};
use std::alloc::Global;
use std::process::Abort;

#[test]
fn words_and_their_fields(rt: HostRuntime) {
    let order = Order {
        function: 28,
        spare: false,
        address: 66,
        length: true,
    };
    expect(
        &rt,
        Word::of_order(order).value() == 114_821,
        "the word of an order",
    );
    let read = word(&rt, 114_821).order();
    expect(&rt, read.function == 28 && !read.spare, "the function");
    expect(&rt, read.address == 66 && read.length, "the address");
    expect(&rt, Word::new(131_072).is_none(), "no word");
}

#[test]
fn long_words_and_their_halves(rt: HostRuntime) {
    let halves = Halves {
        odd: word(&rt, 1),
        sandwich: true,
        even: word(&rt, 2),
    };
    expect(
        &rt,
        Long::join(halves).value() == 262_144 + 131_072 + 2,
        "the long word of halves",
    );
    let halves = long(&rt, 393_218).halves();
    expect(
        &rt,
        halves.odd.value() == 1 && halves.sandwich && halves.even.value() == 2,
        "the halves of a long word",
    );
    expect(
        &rt,
        Long::of_short(word(&rt, 3)).value() == 786_432,
        "the long word of a word",
    );
    expect(&rt, Long::new(1 << 35).is_none(), "no long word");
}

#[test]
fn the_sizes_of_a_store(rt: HostRuntime) {
    expect(&rt, Size::Small.value() == 512, "the small size");
    expect(&rt, Size::Full.value() == 1024, "the full size");
    expect(&rt, fits(1023) && !fits(1024), "what fits");
}

#[test]
fn codes_and_their_signs(rt: HostRuntime) {
    expect(&rt, code(&rt, 31).value() == 31, "the number of a code");
    expect(&rt, Code::new(32).is_none(), "no code");
    expect(&rt, Code::default().value() == 0, "the code 0");
    expect(
        &rt,
        byte_of(code(&rt, 3), false) == b'E',
        "the letter of a code",
    );
    expect(
        &rt,
        byte_of(code(&rt, 3), true) == b'3',
        "the figure of a code",
    );
    expect(
        &rt,
        row_of_byte(b'V') == Some(code(&rt, 31)),
        "the row of a letter",
    );
    expect(&rt, row_of_byte(b'v').is_none(), "no row");
}

#[test]
fn the_rows_of_a_text(rt: HostRuntime) {
    let is_fault = matches!(
        tape_of_text(rt.alloc(), b"T6]"),
        Err(TextFault::NoRow {
            place: 2,
            byte: b']',
        },)
    );
    expect(&rt, is_fault, "the fault");
    let text = b"T 64 [the place]\r\n#\tK";
    let rows = tape_of_text(rt.alloc(), text).expect(&rt, "a tape");
    let differs = first_difference(&rows, &[5, 6, 4, 11, 14]);
    expect(&rt, differs.is_none(), "the rows");
}

/// The signs of the codes 0 to 31 in a tape's text.
const SIGNS: &[u8] = b"PQWERTYUIOJ#SZK*.F@D!HNM&LXGABCV";

/// The expected answer to one byte as a tape's text: the number of its row, or None if it is spacing; 32 if it is
/// refused as no row, and 33 if it opens a comment.
fn of_byte(byte: u8) -> Option<usize> {
    match byte {
        b'0'..=b'9' => Some(usize::from(byte - b'0')),
        b' ' | b'\t' | b'\r' | b'\n' => None,
        b'[' => Some(33),
        _ => Some(code_of_sign(byte)),
    }
}

/// The code of a sign; 32 if no code has it.
fn code_of_sign(byte: u8) -> usize {
    for (code, sign) in SIGNS.iter().enumerate() {
        if *sign == byte {
            return code;
        }
    }
    32
}

/// The same for what `tape_of_text` answers to that byte.
fn answered(rt: &impl Abort, alloc: Global, byte: u8) -> Option<usize> {
    match tape_of_text(alloc, &[byte]) {
        Ok(rows) => match rows.as_slice() {
            [] => None,
            [row] => Some(usize::from(row.value())),
            _ => rt.panic("several rows"),
        },
        Err(
            TextFault::NoRow {
                place: 0,
                byte: told,
            },
        ) if told == byte => Some(32),
        Err(TextFault::OpenComment { place: 0 }) => Some(33),
        Err(_) => rt.panic("another fault"),
    }
}

#[test]
fn every_byte_of_a_tape_text(rt: HostRuntime) {
    for byte in 0..=255u8 {
        assert!(rt;
            answered(&rt, rt.alloc(), byte) == of_byte(byte),
            "byte {byte}"
        );
    }
}

/// Checks the number in an accumulator.
fn expect_value(rt: &impl Abort, acc: &Acc, value: u128) {
    assert!(rt; acc.value() == value, "{value}");
}

#[test]
fn the_accumulator(rt: HostRuntime) {
    let mut acc = Acc::cleared();
    expect_value(&rt, &acc, 0);
    acc.add_short(word(&rt, 3));
    acc.add_long(long(&rt, 5));
    expect_value(&rt, &acc, (3 << 54) + (5 << 36));
    expect(&rt, acc.top_short().value() == 3, "the top word");
    expect(&rt, acc.top_long().value() == 786_437, "the top long word");
    acc.sub_long(long(&rt, 5));
    acc.sub_short(word(&rt, 1));
    expect_value(&rt, &acc, 1 << 55);
}

#[test]
fn shifts_and_the_sign(rt: HostRuntime) {
    let mut acc = Acc::cleared();
    acc.add_short(word(&rt, 2));
    acc.left(2);
    expect_value(&rt, &acc, 1 << 57);
    acc.right(3);
    expect_value(&rt, &acc, 1 << 54);
    acc.round();
    expect_value(&rt, &acc, (1 << 54) + (1 << 35));
    acc.clear();
    expect(&rt, !acc.is_negative(), "not negative");
    acc.sub_short(word(&rt, 1));
    expect(&rt, acc.is_negative(), "negative");
    expect_value(&rt, &acc, (1 << 71) - (1 << 54));
}

#[test]
fn products_and_common_digits(rt: HostRuntime) {
    let half = long(&rt, 1 << 33);
    let mut acc = Acc::cleared();
    acc.add_product(half, half);
    expect_value(&rt, &acc, 1 << 68);
    acc.sub_product(half, half);
    expect_value(&rt, &acc, 0);
    acc.collate(Long::of_short(word(&rt, 3)), Long::of_short(word(&rt, 6)));
    expect_value(&rt, &acc, 1 << 55);
}

#[test]
fn the_store(rt: HostRuntime) {
    let mut store = Store::cleared(rt.alloc()).expect(&rt, "memory");
    store.put_short(5, word(&rt, 7));
    store.put_long(8, long(&rt, 131_073));
    expect(&rt, store.short(5).value() == 7, "a word");
    let joined = store.long(4).value();
    expect(&rt, joined == 7 * 262_144, "the long word of a word");
    expect(&rt, store.short(8).value() == 1, "the word of a long word");
    let digits = store.sandwich(9) && !store.sandwich(5);
    expect(&rt, digits, "the sandwich digits");
    let mut other = store.copy().expect(&rt, "memory");
    assert!(rt; other.equals(&store));
    other.put_short(0, word(&rt, 1));
    assert!(rt; !other.equals(&store));
}

/// Checks the text of a word's order.
fn expect_order(rt: &impl Abort, number: u32, wanted: &str) {
    let text = order_text(word(rt, number));
    assert!(rt; text.as_str() == wanted, "{number}");
}

#[test]
fn orders_and_their_texts(rt: HostRuntime) {
    expect(&rt, matches!(kind_of(28), Some(Kind::A)), "the kind of A");
    expect(
        &rt,
        kind_of(0).is_none() && kind_of(32).is_none(),
        "no kind",
    );
    expect_order(&rt, 114_821, "A66D");
    expect_order(&rt, 53_248, "ZF");
}

/// Checks the places of a shift.
fn expect_places(rt: &impl Abort, number: u32, shift: u8) {
    let word = word(rt, number);
    assert!(rt; 0 < word.value());
    assert!(rt; places(word) == shift);
}

#[test]
fn the_places_of_a_shift(rt: HostRuntime) {
    expect_places(&rt, 16_384, 15);
    expect_places(&rt, 16_385, 1);
    expect_places(&rt, 102_400, 13);
}

#[test]
fn the_paper(rt: HostRuntime) {
    let mut paper = Paper::new(rt.alloc(), 1).expect(&rt, "memory");
    expect(&rt, paper.room_left() == 1, "the room");
    let (first, second) = (code(&rt, 28), code(&rt, 29));
    expect(&rt, paper.push(first), "the code that has room");
    expect(&rt, !paper.push(second), "the code that has none");
    let codes = number_of_the_only(paper.codes());
    expect(&rt, codes == Some(28), "the codes");
}
