//! Items, the rows and the text that spell them, and the words of the Initial Orders.

use crate::endings::listing;
use crate::numbers::code;
use crate::support::first_difference;
use ed_notation::{Item, rows_of_items, spellable, text_of_items};

/// The items T 64 K and A 2 π @.
#[test]
fn items_are_spelled(rt: HostRuntime) {
    let first = Item {
        function: code(&rt, 5),
        number: 64,
        mark: false,
        end: code(&rt, 14),
    };
    let second = Item {
        function: code(&rt, 28),
        number: 2,
        mark: true,
        end: code(&rt, 18),
    };
    assert!(rt; spellable(&first) && spellable(&second));
    let rows = rows_of_items(rt.alloc(), &[first, second]).expect(&rt, "memory");
    let differs = first_difference(&rows, &[5, 6, 4, 14, 28, 2, 11, 18]);
    assert!(rt; differs.is_none(), "row {differs:?}");
    let text = text_of_items(rt.alloc(), &[first, second]).expect(&rt, "memory");
    assert!(rt; text.as_slice() == b"T64K\nA2#@\n".as_slice());
}

/// The words of the Initial Orders, by location.
const WORDS: [u32; 41] = [
    20_480, 12_328, 2, 28_676, 114_766, 16_392, 126_976, 102_416, 20_480, 32_770, 114_690, 49_230,
    110_600, 102_401, 49_230, 12_322, 49_166, 114_758, 20_520, 114_688, 86_032, 114_768, 20_566,
    114_732, 114_692, 20_524, 12_356, 114_774, 12_304, 114_772, 114_768, 12_338, 114_732, 20_564,
    32_849, 114_769, 16_416, 20_561, 12_304, 11, 1,
];

#[test]
fn the_initial_orders(rt: HostRuntime) {
    for (place, order) in listing().iter().enumerate() {
        assert!(rt; order.value() == WORDS[place], "{place}");
    }
}
