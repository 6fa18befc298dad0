//! The routines of the library: their texts as they are punched, what is read of them, and their words in the store.

use crate::support::expect;
use ed_library::{Routine, catalogue_size, find, image_word, routine};
use ed_notation::{Item, spellable, text_of_items};
use ed_words::Word;
use std::alloc::Global;
use std::process::Abort;

/// What is expected of a routine.
#[derive(Clone, Copy)]
struct Sheet {
    name: &'static str,
    length: u16,
    parameters: &'static [u8],
    working: &'static [u16],
    /// Its items, a line for each.
    text: &'static str,
}

/// The routines in order of name.
const SHEETS: [Sheet; 6] = [
    Sheet {
        name: "check",
        length: 66,
        parameters: &[21],
        working: &[0, 40, 58, 59, 60, 61, 62, 63, 64, 65],
        text: "AH\nU40@\nO40@\nE13@\nS53@\nG30@\nS55@\nE30@\nA56@\nT58@\n\
           A60#@\nG26@\nE21@\nS54@\nG30@\nS55@\nE30@\nA56@\nT58@\nA60#@\n\
           E26@\nT59@\nA@\nA57@\nT@\nE@\nT59@\nA58@\nT@\nE@\n\
           T59@\nA64#@\nRF\nRF\nR4F\nA62#@\nRF\nRF\nR4F\nA60#@\n\
           PF\nU60#@\nS60#@\nLF\nLF\nL64F\nU62#@\nS62#@\nLF\nLF\n\
           L64F\nT64#@\nE22@\nGF\nEF\nQF\nBF\nP1F\nPF\nPF\n\
           PF\nPF\nPF\nPF\nPF\nPF\n",
    },
    Sheet {
        name: "divide",
        length: 41,
        parameters: &[21, 22, 23],
        working: &[32, 35, 36, 37, 38, 39, 40],
        text: "A3F\nT32@\nA33@\nRF\nRD\nT36#@\nAN\nRF\nRD\nAH\n\
           T38#@\nS34@\nU35@\nT40@\nA38#@\nLD\nSM\nE20@\nAM\nE21@\n\
           A36#@\nT38#@\nA35@\nA33@\nU35@\nG13@\nA38#@\nUH\nSH\nLF\n\
           L2F\nTN\nPF\nPD\nP8F\nPF\nPF\nPF\nPF\nPF\n\
           PF\n",
    },
    Sheet {
        name: "newline",
        length: 7,
        parameters: &[],
        working: &[4],
        text: "A3F\nT4@\nO5@\nO6@\nPF\n@F\n&F\n",
    },
    Sheet {
        name: "print",
        length: 51,
        parameters: &[21],
        working: &[11, 38, 47, 48, 49, 50],
        text: "A3F\nT38@\nO39@\nAH\nT47@\nT48@\nA41@\nT11@\nT50@\nT49@\n\
           A47@\nS43@\nG18@\nT47@\nA49@\nA40@\nT49@\nE10@\nT50@\nA49@\n\
           A48@\nS40@\nG27@\nO49@\nT50@\nA40@\nT48@\nT50@\nA11@\nA2F\n\
           U11@\nS42@\nG8@\nA47@\nL512F\nLD\nT49@\nO49@\nPF\n#F\n\
           QF\nS43@\nS47@\nP5000F\nP500F\nP50F\nP5F\nPF\nPF\nPF\n\
           PF\n",
    },
    Sheet {
        name: "read",
        length: 24,
        parameters: &[21],
        working: &[19, 21, 22, 23],
        text: "A3F\nT19@\nT21@\nI22@\nA22@\nS20@\nE16@\nT23@\nA21@\nLD\n\
           U23@\nL1F\nA23@\nA22@\nT21@\nE3@\nT23@\nA21@\nTH\nPF\n\
           P5F\nPF\nPF\nPF\n",
    },
    Sheet {
        name: "root",
        length: 23,
        parameters: &[21, 22],
        working: &[18, 21, 22],
        text: "A3F\nT18@\nAH\nT21@\nA19@\nT22@\nA21@\nS22@\nG14@\nT21@\n\
           A22@\nA20@\nT22@\nE6@\nT21@\nA22@\nRD\nTN\nPF\nPD\n\
           P1F\nPF\nPF\n",
    },
];

/// Adds the text of an item.
fn add_item(rt: &impl Abort, alloc: Global, text: &mut Vec<u8>, item: Item) {
    assert!(rt; spellable(&item));
    let added = text_of_items(alloc, &[item]).expect(rt, "memory");
    text.extend_from_slice(&added).expect(rt, "memory");
}

/// Checks the text of a routine's items, a line for each.
fn expect_text(rt: &impl Abort, alloc: Global, routine: Routine, sheet: &Sheet) {
    let mut text = Vec::new(alloc);
    for place in 0..routine.length() {
        add_item(rt, alloc, &mut text, routine.item(place));
    }
    expect(rt, text.as_slice() == sheet.text.as_bytes(), sheet.name);
}

/// Whether a routine takes parameters of these letters, in this order.
fn has_parameters(routine: Routine, letters: &[u8]) -> bool {
    let parameters = routine.parameters();
    for (index, letter) in parameters.iter().enumerate() {
        if letters.get(index) != Some(&letter.value()) {
            return false;
        }
    }
    parameters.len() == letters.len()
}

/// Checks what is read of a routine: its name, its length, its parameters, and which of its places change.
fn expect_routine(rt: &impl Abort, routine: Routine, sheet: &Sheet) {
    expect(rt, routine.name() == sheet.name, sheet.name);
    expect(rt, find(sheet.name) == Some(routine), sheet.name);
    expect(rt, routine.length() == sheet.length, sheet.name);
    expect(rt, has_parameters(routine, sheet.parameters), sheet.name);
    for place in 0..routine.length() {
        let changes = sheet.working.contains(&place);
        expect(rt, routine.is_working(place) == changes, sheet.name);
    }
}

#[test]
fn what_the_catalogue_says(rt: HostRuntime) {
    assert!(rt; usize::from(catalogue_size()) == SHEETS.len());
    assert!(rt; find("new").is_none());
    for index in 0..catalogue_size() {
        let routine = routine(index);
        let sheet = &SHEETS[usize::from(index)];
        expect_routine(&rt, routine, sheet);
        expect_text(&rt, rt.alloc(), routine, sheet);
    }
}

/// The words of `newline` at 64.
const NEWLINE: [u32; 7] = [114_694, 20_616, 37_002, 37_004, 0, 73_728, 98_304];

/// Checks the words of a routine at 64, for parameters of seventeen ones.
fn expect_words(rt: &impl Abort, routine: Routine, words: &[u32]) {
    let parameters = [Word::new(131_071).expect(rt, "a word"); 6];
    assert!(rt; usize::from(routine.length()) == words.len());
    for place in 0..routine.length() {
        let word = image_word(&routine, place, 64, &parameters).value();
        assert!(rt; words.get(usize::from(place)) == Some(&word), "{place}");
    }
}

#[test]
fn words_at_a_base(rt: HostRuntime) {
    let newline = find("newline").expect(&rt, "a routine");
    expect_words(&rt, newline, &NEWLINE);
}
