//! The packed store compared with the two plain lists, over a stated sequence of writes.

ghost use Rattle.std.specs.Prelude.{◌<◌};

use crate::plain::Plain;
use ed_store::Store;
use ed_words::{Long, Word};

/// A linear congruential sequence modulo 2^64; the upper 32 digits of its numbers are used.
#[derive(Drop)]
struct Sequence {
    state: u64,
}

impl Sequence {
    fn next(&mut self) -> u32 {
        self.state = self.state.wrapping_mul(6_364_136_223_846_793_005);
        self.state = self.state.wrapping_add(1_442_695_040_888_963_407);
        (self.state >> 32) as u32
    }
}

/// Whether the two stores differ at a location.
fn differs(packed: &Store, plain: &Plain, a: u16) -> bool
    requires { a < 1024 }
{
    packed.short(a) != plain.short(a)
        || packed.long(a).value() != plain.long(a).value()
        || packed.sandwich(a) != plain.sandwich(a)
        || packed.cells()[usize::from(a / 2)] != plain.long(a).value()
}

/// The first location, if there is one, at which the two stores differ.
fn difference(packed: &Store, plain: &Plain) -> Option<u16> {
    for a in 0..1024 {
        if differs(packed, plain, a) {
            return Some(a);
        }
    }
    None
}

/// Writes the same word or long word into both stores.
fn write(sequence: &mut Sequence, packed: &mut Store, plain: &mut Plain) {
    let a = (sequence.next() % 1024) as u16;
    if sequence.next() < 1 << 31 {
        let word = Word::of_number(sequence.next() % (1 << 17));
        packed.put_short(a, word);
        plain.put_short(a, word);
    } else {
        let high = u64::from(sequence.next());
        let low = u64::from(sequence.next() % 8);
        let long = Long::of_number(high * 8 + low);
        packed.put_long(a, long);
        plain.put_long(a, long);
    }
}

#[test]
fn packed_cells_are_the_plain_lists(rt: HostRuntime) {
    let mut packed = Store::cleared(rt.alloc()).expect(&rt, "memory");
    let mut plain = Plain::cleared();
    let mut sequence = Sequence { state: 1949 };
    for round in 0..2_000 {
        write(&mut sequence, &mut packed, &mut plain);
        let unlike = difference(&packed, &plain);
        assert!(rt; unlike.is_none(), "round {round}: {unlike:?}");
    }
}
