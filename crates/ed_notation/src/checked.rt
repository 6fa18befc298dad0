ghost use Rattle.std.specs.Prelude.{◌≡◌, ◌<◌, length};
ghost use Rattle.ed_notation.specs.Reports.{word_in};

use crate::reader::Reached;
use ed_store::Store;
use ed_words::Word;
use std::marker::Model;

/// What `check` reports of a well-formed tape.
#[derive(Drop)]
pub struct Checked {
    reached: Reached,
    contents: Store,
    placed: Vec<bool>,
}

impl Model for Checked {
    ghost use Rattle.std.specs.Prelude.{◌≡◌, ◌<◌, length};
    ghost use Rattle.ed_notation.specs.Reports.{Report};

    ghost Value = { Report };

    ghost view = { λ c. record {
      entry = c.reached.entry;
      orders = c.reached.orders;
      rows = c.reached.rows;
      theta = c.reached.theta;
      placed = c.placed.items;
      words = c.contents.words;
    } };

    ghost invariant = { λ c. length c.placed.items ≡ 1024 };
}

impl Checked {
    /// The entry of a tape, the store that the tape left, and where it placed words.
    pub(crate) fn new(reached: Reached, contents: Store, placed: Vec<bool>) -> Checked
        requires { length placed.items ≡ 1024 }
        ensures { result ≡ record {
          entry = reached.entry;
          orders = reached.orders;
          rows = reached.rows;
          theta = reached.theta;
          placed = placed.items;
          words = contents.words;
        } }
    {
        Checked {
            reached,
            contents,
            placed,
        }
    }

    /// The address of the entry.
    pub fn entry(&self) -> u16
        ensures { result ≡ self.now.entry }
    {
        self.reached.entry
    }

    /// The number of orders that read the tape up to the entry.
    pub fn orders(&self) -> u64
        ensures { result ≡ self.now.orders }
    {
        self.reached.orders
    }

    /// The number of rows read up to the entry item's end.
    pub fn rows(&self) -> usize
        ensures { result ≡ self.now.rows }
    {
        self.reached.rows
    }

    /// The value of θ at the entry.
    pub fn theta(&self) -> Word
        ensures { result ≡ self.now.theta }
    {
        self.reached.theta
    }

    /// The last word that the tape placed at an address; None if it placed none there.
    pub fn word(&self, a: u16) -> Option<Word>
        requires { a < 1024 }
        ensures { result ≡ word_in self.now a }
    {
        if self.placed[usize::from(a)] {
            Some(self.contents.short(a))
        } else {
            None
        }
    }
}
