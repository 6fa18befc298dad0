ghost use Rattle.std.specs.Prelude.{◌≡◌, ◌⊎◌, ◌<◌, ◌≤◌, ◌↔◌, length, IsNone, IfSome, IsUtf8, nat_eq};
ghost use Rattle.std.specs.Cmp.{partial_equiv_from_equiv};
ghost use Rattle.std.specs.Cmp.Lexicographic.{pointwise, nat_list_eq_equiv};

use std::marker::Model;
use std::str;

/// A text of 1 to 16 bytes: the name of a label, a segment or a routine in a source.
#[derive(Clone, Copy)]
pub struct Name {
    bytes: [u8; 16],
    size: usize,
}

impl Model for Name {
    ghost use Rattle.std.specs.Prelude.{ℕ, List, take, length};
    ghost use Rattle.ed_lines.specs.PaddedNames.{padded_name, IsPadded};

    ghost Value = { List ℕ };

    ghost view = { λ n. take n.size n.bytes };

    ghost invariant = { λ n. IsPadded n.bytes n.size };

    ghost inverse = { λ text. record { bytes = padded_name text; size = length text } };

    ghost inverse_ok = { λ n h i. record { bytes = h.zeros i; size = h.size i } };
}

impl Name {
    /// The name of a text; None if the text is empty or has more than 16 bytes.
    pub fn new(text: &str) -> Option<Name>
        ensures none { IsNone result ↔ ((length text.now ≡ 0) ⊎ (16 < length text.now)) }
        ensures some { IfSome result (λ n. n ≡ text.now) }
    {
        if text.is_empty() || text.len() > 16 {
            return None;
        }
        let mut bytes = [0; 16];
        bytes[..text.len()].copy_from_slice(text.as_bytes());
        Some(Name {
            bytes,
            size: text.len(),
        })
    }

    /// The text, of 1 to 16 bytes.
    pub fn text(&self) -> &str
        ensures is { result.now ≡ self.now }
        ensures some { 0 < length result.now }
        ensures few { length result.now ≤ 16 }
    {
        match str::from_utf8(&self.bytes[..self.size]) {
            Ok(text) => text,
            Err(_) => unreachable!(),
        }
    }
}

impl PartialEq for Name {
    ghost eq = { pointwise nat_eq };

    ghost laws = { partial_equiv_from_equiv nat_list_eq_equiv };

    #[tactic(auto, using(crate::proofs::NameBytes::same_bytes))]
    fn eq(&self, other: &Self) -> bool {
        self.size == other.size && self.bytes == other.bytes
    }
}

impl Eq for Name {
    ghost laws = { nat_list_eq_equiv };
}
