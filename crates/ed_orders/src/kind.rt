ghost use Rattle.std.specs.Prelude.{◌≡◌};
ghost use Rattle.ed_orders.specs.Kinds.{kind_of_function, FunctionIsByLetter};

/// The eighteen orders, each named by its letter.
#[derive(Clone, Copy)]
pub enum Kind {
    /// Add.
    A,
    /// Subtract.
    S,
    /// Set the multiplier.
    H,
    /// Multiply and add.
    V,
    /// Multiply and subtract.
    N,
    /// Transfer and clear.
    T,
    /// Transfer and keep.
    U,
    /// Collate.
    C,
    /// Shift right.
    R,
    /// Shift left.
    L,
    /// Jump if the accumulator isn't negative.
    E,
    /// Jump if the accumulator is negative.
    G,
    /// Read a row of the tape.
    I,
    /// Print a code.
    O,
    /// Read back the last printed code.
    F,
    /// No effect.
    X,
    /// Round.
    Y,
    /// Stop.
    Z,
}

/// The order of a function; None if it is not one, as for 32 and above. Each order's function is the tape code that its
/// letter spells.
#[tactic(auto, using(crate::proofs::KindLetters::by_letter))]
pub fn kind_of(function: u8) -> Option<Kind>
    ensures is { result ≡ kind_of_function function }
    ensures law { FunctionIsByLetter }
{
    match function {
        3 => Some(Kind::E),
        4 => Some(Kind::R),
        5 => Some(Kind::T),
        6 => Some(Kind::Y),
        7 => Some(Kind::U),
        8 => Some(Kind::I),
        9 => Some(Kind::O),
        12 => Some(Kind::S),
        13 => Some(Kind::Z),
        17 => Some(Kind::F),
        21 => Some(Kind::H),
        22 => Some(Kind::N),
        25 => Some(Kind::L),
        26 => Some(Kind::X),
        27 => Some(Kind::G),
        28 => Some(Kind::A),
        30 => Some(Kind::C),
        31 => Some(Kind::V),
        0 | 1 | 2 | 10 | 11 | 14 | 15 | 16 | 18 | 19 | 20 | 23 | 24 | 29 => None,
        32..=255 => None,
    }
}
