ghost use Rattle.std.specs.Prelude.{◌≡◌};
ghost use Rattle.ed_initial1.specs.Listing.{first_orders};

use ed_codes::letters;
use ed_codes::letters::{A, E, G, H, I, P, R, T, U, V};
use ed_initial::order;
use ed_words::Word;

// The length of an order: S is short, and L is long. The functions of these letters are `letters::S` and `letters::L`.

const S: bool = false;

const L: bool = true;

/// The 31 words of Initial Orders 1, in the order of their locations.
pub fn orders1() -> [Word; 31]
    ensures { result ≡ first_orders }
{
    [
        order(T, 0, S),
        order(H, 2, S),
        order(T, 0, S),
        order(E, 6, S),
        order(P, 1, S),
        order(P, 5, S),
        order(T, 0, S),
        order(I, 0, S),
        order(A, 0, S),
        order(R, 16, S),
        order(T, 0, L),
        order(I, 2, S),
        order(A, 2, S),
        order(letters::S, 5, S),
        order(E, 21, S),
        order(T, 3, S),
        order(V, 1, S),
        order(letters::L, 8, S),
        order(A, 2, S),
        order(T, 1, S),
        order(E, 11, S),
        order(R, 4, S),
        order(A, 1, S),
        order(letters::L, 0, L),
        order(A, 0, S),
        order(T, 31, S),
        order(A, 25, S),
        order(A, 4, S),
        order(U, 25, S),
        order(letters::S, 31, S),
        order(G, 6, S),
    ]
}
