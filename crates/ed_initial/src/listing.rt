ghost use Rattle.std.specs.Prelude.{◌≡◌, ◌<◌};
ghost use Rattle.ed_initial.specs.Listing.{initial_orders, listed_order};

use ed_codes::letters::{A, E, G, H, I, L, P, R, S, T, U, V};
use ed_words::{Order, Word};

// The length of an order: F is short, and D is long.

const F: bool = false;

const D: bool = true;

/// The word of an order of a listing; `length` is true if the order is long.
pub fn order(function: u8, address: u16, length: bool) -> Word
    requires function { function < 32 }
    requires address { address < 1024 }
    ensures { result ≡ listed_order function address length }
{
    Word::of_order(Order {
        function,
        spare: false,
        address,
        length,
    })
}

/// The 41 words of Initial Orders 2, in the order of their locations.
pub fn orders() -> [Word; 41]
    ensures { result ≡ initial_orders }
{
    [
        order(T, 0, F),
        order(E, 20, F),
        order(P, 1, F),
        order(U, 2, F),
        order(A, 39, F),
        order(R, 4, F),
        order(V, 0, F),
        order(L, 8, F),
        order(T, 0, F),
        order(I, 1, F),
        order(A, 1, F),
        order(S, 39, F),
        order(G, 4, F),
        order(L, 0, D),
        order(S, 39, F),
        order(E, 17, F),
        order(S, 7, F),
        order(A, 35, F),
        order(T, 20, F),
        order(A, 0, F),
        order(H, 8, F),
        order(A, 40, F),
        order(T, 43, F),
        order(A, 22, F),
        order(A, 2, F),
        order(T, 22, F),
        order(E, 34, F),
        order(A, 43, F),
        order(E, 8, F),
        order(A, 42, F),
        order(A, 40, F),
        order(E, 25, F),
        order(A, 22, F),
        order(T, 42, F),
        order(I, 40, D),
        order(A, 40, D),
        order(R, 16, F),
        order(T, 40, D),
        order(E, 8, F),
        order(P, 5, D),
        order(P, 0, D),
    ]
}
