ghost use Rattle.std.specs.Prelude.{◌≡◌, ◌<◌, ◌≤◌};
ghost use Rattle.ed_orders.specs.Places.{IsPlaces, places};

use ed_words::Word;

/// The number of places that a shift order shifts, 1 to 17: from the position of the last digit 1 of the whole word,
/// spare digit and length included.
pub fn places(word: Word) -> u8
    requires { 0 < word }
    ensures is { result ≡ places word }
    ensures law { IsPlaces word result }
    ensures low { 1 ≤ result }
    ensures high { result ≤ 17 }
{
    (word.value().trailing_zeros() + 1) as u8
}
