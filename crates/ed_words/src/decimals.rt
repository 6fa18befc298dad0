ghost use Rattle.std.specs.Prelude.{◌≡◌, ◌≤◌, IfSome};
ghost use Rattle.ed_words.specs.Decimals.{number, number_within};

/// The number that a text of 1 to 9 decimal digits spells, without a sign; None for any other text.
pub fn number(text: &[u8]) -> Option<u32>
    ensures { result ≡ number text.now }
{
    if text.is_empty() || text.len() > 9 {
        return None;
    }
    let mut value: u32 = 0;
    for byte in text {
        if !byte.is_ascii_digit() {
            return None;
        }
        value = 10 * value + u32::from(*byte - b'0');
    }
    Some(value)
}

/// The number of such a text, if it is from `least` to `most`.
pub fn number_within(text: &[u8], least: u32, most: u32) -> Option<u32>
    ensures is { result ≡ number_within least most text.now }
    ensures most { IfSome result (λ n. n ≤ most) }
{
    match number(text) {
        Some(number) if least <= number && number <= most => Some(number),
        _ => None,
    }
}
