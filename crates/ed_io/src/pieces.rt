ghost use Rattle.std.specs.Prelude.{◌≡◌, ◌≤◌, ◌+◌, ◌++◌, length, min, take, vec_capacity, vec_len};

/// Copies as many bytes to the front of a piece as fit, at most `most`.
pub(crate) fn hand_over(into: &mut [u8], left: &[u8], most: usize) -> usize
    ensures count { result ≡ min most (min (length into.old) (length left.now)) }
    ensures bytes { take result into.new ≡ take result left.now }
{
    let count = most.min(into.len().min(left.len()));
    into[..count].copy_from_slice(&left[..count]);
    count
}

/// Adds bytes for which there is room already.
pub(crate) fn keep(bytes: &mut Vec<u8>, piece: &[u8])
    requires { vec_len bytes.old + length piece.now ≤ vec_capacity bytes.old }
    ensures items { bytes.new.items ≡ bytes.old.items ++ piece.now }
    ensures length { vec_len bytes.new ≡ vec_len bytes.old + length piece.now }
    ensures capacity { vec_capacity bytes.old ≤ vec_capacity bytes.new }
{
    bytes.extend_from_slice(piece).unwrap();
}
