ghost use Rattle.std.specs.Prelude.{◌≡◌, ◌<◌, ◌≤◌, length, MatchOption};
ghost use Rattle.block.specs.Numbers.{value, bytes_of};

// The number that the bytes tell, the first one highest, or none where there are more than sixteen.
// Not `from_be_bytes`: that takes exactly sixteen bytes, and here any number up to sixteen may come (the numbers of an end have 6 to 12).
pub fn number_of(bytes: &[u8]) -> Option<u128>
    ensures { MatchOption result (16 < length bytes.now) (λ n. (length bytes.now ≤ 16) × (n ≡ value bytes.now)) }
{
    if bytes.len() > 16 {
        return None;
    }
    let mut n = 0u128;
    for b in bytes {
        n = n * 256 + u128::from(*b);
    }
    Some(n)
}

// Writes the lowest bytes of the number, as many as there is room for, the first one highest.
// Not `to_be_bytes`: that gives exactly sixteen bytes, and here the room says how many.
pub fn put_number(n: u128, out: &mut [u8])
    ensures { out.new ≡ bytes_of (length out.old) n }
{
    // The lowest byte first, and then the other way round. `for byte in out.iter_mut().rev()` was tried:
    // its invariant sees neither the slice nor an index, and what the slice holds at the end stayed open.
    let mut rest = n;
    for byte in out.iter_mut() {
        *byte = (rest % 256) as u8;
        rest /= 256;
    }
    out.reverse();
}
