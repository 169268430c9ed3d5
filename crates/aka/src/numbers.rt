ghost use Rattle.std.specs.Prelude.{◌≡◌, ◌+◌, ◌^◌, ◌<◌, ◌≤◌, false, length, take};
ghost use Rattle.block.specs.Numbers.{value, bytes_of};
ghost use Rattle.aka.specs.Numbers.{all_ff};

use block::{number_of, put_number};

// The number that the bytes tell.
// The bound 12 stands in the contracts of this, `is_largest` and `largest`: a size has no type of its own, since it is a plain field of the size set.
pub(crate) fn read_number(bytes: &[u8]) -> u128
    requires { length bytes.now ≤ 12 }
    ensures value { result ≡ value bytes.now }
    ensures below { result < 256 ^ length bytes.now }
    ensures again { bytes_of (length bytes.now) result ≡ bytes.now }
{
    number_of(bytes).unwrap()
}

// The number's bytes, then zeros: a block for the size that an end has, since it has no heap.
pub(crate) fn number_block(n: u128, size: usize) -> [u8; 32]
    requires { size ≤ 32 }
    ensures { take size result ≡ bytes_of size n }
{
    let mut block = [0; 32];
    put_number(n, &mut block[..size]);
    block
}

// Whether no number of the size comes after n.
pub(crate) fn is_largest(n: u128, size: usize) -> bool
    requires size { size ≤ 12 }
    requires fits { n < 256 ^ size }
    ensures tells { result ≡ all_ff (bytes_of size n) }
    ensures room { result ≡ false → n + 1 < 256 ^ size }
{
    n == largest(size)
}

// The largest number of so many bytes.
fn largest(size: usize) -> u128
    requires { size ≤ 12 }
    ensures { result + 1 ≡ 256 ^ size }
{
    256u128.pow(size as u32) - 1
}
