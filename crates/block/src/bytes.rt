ghost use Rattle.std.specs.Prelude.{◌≡◌};
ghost use Rattle.block.specs.Bytes.{◌⊕◌, filled};

use std::array;

// The exclusive or of two blocks.
pub fn xor_blocks(a: [u8; 32], b: [u8; 32]) -> [u8; 32]
    ensures { result ≡ a ⊕ b }
{
    array::from_fn(|i| a[i] ^ b[i])
}

// The bytes, filled with zeros on their right to 32.
pub fn fill_block(bytes: &[u8]) -> [u8; 32]
    ensures { result ≡ filled bytes.now }
{
    // Copied whole: `array::from_fn(|i| bytes.get(i).copied().unwrap_or(0))` proves too, but takes five times as long, and
    // the calls of an end over a cheap kernel then take over a third longer.
    let mut block = [0; 32];
    let n = bytes.len().min(32);
    block[0..n].copy_from_slice(&bytes[0..n]);
    block
}
