ghost use Rattle.std.specs.Prelude.{◌≡◌};
ghost use Rattle.block.specs.Bytes.{IsBlock};
ghost use Rattle.block.specs.Refusals.{Answers};
ghost use Rattle.kernel.specs.Layers.{whitened as between, mask_ground};
ghost use Rattle.kernel.specs.LayerLaws.{whitened_undone, whitened_block};

use super::Kernel;
use block::{Refusal, xor_blocks};

// A kernel with a mask before it and a mask behind it.
#[derive(Drop)]
pub struct Whitened<K> {
    below: K,
    before: [u8; 32],
    behind: [u8; 32],
    ghost before_block: { IsBlock before },
    ghost behind_block: { IsBlock behind },
}

impl<K: Drop> Whitened<K> {
    // The kernel below, whitened by the masks a and b of 32 bytes each.
    pub fn new(below: K, a: &[u8], b: &[u8]) -> Result<Whitened<K>, Refusal>
        ensures { Answers (mask_ground a.now b.now) result (λ k. (k.below ≡ below) × (k.before ≡ a.now) × (k.behind ≡ b.now)) }
    {
        let before = <[u8; 32]>::try_from(a).map_err(|_| Refusal::Key)?;
        let behind = <[u8; 32]>::try_from(b).map_err(|_| Refusal::Key)?;
        Ok(Whitened {
            below,
            before,
            behind,
        })
    }
}

impl<K: Kernel> Kernel for Whitened<K> {
    ghost forth = { λ k. between k.before k.behind (K.Kernel.forth k.below) };

    ghost back = { λ k. between k.behind k.before (K.Kernel.back k.below) };

    ghost back_forth = { λ k.
        whitened_undone k.before k.behind (K.Kernel.forth k.below) (K.Kernel.back k.below) k.before_block k.behind_block
        (K.Kernel.forth_block k.below) (K.Kernel.back_forth k.below) };

    ghost forth_back = { λ k.
        whitened_undone k.behind k.before (K.Kernel.back k.below) (K.Kernel.forth k.below) k.behind_block k.before_block
        (K.Kernel.back_block k.below) (K.Kernel.forth_back k.below) };

    ghost forth_block = { λ k.
        whitened_block k.before k.behind (K.Kernel.forth k.below) k.before_block k.behind_block
        (K.Kernel.forth_block k.below) };

    ghost back_block = { λ k.
        whitened_block k.behind k.before (K.Kernel.back k.below) k.behind_block k.before_block
        (K.Kernel.back_block k.below) };

    fn encrypt(&self, x: [u8; 32]) -> [u8; 32] {
        let y = self.below.encrypt(xor_blocks(x, self.before));
        xor_blocks(y, self.behind)
    }

    fn decrypt(&self, x: [u8; 32]) -> [u8; 32] {
        let y = self.below.decrypt(xor_blocks(x, self.behind));
        xor_blocks(y, self.before)
    }
}
