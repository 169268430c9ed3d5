ghost use Rattle.std.specs.Prelude.{◌≡◌};
ghost use Rattle.kernel.specs.Layers.{chained as one_after_the_other};
ghost use Rattle.std.proofs.Common.{rules};

use super::Kernel;

// Two kernels, the first run first.
#[derive(Drop)]
pub struct Chained<A, B> {
    first: A,
    second: B,
}

impl<A, B> Chained<A, B> {
    // The chain of two kernels.
    pub fn new(first: A, second: B) -> Chained<A, B>
        ensures { (result.first ≡ first) × (result.second ≡ second) }
    {
        Chained { first, second }
    }
}

impl<A: Kernel, B: Kernel> Kernel for Chained<A, B> {
    ghost forth = { λ k. one_after_the_other (A.Kernel.forth k.first) (B.Kernel.forth k.second) };

    ghost back = { λ k. one_after_the_other (B.Kernel.back k.second) (A.Kernel.back k.first) };

    ghost back_forth = { Prim.search rules };

    ghost forth_back = { Prim.search rules };

    ghost forth_block = { Prim.search rules };

    ghost back_block = { Prim.search rules };

    fn encrypt(&self, x: [u8; 32]) -> [u8; 32] {
        self.second.encrypt(self.first.encrypt(x))
    }

    fn decrypt(&self, x: [u8; 32]) -> [u8; 32] {
        self.first.decrypt(self.second.decrypt(x))
    }
}
