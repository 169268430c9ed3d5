// Kernels: keyed permutations of blocks of 32 bytes, and layers over them.
#![tactic(auto)]

mod chained;
mod trip;
mod whitened;

ghost use Rattle.std.specs.Prelude.{◌≡◌, List, ℕ};
ghost use Rattle.block.specs.Bytes.{IsBlock};

pub use chained::Chained;
pub use trip::there_and_back;
pub use whitened::Whitened;

// A kernel means two fixed functions on blocks, forth and back, that undo each other.
// Whoever brings a kernel gives both, shows the four laws, and answers the two calls by them.
pub trait Kernel {
    // forth: what the kernel makes of a block
    ghost forth: { Self → List ℕ → List ℕ };

    // back: the block that forth came from
    ghost back: { Self → List ℕ → List ℕ };

    // Answers forth of the block.
    fn encrypt(&self, x: [u8; 32]) -> [u8; 32]
        ensures { result ≡ forth self.now x };

    // Answers back of the block.
    fn decrypt(&self, x: [u8; 32]) -> [u8; 32]
        ensures { result ≡ back self.now x };

    ghost back_forth: { (k : Self) (x : List ℕ) → IsBlock x → back k (forth k x) ≡ x };

    ghost forth_back: { (k : Self) (x : List ℕ) → IsBlock x → forth k (back k x) ≡ x };

    ghost forth_block: { (k : Self) (x : List ℕ) → IsBlock x → IsBlock (forth k x) };

    ghost back_block: { (k : Self) (x : List ℕ) → IsBlock x → IsBlock (back k x) };
}
