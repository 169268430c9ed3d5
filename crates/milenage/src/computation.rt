ghost use Rattle.std.specs.Prelude.{◌≡◌, [], ◌∷◌};
ghost use Rattle.block.specs.Bytes.{◌⊕◌};
ghost use Rattle.milenage.specs.Blocks.{temp as temp_of, answer};
ghost use Rattle.milenage.specs.Calls.{input_of, keyed};
ghost use Rattle.milenage.specs.Views.{keyed_with};

use super::question::Question;
use super::scratch::{Work, run};
use block::xor_blocks;
use kernel::Kernel;

// The functions of a kernel, an OPc and c0 to c7 at one RAND: TEMP is made once, and every question is asked at it.
#[derive(Drop)]
pub struct Computation<'k, 't, K> {
    kernel: &'k K,
    opc: &'k [u8; 32],
    constants: &'k [u8; 128],
    temp: &'t [u8; 32],
}

impl<'k, 't, K: Kernel> Computation<'k, 't, K> {
    // Makes TEMP of a RAND that is filled with zeros. Input and output of the kernel run stay in `work`.
    pub fn begin(
        kernel: &'k K,
        opc: &'k [u8; 32],
        constants: &'k [u8; 128],
        rand: [u8; 32],
        temp: &'t mut [u8; 32],
        work: &mut Work,
    ) -> Computation<'k, 't, K>
        ensures with { keyed_with K.Kernel.forth result ≡ keyed (K.Kernel.forth kernel.now) opc.now constants.now }
        ensures temp { result.temp.now ≡ K.Kernel.forth kernel.now (rand ⊕ opc.now) ⊕ opc.now }
        ensures ran { work.new ≡ (rand ⊕ opc.now) ∷ K.Kernel.forth kernel.now (rand ⊕ opc.now) ∷ [] }
    {
        let x = xor_blocks(rand, *opc);
        *temp = xor_blocks(run(kernel, x, work), *opc);
        Computation {
            kernel,
            opc,
            constants,
            temp,
        }
    }

    // The answer block of a question. Input and output of the kernel run stay in `work`.
    #[tactic(auto, unfolding(crate::specs::Blocks::answer))]
    pub fn ask(&self, question: Question, work: &mut Work) -> [u8; 32]
        ensures answer { result ≡ answer (keyed_with K.Kernel.forth self.now) self.now.temp.now (input_of self.now.constants.now question) }
        ensures ran { work.new ≡ (self.now.temp.now ⊕ input_of self.now.constants.now question) ∷ K.Kernel.forth self.now.kernel.now (self.now.temp.now ⊕ input_of self.now.constants.now question) ∷ [] }
    {
        let x = xor_blocks(*self.temp, question.in_block(self.constants));
        xor_blocks(run(self.kernel, x, work), *self.opc)
    }
}
