ghost use Rattle.std.specs.Prelude.{◌≡◌, [], length};
ghost use Rattle.block.specs.Bytes.{zeros};
ghost use Rattle.aka.specs.States.{Shows};
ghost use Rattle.aka.specs.Calls.{does_trace};
ghost use Rattle.aka.specs.Told.{told_trace};
ghost use Rattle.aka.specs.Views.{setup_of};

use super::Core;
use block::Refusal;
use kernel::Kernel;

impl<K: Kernel> Core<K> {
    // Writes the six blocks of a computation.
    // What is asked stands argument by argument, as the rules of the call name it: the reason is at `PairEnd::trace`.
    pub fn trace(
        &self,
        index: usize,
        rand: &[u8],
        size: usize,
        carried: &[u8],
        out: &mut [u8],
        scratch: &mut [u8],
    ) -> Result<(), Refusal>
        ensures wiped { scratch.new ≡ zeros (length scratch.old) }
        ensures shows { Shows (does_trace (setup_of K.Kernel.forth self.now) index rand.now size carried.now (length out.old) (length scratch.old)) (told_trace result) out.old out.new [] [] tt }
    {
        milenage::trace(
            &self.kernel,
            &self.opc,
            &self.constants,
            index,
            rand,
            size,
            carried,
            out,
            scratch,
        )
    }
}
