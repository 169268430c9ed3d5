ghost use Rattle.std.specs.Prelude.{◌≡◌, take};
ghost use Rattle.milenage.specs.Blocks.{temp as temp_of};
ghost use Rattle.milenage.specs.Views.{keyed_with};

use crate::sizes::Admitted;
use kernel::Kernel;
use milenage::Computation;

mod asked;

// The functions of an end at one RAND, of which `rand` is the block filled with zeros.
// The blocks of a kernel run, `work`, are lent to each call and not held here: held, every question would want `&mut self`.
#[derive(Drop)]
pub(crate) struct Functions<'k, 't, K: Kernel> {
    computation: Computation<'k, 't, K>,
    pub(crate) admitted: Admitted,
    pub(crate) rand: [u8; 32],
    ghost at_rand: { computation.temp.now ≡ temp_of (keyed_with K.Kernel.forth computation) (take admitted.sizes.rand rand) },
}
