ghost use Rattle.std.specs.Prelude.{◌≡◌, ◌^◌, ◌<◌};
ghost use Rattle.block.specs.Numbers.{bytes_of};
ghost use Rattle.block.specs.Refusals.{Answers};
ghost use Rattle.aka.specs.Opening.{open_ground};
ghost use Rattle.aka.specs.Setup.{SoundSetup};
ghost use Rattle.aka.specs.Views.{setup_of, handed_in};

use super::Core;
use crate::numbers::read_number;
use crate::sizes::Sizes;
use block::Refusal;
use kernel::Kernel;

impl<K: Kernel + Drop> Core<K> {
    // What an end is opened with, and the number that it starts at.
    // The arguments stand one by one, as the rules of opening name them; a struct of them would be made at each call only to be taken apart here.
    pub fn open(
        kernel: K,
        opc: &[u8],
        constants: &[u8],
        sizes: Sizes,
        number: &[u8],
    ) -> Result<(Core<K>, u128), Refusal>
        ensures { Answers (open_ground opc.now constants.now sizes number.now) result (λ p. (setup_of K.Kernel.forth p.0 ≡ handed_in (K.Kernel.forth kernel) opc.now constants.now sizes) × (p.1 < 256 ^ p.0.admitted.sizes.sqn) × (bytes_of sizes.sqn p.1 ≡ number.now)) }
    {
        let opc = <[u8; 32]>::try_from(opc).map_err(|_| Refusal::OperatorField)?;
        let constants = <[u8; 128]>::try_from(constants).map_err(|_| Refusal::Constants)?;
        let admitted = sizes.admit()?;
        if number.len() != sizes.sqn {
            return Err(Refusal::Number);
        }
        let core = Core {
            kernel,
            opc,
            constants,
            admitted,
        };
        Ok((core, read_number(number)))
    }
}

impl<K: Kernel> Core<K> {
    // What an end was opened with is sound.
    pub fn is_sound(&self)
        ensures { SoundSetup (setup_of K.Kernel.forth self.now) }
    {}
}
