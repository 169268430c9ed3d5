ghost use Rattle.std.specs.Prelude.{◌≡◌};
ghost use Rattle.block.specs.Refusals.{Answers};
ghost use Rattle.aka.specs.Opening.{open_ground};
ghost use Rattle.aka.specs.Views.{card_setup, card_number, handed_in};

use super::CardEnd;
use crate::shared::Core;
use crate::sizes::Sizes;
use block::Refusal;
use kernel::Kernel;

impl<K: Kernel + Drop> CardEnd<K> {
    // An end that holds the number handed in.
    pub fn open(
        kernel: K,
        opc: &[u8],
        constants: &[u8],
        sizes: Sizes,
        number: &[u8],
    ) -> Result<CardEnd<K>, Refusal>
        ensures { Answers (open_ground opc.now constants.now sizes number.now) result (λ e. (card_setup K.Kernel.forth e ≡ handed_in (K.Kernel.forth kernel) opc.now constants.now sizes) × (card_number e ≡ number.now)) }
    {
        let (core, number) = Core::open(kernel, opc, constants, sizes, number)?;
        Ok(CardEnd { core, number })
    }
}
