ghost use Rattle.std.specs.Prelude.{◌≡◌};
ghost use Rattle.block.specs.Refusals.{Answers};
ghost use Rattle.aka.specs.Opening.{open_ground};
ghost use Rattle.aka.specs.Views.{network_setup, network_of, handed_in, fresh_network};

use super::{Book, NetworkEnd};
use crate::shared::Core;
use crate::sizes::Sizes;
use block::Refusal;
use kernel::Kernel;

impl<K: Kernel + Drop> NetworkEnd<K> {
    // An end that has given no challenge yet.
    pub fn open(
        kernel: K,
        opc: &[u8],
        constants: &[u8],
        sizes: Sizes,
        number: &[u8],
    ) -> Result<NetworkEnd<K>, Refusal>
        ensures { Answers (open_ground opc.now constants.now sizes number.now) result (λ e. (network_setup K.Kernel.forth e ≡ handed_in (K.Kernel.forth kernel) opc.now constants.now sizes) × (network_of e ≡ fresh_network number.now)) }
    {
        let (core, number) = Core::open(kernel, opc, constants, sizes, number)?;
        let book = Book {
            number,
            given: 0,
            pending: None,
            rand: [0; 32],
            xres: [0; 32],
        };
        Ok(NetworkEnd { core, book })
    }
}
