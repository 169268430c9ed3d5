ghost use Rattle.std.specs.Prelude.{◌≡◌};
ghost use Rattle.aka.specs.Views.{network_setup, card_setup};
ghost use Rattle.driver.specs.Promises.{Drives};

use super::run::Run;
use super::technician::Technician;
use super::types::Noted;
use aka::{CardEnd, NetworkEnd};
use kernel::Kernel;
use std::alloc::{AllocError, Global};

// Drives a pair: asks the technician at most `turns` times for a call, makes each call that is chosen, and lapses at the end the tickets left over, oldest first.
// The log notes every call, refused or not, with what it was handed, what it answered and the bytes that it wrote.
pub fn drive<T: Technician, K: Kernel, L: Kernel>(
    heap: Global,
    technician: &mut T,
    turns: u64,
    network: &mut NetworkEnd<K>,
    card: &mut CardEnd<L>,
) -> Result<Vec<Noted>, AllocError>
    ensures network { network_setup K.Kernel.forth network.new ≡ network_setup K.Kernel.forth network.old }
    ensures card { card_setup L.Kernel.forth card.new ≡ card_setup L.Kernel.forth card.old }
    ensures drives { Drives K.Kernel.forth L.Kernel.forth network.old card.old T.Technician.chooses turns technician.old result technician.new network.new card.new }
{
    let mut tickets = Vec::new(heap);
    let mut log = Vec::new(heap);
    let mut run = Run {
        heap,
        network,
        card,
        tickets: &mut tickets,
        log: &mut log,
    };
    let done = run.run(technician, turns);
    tickets.destroy_empty();
    done?;
    Ok(log)
}
