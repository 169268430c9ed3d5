ghost use Rattle.rijndael.specs.Schedule.{round_keys};
ghost use Rattle.rijndael.specs.Cipher.{encrypt};
ghost use Rattle.driver.specs.Promises.{RunsOneKey, RunsPair};

use super::pair::drive;
use super::technician::Technician;
use super::types::{Noted, Stopped};
use aka::{CardEnd, NetworkEnd, Sizes};
use kernel::Kernel;
use rijndael::Rijndael;
use std::alloc::Global;

// Opens a network end and a card that are set up alike but for their kernels and numbers, and drives them.
// What the two ends are opened with stands one by one, as in `open` of either: the rules of opening name each with its refusal.
pub fn run_pair<T: Technician, K: Kernel + Drop, L: Kernel + Drop>(
    heap: Global,
    technician: &mut T,
    turns: u64,
    network_kernel: K,
    card_kernel: L,
    opc: &[u8],
    constants: &[u8],
    sizes: Sizes,
    network_number: &[u8],
    card_number: &[u8],
) -> Result<Vec<Noted>, Stopped>
    ensures { RunsPair T.Technician.chooses (K.Kernel.forth network_kernel) (L.Kernel.forth card_kernel) opc.now constants.now sizes network_number.now card_number.now turns technician.old result technician.new }
{
    let mut network = NetworkEnd::open(network_kernel, opc, constants, sizes, network_number)?;
    let mut card = CardEnd::open(card_kernel, opc, constants, sizes, card_number)?;
    Ok(drive(heap, technician, turns, &mut network, &mut card)?)
}

// The same with two Rijndael kernels of one key.
pub fn run_one_key<T: Technician>(
    heap: Global,
    technician: &mut T,
    turns: u64,
    key: &[u8],
    opc: &[u8],
    constants: &[u8],
    sizes: Sizes,
    network_number: &[u8],
    card_number: &[u8],
) -> Result<Vec<Noted>, Stopped>
    ensures { RunsOneKey T.Technician.chooses (encrypt (round_keys key.now)) key.now opc.now constants.now sizes network_number.now card_number.now turns technician.old result technician.new }
{
    let network_kernel = Rijndael::new(key)?;
    let card_kernel = Rijndael::new(key)?;
    run_pair(
        heap,
        technician,
        turns,
        network_kernel,
        card_kernel,
        opc,
        constants,
        sizes,
        network_number,
        card_number,
    )
}
