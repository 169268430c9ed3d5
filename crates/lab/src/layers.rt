use anyhow::anyhow;
use block::{Refusal, xor_blocks};
use kernel::{Chained, Kernel, Whitened, there_and_back};
use published::Hex;
use rijndael::Rijndael;

const FIRST_KEY: [u8; 32] = [0x11; 32];

const SECOND_KEY: [u8; 32] = [0x22; 32];

const MASK_A: [u8; 32] = [0xa5; 32];

const MASK_B: [u8; 32] = [0x5a; 32];

const BLOCK: [u8; 32] = *b"one block through all the layers";

// What was made, or why it was refused, printed before the program fails with a message.
fn made<T: Drop>(
    rt: &HostRuntime,
    outcome: Result<T, Refusal>,
    message: &str,
) -> anyhow::Result<T> {
    if let Err(e) = &outcome {
        println!(rt; "  refused {e}")?;
    }
    outcome.map_err(|_| anyhow!("{message}"))
}

fn step(rt: &HostRuntime, label: &str, block: [u8; 32]) -> anyhow::Result<()> {
    println!(rt; "  {label:<22} {}", Hex(&block))?;
    Ok(())
}

// Forth, layer by layer.
fn show_forth(rt: &HostRuntime, first: &Rijndael, second: &Rijndael) -> anyhow::Result<[u8; 32]> {
    step(rt, "block x", BLOCK)?;
    let masked = xor_blocks(BLOCK, MASK_A);
    step(rt, "x ^ mask a", masked)?;
    let one = first.encrypt(masked);
    step(rt, "forth of the first", one)?;
    let two = second.encrypt(one);
    step(rt, "forth of the second", two)?;
    let y = xor_blocks(two, MASK_B);
    step(rt, "^ mask b", y)?;
    Ok(y)
}

// Back, layer by layer.
fn show_back(
    rt: &HostRuntime,
    first: &Rijndael,
    second: &Rijndael,
    y: [u8; 32],
) -> anyhow::Result<()> {
    let two = xor_blocks(y, MASK_B);
    step(rt, "y ^ mask b", two)?;
    let one = second.decrypt(two);
    step(rt, "back of the second", one)?;
    let masked = first.decrypt(one);
    step(rt, "back of the first", masked)?;
    step(rt, "^ mask a", xor_blocks(masked, MASK_A))
}

// The same block through the layers as one kernel.
fn show_whole<K: Kernel>(rt: &HostRuntime, kernel: &K) -> anyhow::Result<()> {
    let y = kernel.encrypt(BLOCK);
    step(rt, "forth of the layers", y)?;
    step(rt, "back of that", kernel.decrypt(y))?;
    step(rt, "there and back", there_and_back(kernel, BLOCK))
}

// One block through a whitened kernel over a chain of two Rijndael kernels.
pub fn show(rt: &HostRuntime) -> anyhow::Result<()> {
    println!(rt; "=== a whitened kernel over a chain of two Rijndael kernels ===")?;
    step(rt, "first key", FIRST_KEY)?;
    step(rt, "second key", SECOND_KEY)?;
    step(rt, "mask a", MASK_A)?;
    step(rt, "mask b", MASK_B)?;
    let first = made(rt, Rijndael::new(&FIRST_KEY), "a key was refused")?;
    let second = made(rt, Rijndael::new(&SECOND_KEY), "a key was refused")?;
    let y = show_forth(rt, &first, &second)?;
    show_back(rt, &first, &second, y)?;
    let layers = Whitened::new(Chained::new(first, second), &MASK_A, &MASK_B);
    show_whole(rt, &made(rt, layers, "the masks were refused")?)
}
