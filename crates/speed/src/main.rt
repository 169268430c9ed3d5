// Times the kernel and the ends, as many times as the first argument says: forth in a chain, back in a chain,
// challenges, and the receives that accept them.
// The blocks go to standard output, what the ends made and the times to standard error.
#![tactic(auto)]

mod ends;

use ends::{BATCH, Pair};
use kernel::Kernel;
use published::Hex;
use rijndael::Rijndael;
use std::env;
use std::time::Instant;

pub const KEY: [u8; 32] = [1; 32];

// A block after as many steps as wanted.
fn chain<F: Fn([u8; 32]) -> [u8; 32]>(times: u32, start: [u8; 32], step: F) -> [u8; 32]
    requires { F.IsAlwaysCallable step }
{
    (0..times).fold(start, |x, _| step(x))
}

// What a task makes, and the nanoseconds that it takes.
fn timed<T: Drop, F: FnOnce() -> T>(rt: &HostRuntime, task: F) -> anyhow::Result<(T, u128)>
    requires { F.IsAlwaysCallable task }
{
    let begun = Instant::now(rt)?;
    let made = task();
    let time = begun.elapsed(rt)?;
    Ok((made, time.as_nanos()))
}

fn time_kernel(rt: &HostRuntime, times: u32) -> anyhow::Result<()> {
    let kernel = Rijndael::new(&KEY)?;
    let (y, forth) = timed(rt, || chain(times, KEY, |x| kernel.encrypt(x)))?;
    let (x, back) = timed(rt, || chain(times, y, |x| kernel.decrypt(x)))?;
    println!(rt; "forth {times} times: {}", Hex(&y))?;
    println!(rt; "back {times} times:  {}", Hex(&x))?;
    eprintln!(rt; "forth {forth} ns, back {back} ns, {times} blocks each")?;
    Ok(())
}

// Times batches of challenges, and the receives of each batch.
fn time_ends(rt: &HostRuntime, times: u32) -> anyhow::Result<()> {
    let mut pair = Pair::open()?;
    let batches = times / BATCH as u32 + 1;
    let mut challenges = 0u128;
    let mut receives = 0u128;
    for _ in 0..batches {
        let (given, time) = timed(rt, || pair.give())?;
        given?;
        challenges = challenges.saturating_add(time);
        let (taken, time) = timed(rt, || pair.take())?;
        taken?;
        receives = receives.saturating_add(time);
    }
    let calls = batches.saturating_mul(BATCH as u32);
    eprintln!(rt; "vector after {calls}: {}", Hex(&pair.last_vector()))?;
    eprintln!(rt; "answer after {calls}: {}", Hex(&pair.answer))?;
    eprintln!(rt; "challenge {challenges} ns, receive {receives} ns, {calls} calls each")?;
    Ok(())
}

fn main(rt: HostRuntime) -> anyhow::Result<()> {
    let times = match env::args(&rt)?.nth(1) {
        Some(word) => word.as_str().parse::<u32>()?,
        None => 1_000_000,
    };
    time_kernel(&rt, times)?;
    time_ends(&rt, times)
}
