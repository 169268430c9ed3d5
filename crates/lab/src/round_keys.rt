use super::compared::Compared;
use anyhow::{Context, anyhow};
use block::Refusal;
use published::{Line, Tally, bytes_of};
use rijndael::Rijndael;
use std::fs;

const ROUND_KEYS: &str = "round_keys.txt";

// Compares one round key of the last key, under a label such as rk3, with what is published.
// A key that was refused is told here, behind its label: one that no round key follows stands in nobody's way.
fn compare(
    rt: &HostRuntime,
    kernel: &Result<Rijndael, Refusal>,
    label: &str,
    published: &[u8],
    tally: &mut Tally,
) -> anyhow::Result<()> {
    let n = label
        .strip_prefix("rk")
        .context("a round key has a label such as rk3")?
        .parse::<usize>()?;
    let kernel = kernel
        .as_ref()
        .map_err(|_| anyhow!("a published key was refused"))?;
    let computed = kernel.round_key(n).context("there are fifteen round keys")?;
    let compared = Compared::new(&computed, published, tally);
    println!(rt; "  {label:<5}{compared}")?;
    Ok(())
}

// Compares the published round keys of one key. The lines are read here and not as sections of the crate of cases, which
// begin at a heading: a key and its round keys are one list without any.
pub fn check(rt: &HostRuntime) -> anyhow::Result<()> {
    println!(rt; "=== round keys of TEST #1 ===")?;
    let heap = rt.alloc();
    let text = fs::read_to_string(rt, ROUND_KEYS)?;
    // before the first key: refused, as a key of no bytes
    let mut kernel = Rijndael::new(&[]);
    let mut tally = Tally::new();
    for line in text.lines() {
        if let Line::Value(label, hex) = Line::from(line) {
            let bytes = bytes_of(heap, hex)?;
            if label == "KEY" {
                kernel = Rijndael::new(&bytes);
            } else {
                compare(rt, &kernel, label, &bytes, &mut tally)?;
            }
        }
    }
    println!(rt; "round keys: {tally}")?;
    Ok(())
}
