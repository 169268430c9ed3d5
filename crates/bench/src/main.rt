// The bench: every published value against what the exported calls make of it.
#![tactic(auto)]

use anyhow::anyhow;
use cases::{function_tests_of, kernel_cases_of};
use published::Tally;
use std::fs;

const KERNEL_CASES: &str = "kernel_cases.txt";

const FUNCTION_TESTS: &str = "milenage256.txt";

// Prints what a part came to. The tally is taken apart, for its own text does not say what was compared.
fn tell(rt: &HostRuntime, name: &str, tally: Tally) -> anyhow::Result<()> {
    let Tally {
        compared,
        differing,
    } = tally;
    println!(rt; "{name}: {compared} values compared, {differing} differ")?;
    Ok(())
}

// Prints what a part came to, and counts it. The handle and the total are handed on and stand in no struct: three
// functions have them, and main reads the total.
fn count(rt: &HostRuntime, name: &str, tally: Tally, total: &mut Tally) -> anyhow::Result<()> {
    total.join(tally);
    tell(rt, name, tally)
}

// Compares the kernel's cases, forth and back.
fn compare_kernel(rt: &HostRuntime, total: &mut Tally) -> anyhow::Result<()> {
    let text = fs::read_to_string(rt, KERNEL_CASES)?;
    for case in &kernel_cases_of(rt.alloc(), &text)? {
        let mut tally = Tally::new();
        case.run(&mut tally)?;
        count(rt, &case.name, tally, total)?;
    }
    Ok(())
}

// Compares the tests of the functions: the blocks of OPc, then each case.
fn compare_functions(rt: &HostRuntime, total: &mut Tally) -> anyhow::Result<()> {
    let text = fs::read_to_string(rt, FUNCTION_TESTS)?;
    for test in &function_tests_of(rt.alloc(), &text)? {
        let opened = test.open()?;
        count(rt, &test.name, test.compare_opc(&opened), total)?;
        for case in &test.cases {
            count(rt, &case.name, case.compare(&opened)?, total)?;
        }
    }
    Ok(())
}

fn main(rt: HostRuntime) -> anyhow::Result<()> {
    let mut total = Tally::new();
    compare_kernel(&rt, &mut total)?;
    compare_functions(&rt, &mut total)?;
    tell(&rt, "total", total)?;
    if total.differing > 0 {
        return Err(anyhow!("a value differs from what is published"));
    }
    Ok(())
}
