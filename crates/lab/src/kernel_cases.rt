use super::compared::Compared;
use cases::{KernelCase, kernel_cases_of};
use published::Tally;
use std::fs;

const CASES: &str = "kernel_cases.txt";

// Runs a case forth and back, and prints both blocks.
fn run_case(rt: &HostRuntime, case: &KernelCase, tally: &mut Tally) -> anyhow::Result<()> {
    println!(rt; "=== {} ===", case.name)?;
    let run = case.run(tally)?;
    println!(rt; "  Y    {}", Compared::from(&run.forth))?;
    println!(rt; "  back {}", Compared::from(&run.back))?;
    Ok(())
}

// Compares the kernel with each published case in both directions.
pub fn check(rt: &HostRuntime) -> anyhow::Result<()> {
    let text = fs::read_to_string(rt, CASES)?;
    let cases = kernel_cases_of(rt.alloc(), &text)?;
    let mut tally = Tally::new();
    for case in &cases {
        run_case(rt, case, &mut tally)?;
    }
    // taken apart, for the tally's own text does not say that blocks were compared
    let Tally {
        compared,
        differing,
    } = tally;
    println!(rt; "kernel cases: {compared} blocks compared, {differing} differ")?;
    Ok(())
}
