use super::compared::Compared;
use anyhow::Context;
use cases::{FunctionCase, Labelled, OpcBlock, Opened, Traced, function_tests_of, output_label};
use milenage::Function;
use published::{Hex, Tally};
use std::fs;

const CASE: &str = "case_4d.txt";

// Prints the blocks on the way from OP to OPc.
fn show_opc(rt: &HostRuntime, opened: &Opened) -> anyhow::Result<()> {
    for block in OpcBlock::ALL {
        println!(rt; "  {:<13} {}", block.label(), Hex(&opened.opc_block(block)))?;
    }
    Ok(())
}

// Prints the blocks of a function, and its output beside what is published.
fn show_function(
    rt: &HostRuntime,
    opened: &Opened,
    case: &FunctionCase,
    function: Function,
    tally: &mut Tally,
) -> anyhow::Result<()> {
    let name = function.name();
    let trace = case.trace(opened, function)?;
    for place in Traced::ALL {
        let label = place.label();
        println!(rt; "  {name:<4} {label:<8} {}", Hex(&trace.block(place)))?;
    }
    let answer = trace.block(Traced::Answer);
    let computed = case.cut(function, &answer)?;
    let published = case
        .output(function)
        .context("a case has the outputs of all eight functions")?;
    let compared = Compared::new(computed, published, tally);
    let label = output_label(function);
    println!(rt; "  {name:<4} {label:<8} {compared}")?;
    Ok(())
}

// Computes a published case of the functions, and prints every block on the way.
pub fn show(rt: &HostRuntime) -> anyhow::Result<()> {
    let text = fs::read_to_string(rt, CASE)?;
    let tests = function_tests_of(rt.alloc(), &text)?;
    let mut tally = Tally::new();
    for test in &tests {
        println!(rt; "=== {} ===", test.name)?;
        let opened = test.open()?;
        show_opc(rt, &opened)?;
        println!(rt; "blocks of OPc: {}", test.compare_opc(&opened))?;
        for case in &test.cases {
            println!(rt; "{}", case.name)?;
            for function in Function::ALL {
                show_function(rt, &opened, case, function, &mut tally)?;
            }
        }
    }
    println!(rt; "outputs: {tally}")?;
    Ok(())
}
