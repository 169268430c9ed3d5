// The lab: the kernel against its published cases, a block forth and back through layers, then one case of the functions block by block.
#![tactic(auto)]

mod compared;
mod follower;
mod function_case;
mod kernel_cases;
mod latest;
mod layers;
mod round_keys;
mod sessions;

use std::io;

fn run(rt: &HostRuntime) -> anyhow::Result<()> {
    kernel_cases::check(rt)?;
    round_keys::check(rt)?;
    layers::show(rt)?;
    function_case::show(rt)?;
    let text = io::read_to_string(rt.alloc(), rt.stdin())?;
    sessions::run(rt, &text)
}

fn main(rt: HostRuntime) -> anyhow::Result<()> {
    run(&rt)
}
