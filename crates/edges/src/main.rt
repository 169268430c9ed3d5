// Edge cases of every call, through exported calls: each number of a refusal, and of two grounds the smaller.
#![tactic(auto)]

mod challenges;
mod ends;
mod functions;
mod opening;
mod receives;
mod report;
mod resyncs;

use report::Report;

fn check(report: &mut Report<'_>) -> anyhow::Result<()> {
    functions::check(report)?;
    opening::check(report)?;
    challenges::check(report)?;
    receives::check(report)?;
    resyncs::check(report)
}

fn main(rt: HostRuntime) -> anyhow::Result<()> {
    let mut report = Report::new(&rt);
    let done = check(&mut report);
    report.close()?;
    done
}
