//! Runs the bench examples on the adapter's calls, and prints what came and what should come.
#![tactic(auto)]

ghost use Rattle.std.specs.Prelude.{◌≤◌, length, IfOk};

mod bench;
mod further;
mod play;
mod script;
mod words;
mod worked;

use play::{all_agree, play};
use script::Example;
use words::Report;

fn main(rt: HostRuntime) -> anyhow::Result<()> {
    run(&rt)
}

fn run(rt: &HostRuntime) -> anyhow::Result<()> {
    println!(rt; "The worked examples of the rules:")?;
    let worked = run_all(rt, worked::examples())?;
    println!(rt; "Further examples:")?;
    let further = run_all(rt, further::examples())?;
    let passed = worked + further;
    let all = worked::examples().len() + further::examples().len();
    println!(rt; "{passed} of {all} examples came as they should.")?;
    Ok(())
}

// Runs examples, and answers how many came as they should.
fn run_all(rt: &HostRuntime, examples: &[&Example]) -> anyhow::Result<usize>
    ensures { IfOk result (λ passed. passed ≤ length examples.now) }
{
    let mut passed = 0;
    for &example in examples {
        let checks = play(rt.alloc(), example.script)?;
        let ok = all_agree(checks.as_slice());
        let report = Report {
            example: *example,
            checks: checks.as_slice(),
            ok,
        };
        println!(rt; "{report}")?;
        passed += usize::from(ok);
    }
    Ok(passed)
}
