//! Sends an order over the line in each of the eight word forms, reads it back, then reads it with one bit
//! of every word flipped, and prints what came of it.
#![tactic(auto)]

mod tally;
mod words;

use std::io::Read;
use std::process::ExitCode;
use tally::{LIMIT, Table, tabulate};
use words::{Heading, Total};

// A run that fails says why in one sentence on standard error, and ends with exit status 1.
fn main(rt: HostRuntime) -> ExitCode {
    match run(&rt) {
        Ok(()) => ExitCode::SUCCESS,
        Err(why) => {
            let _ = eprintln!(rt; "{why}");
            ExitCode::FAILURE
        }
    }
}

// Reads one byte more than an order may have, so that a longer one is noticed.
fn run(rt: &HostRuntime) -> anyhow::Result<()> {
    let mut order = Vec::new(rt.alloc());
    rt.stdin().take(LIMIT as u64 + 1).read_to_end(&mut order)?;
    let table = tabulate(rt.alloc(), order.as_slice())?;
    print(rt, &table)
}

// Line by line, so that a line that was printed stays printed where a later one fails.
fn print(rt: &HostRuntime, table: &Table) -> anyhow::Result<()> {
    rt.println(Heading)?;
    for row in &table.rows {
        rt.println(*row)?;
    }
    rt.println(Total(table.total))?;
    Ok(())
}

#[cfg(test)]
mod tests;
