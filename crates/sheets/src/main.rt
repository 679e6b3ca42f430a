// Runs the sheets that the arguments name, one after the other, and writes their answers to standard output.
#![tactic(auto)]

use std::io::Write;
use std::{env, fs};

// Runs the sheet in a file.
fn run_file(rt: &HostRuntime, name: &str) -> anyhow::Result<()> {
    let input = fs::read(rt, name)?;
    let answers = pair_sheet::run::run(rt.alloc(), &input)?;
    rt.stdout().write_all(&answers)?;
    Ok(())
}

fn main(rt: HostRuntime) -> anyhow::Result<()> {
    for name in env::args(&rt)?.skip(1) {
        run_file(&rt, name.as_str())?;
    }
    Ok(())
}
