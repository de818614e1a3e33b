#![tactic(auto)]

// Makes graphs from scripts of building calls or from images, and prints their candidates, behind the views that were asked for.
mod candidate;
mod example;
mod help;
mod number;
mod options;
mod report;
mod run;
mod shown;

use anyhow::anyhow;

fn main(rt: HostRuntime) -> anyhow::Result<()> {
    run_all(&rt)
}

/// Does what the arguments ask for.
fn run_all(rt: &HostRuntime) -> anyhow::Result<()> {
    let options = options::read_options(rt)?;
    if options.help {
        return Ok(help::print_help(rt)?);
    }
    for input in options.inputs.iter() {
        if let Err(error) = run::run(rt, input, &options) {
            return Err(anyhow!("{input}: {error}"));
        }
    }
    Ok(())
}
