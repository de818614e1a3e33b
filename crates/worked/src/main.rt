#![tactic(auto)]

// Builds the worked graphs, and meets every refusal of every building call and of a pin at its edge. What the calls answer
// is printed, one line for each case, and compared with the file `stdout`.

mod cases;
mod edges;
mod pins;
mod tell;

fn main(rt: HostRuntime) -> anyhow::Result<()> {
    run(&rt)
}

/// Runs all cases, in order.
fn run(rt: &HostRuntime) -> anyhow::Result<()> {
    for (name, script) in cases::CASES {
        tell::run_script(rt, name, script)?;
    }
    edges::blocks(rt)?;
    edges::values(rt)?;
    edges::instructions(rt)?;
    edges::two_results(rt)?;
    edges::marks(rt)?;
    pins::through_alias(rt)?;
    pins::seventeen(rt)
}
