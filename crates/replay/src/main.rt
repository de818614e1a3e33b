#![tactic(auto)]

// Replays answers that come from outside, and fails if one is another than the one that is due. Without an argument: the verdicts on the
// images of the folder `judge`, and the candidates and numbers of those of the folder `harvest`. Else one of these for a folder:
// `verdicts FOLDER`, `harvests FOLDER`, `numbers FOLDER`.
mod due;
mod harvests;
mod numbers;
mod verdicts;

use anyhow::anyhow;
use due::Tally;
use std::env;

fn main(rt: HostRuntime) -> anyhow::Result<()> {
    run(&rt)
}

/// Replays what the arguments name.
fn run(rt: &HostRuntime) -> anyhow::Result<()> {
    let mut args = env::args(rt)?;
    // the program's own name
    let _ = args.next();
    let mut tally = Tally::new();
    match (args.next(), args.next()) {
        (None, _) => {
            verdicts::replay(rt, "judge", &mut tally)?;
            harvests::replay(rt, "harvest", &mut tally)?;
            numbers::replay(rt, "harvest", &mut tally)?;
        }
        (Some(kind), Some(folder)) => replay(rt, kind.as_str(), folder.as_str(), &mut tally)?,
        (Some(_), None) => return Err(anyhow!("a folder is wanted")),
    }
    tally.finish(rt)
}

/// Replays the answers of one kind that are due in a folder.
fn replay(rt: &HostRuntime, kind: &str, folder: &str, tally: &mut Tally) -> anyhow::Result<()> {
    match kind {
        "verdicts" => verdicts::replay(rt, folder, tally),
        "harvests" => harvests::replay(rt, folder, tally),
        "numbers" => numbers::replay(rt, folder, tally),
        _ => Err(anyhow!("verdicts, harvests or numbers are wanted")),
    }
}
