#![tactic(auto)]

// Measures the check of images and the harvest: `bench FILE REPEAT` reads an image, judges it and harvests its graph so many times, one
// candidate after the other and all at once, and prints the mean and the best time of one run. Files are read beforehand, and nothing is
// printed of what was found but how many candidates there are. Without arguments it only tells how it is used, since times
// differ from run to run.
use anyhow::anyhow;
use flow::LaidOut;
use harvest::{Harvest, Place, ROWS, do_souper_harvest};
use image::{Image, check_image};
use souper::Row;
use std::alloc::{AllocError, Global};
use std::time::Instant;
use std::{env, fs};
use tabled::Tabled;
use walk::MARKS;

const USAGE: &str = "usage: bench FILE REPEAT";

fn main(rt: HostRuntime) -> anyhow::Result<()> {
    run(&rt)
}

/// Does what the arguments ask for.
fn run(rt: &HostRuntime) -> anyhow::Result<()> {
    let mut args = env::args(rt)?;
    // the program's own name
    let _ = args.next();
    let Some(path) = args.next() else {
        println!(rt; "{USAGE}")?;
        return Ok(());
    };
    let Some(repeat) = args.next().and_then(|count| count.as_str().parse().ok()) else {
        return Err(anyhow!("{USAGE}"));
    };
    let bytes = match fs::read(rt, path.as_str()) {
        Ok(bytes) => bytes,
        Err(error) => return Err(anyhow!("{path}: {error}")),
    };
    measure_check(rt, bytes.as_slice(), repeat)?;
    match Image::checked(bytes.as_slice()) {
        Ok(image) => {
            measure_each(rt, &image, repeat)?;
            measure_all(rt, &image, repeat)
        }
        Err(refusal) => Err(anyhow!("the image is {refusal}")),
    }
}

/// How long something took, so many times.
#[derive(Clone, Copy, PartialEq, Eq, Debug)]
struct Times {
    total: u128,
    best: u128,
    count: u32,
}

impl Times {
    /// Nothing was measured yet.
    fn new() -> Times {
        Times {
            total: 0,
            best: u128::MAX,
            count: 0,
        }
    }

    /// Once more, in so many nanoseconds.
    fn add(&mut self, nanos: u128) {
        self.total = self.total.saturating_add(nanos);
        self.best = self.best.min(nanos);
        self.count = self.count.saturating_add(1);
    }

    /// Prints the mean and the best.
    fn print(self, rt: &HostRuntime, what: &str) -> anyhow::Result<()> {
        let Times { total, best, count } = self;
        let mean = total.checked_div(u128::from(count)).unwrap_or(0);
        println!(rt; "{what}: mean {mean} ns, best {best} ns, {count} times")?;
        Ok(())
    }
}

/// Judges bytes so many times, and prints how long it took.
fn measure_check(rt: &HostRuntime, bytes: &[u8], repeat: u32) -> anyhow::Result<()> {
    let mut times = Times::new();
    let mut accepted: u32 = 0;
    for _ in 0..repeat {
        let start = Instant::now(rt)?;
        let verdict = check_image(bytes);
        times.add(start.elapsed(rt)?.as_nanos());
        // so that each verdict is needed
        accepted = accepted.saturating_add(u32::from(verdict.is_ok()));
    }
    println!(rt; "{accepted} times accepted")?;
    times.print(rt, "check")
}

/// How many candidates a graph has, asked for one after the other over lent memory, each let go before the next.
fn count_each(
    alloc: Global,
    image: &Image,
    marks: &mut [u8],
    rows: &mut [Row],
) -> Result<u32, AllocError> {
    let tabled = Tabled::of(alloc, image)?;
    let mut harvest = Harvest::at(&tabled, Place { block: 0, index: 0 });
    let mut found = 0;
    for _ in 0..image.num_insts() {
        let Ok(Some(_)) = harvest.next(marks, rows) else {
            break;
        };
        found = u32::saturating_add(found, 1);
    }
    Ok(found)
}

/// Harvests an image so many times, one candidate after the other, and prints how long it took.
fn measure_each(rt: &HostRuntime, image: &Image, repeat: u32) -> anyhow::Result<()> {
    let mut marks = [0; MARKS];
    let mut rows = vec![in rt.alloc(); Row::BLANK; ROWS]?;
    let mut times = Times::new();
    let mut found = 0;
    for _ in 0..repeat {
        let start = Instant::now(rt)?;
        found = count_each(rt.alloc(), image, &mut marks, rows.as_mut_slice())?;
        times.add(start.elapsed(rt)?.as_nanos());
    }
    println!(rt; "{found} candidates")?;
    times.print(rt, "harvest, one by one")
}

/// Harvests an image so many times, all candidates at once, and prints how long it took.
fn measure_all(rt: &HostRuntime, image: &Image, repeat: u32) -> anyhow::Result<()> {
    let mut times = Times::new();
    let mut found = 0;
    for _ in 0..repeat {
        let start = Instant::now(rt)?;
        let candidates = do_souper_harvest(rt.alloc(), image)?;
        times.add(start.elapsed(rt)?.as_nanos());
        found = candidates.len();
    }
    println!(rt; "{found} candidates")?;
    times.print(rt, "harvest, all kept")
}
