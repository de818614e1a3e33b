// Answers, beside those that are due.
use anyhow::anyhow;
use std::fs;

/// How many answers were those that are due, and how many were not.
#[derive(Clone, Copy, PartialEq, Eq, Debug)]
pub(crate) struct Tally {
    as_due: u32,
    otherwise: u32,
}

impl Tally {
    /// None yet.
    pub(crate) fn new() -> Tally {
        Tally {
            as_due: 0,
            otherwise: 0,
        }
    }

    /// Counts one answer more.
    pub(crate) fn count(&mut self, is_due: bool) {
        let counter = if is_due {
            &mut self.as_due
        } else {
            &mut self.otherwise
        };
        *counter = counter.saturating_add(1);
    }

    /// Prints the counts, and fails unless every answer was the one that is due, and there were any.
    pub(crate) fn finish(self, rt: &HostRuntime) -> anyhow::Result<()> {
        let Tally { as_due, otherwise } = self;
        println!(rt; "{as_due} answers as due, {otherwise} otherwise")?;
        if otherwise != 0 || as_due == 0 {
            return Err(anyhow!("an answer is not the one that is due"));
        }
        Ok(())
    }
}

/// All bytes of a file in a folder.
pub(crate) fn read_in(
    rt: &HostRuntime,
    folder: &str,
    name: &str,
    kind: &str,
) -> anyhow::Result<Vec<u8>> {
    let path = format!(in rt.alloc(); "{folder}/{name}{kind}")?;
    match fs::read(rt, path.as_str()) {
        Ok(bytes) => Ok(bytes),
        Err(error) => Err(anyhow!("{path}: {error}")),
    }
}

/// The text of a file.
pub(crate) fn read_text(rt: &HostRuntime, path: &str) -> anyhow::Result<String> {
    match fs::read_to_string(rt, path) {
        Ok(text) => Ok(text),
        Err(error) => Err(anyhow!("{path}: {error}")),
    }
}
