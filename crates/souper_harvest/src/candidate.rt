// Candidates as text.
use anyhow::anyhow;
use candidates::{Error, candidate_text};
use harvest::Lhs;
use std::io::Write;

/// Prints the text of each candidate, in order.
pub(crate) fn print_candidates(
    rt: &HostRuntime,
    candidates: &[Lhs],
    function: &str,
) -> anyhow::Result<()> {
    let mut out = rt.stdout();
    for lhs in candidates {
        match candidate_text(rt.alloc(), lhs, function.as_bytes()) {
            Ok(text) => out.write_all(text.as_slice())?,
            Err(Error::Memory) => return Err(anyhow!("memory ran out")),
            Err(Error::Refused(refusal)) => return Err(anyhow!("the text is {refusal}")),
        }
    }
    Ok(())
}
