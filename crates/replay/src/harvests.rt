// The candidates of the images of a folder. Its file `MANIFEST` has a line for each image NAME.img, which begins with NAME and a space.
// NAME.txt has the texts of all its candidates, one behind the other, and NAME.list a line for each: its root, how many rows, counted
// operations and steps it has, and the place behind it.
use crate::due::{Tally, read_in, read_text};
use anyhow::anyhow;
use candidates::{Error, candidate_text, harvest_image};
use harvest::Lhs;
use std::alloc::{AllocError, Global};

/// Why nothing comes of an image, or of a candidate's text.
fn failure(error: Error) -> anyhow::Error {
    match error {
        Error::Memory => anyhow!("memory ran out"),
        Error::Refused(refusal) => anyhow!("{refusal}"),
    }
}

/// The texts of candidates, one behind the other.
fn texts(alloc: Global, candidates: &[Lhs]) -> Result<Vec<u8>, Error> {
    let mut texts = Vec::new(alloc);
    for lhs in candidates {
        let text = candidate_text(alloc, lhs, b"f")?;
        texts.extend_from_slice(text.as_slice())?;
    }
    Ok(texts)
}

/// A line for each of the candidates.
fn list(alloc: Global, candidates: &[Lhs]) -> Result<String, AllocError> {
    let mut list = String::new(alloc);
    for lhs in candidates {
        let root = lhs.root.0;
        let rows = lhs.rows.len();
        let Lhs {
            counted,
            steps,
            next,
            ..
        } = lhs;
        let line = format!(in alloc;
            "root {root} rows {rows} counted {counted} steps {steps} place {} {}\n",
            next.block, next.index
        )?;
        list.push_str(line.as_str())?;
    }
    Ok(list)
}

/// Harvests each image of a folder, and prints how many candidates it has, and what is not as it is due.
pub(crate) fn replay(rt: &HostRuntime, folder: &str, tally: &mut Tally) -> anyhow::Result<()> {
    let path = format!(in rt.alloc(); "{folder}/MANIFEST")?;
    let manifest = read_text(rt, path.as_str())?;
    for line in manifest.as_str().lines() {
        let Some((name, _)) = line.split_once(' ') else {
            return Err(anyhow!("{path}: a line cannot be read: {line}"));
        };
        let bytes = read_in(rt, folder, name, ".img")?;
        let harvested = match harvest_image(rt.alloc(), bytes.as_slice()) {
            Ok(harvested) => harvested,
            Err(error) => return Err(anyhow!("{name}: {}", failure(error))),
        };
        let candidates = harvested.candidates.as_slice();
        let has_texts = texts(rt.alloc(), candidates).map_err(failure)?
            == read_in(rt, folder, name, ".txt")?;
        let has_list = list(rt.alloc(), candidates)?.into_bytes()
            == read_in(rt, folder, name, ".list")?;
        tally.count(has_texts);
        tally.count(has_list);
        let count = candidates.len();
        println!(rt; "{name}: {count} candidates")?;
        if !has_texts {
            println!(rt; "{name}: another text is due")?;
        }
        if !has_list {
            println!(rt; "{name}: another list is due")?;
        }
    }
    Ok(())
}
