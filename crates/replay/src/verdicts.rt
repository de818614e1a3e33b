// The verdicts on the images of a folder. Its file `answers.txt` has a line for each: the image's file name, a space, and
// `ok` or `refused NUMBER PLACE`.
use crate::due::{Tally, read_in, read_text};
use anyhow::anyhow;
use image::check_image;
use ir::Refusal;
use std::alloc::{AllocError, Global};

/// The verdict on an image, as the answers spell it.
fn verdict(alloc: Global, bytes: &[u8]) -> Result<String, AllocError> {
    match check_image(bytes) {
        Ok(_) => String::from_str(alloc, "ok"),
        Err(Refusal { cause, place }) => {
            let number = u8::from(cause);
            format!(in alloc; "refused {number} {place}")
        }
    }
}

/// Judges each image that the answers of a folder name, and prints the verdict, and the one that is due if it is another.
pub(crate) fn replay(rt: &HostRuntime, folder: &str, tally: &mut Tally) -> anyhow::Result<()> {
    let path = format!(in rt.alloc(); "{folder}/answers.txt")?;
    let answers = read_text(rt, path.as_str())?;
    for line in answers.as_str().lines() {
        let Some((name, due)) = line.split_once(' ') else {
            return Err(anyhow!("{path}: a line cannot be read: {line}"));
        };
        let image = read_in(rt, folder, name, "")?;
        let answer = verdict(rt.alloc(), image.as_slice())?;
        let is_due = answer.as_str() == due;
        tally.count(is_due);
        if is_due {
            println!(rt; "{name}: {answer}")?;
        } else {
            println!(rt; "{name}: {answer}, and not {due}")?;
        }
    }
    Ok(())
}
