// From an input to what is printed of it.
use crate::example::EXAMPLE;
use crate::help::print_unreadable;
use crate::options::{Input, Options};
use crate::report::{print_accepted, print_answers, tell_refused};
use crate::shown::{show, show_behind};
use anyhow::anyhow;
use candidates::{Error, HarvestedCalls, HarvestedImage, harvest_calls, harvest_image};
use script::{ScriptError, read_script};
use std::io::Read;
use std::{fs, io};

/// Reads an input, and prints what was asked for of its graph.
pub(crate) fn run(rt: &HostRuntime, input: &Input, options: &Options) -> anyhow::Result<()> {
    match input {
        Input::Example => run_script(rt, EXAMPLE.as_bytes(), options),
        Input::Script(path) => {
            let text = fs::read(rt, path.as_str())?;
            run_script(rt, text.as_slice(), options)
        }
        Input::Stdin => {
            let text = read_input(rt)?;
            if text.is_empty() {
                return run_script(rt, EXAMPLE.as_bytes(), options);
            }
            run_script(rt, text.as_slice(), options)
        }
        Input::Image(path) => {
            let bytes = fs::read(rt, path.as_str())?;
            run_image(rt, bytes.as_slice(), options)
        }
    }
}

/// All bytes of standard input.
fn read_input(rt: &HostRuntime) -> io::Result<Vec<u8>> {
    let mut text = Vec::new(rt.alloc());
    rt.stdin().read_to_end(&mut text)?;
    Ok(text)
}

/// Reads a script, makes its calls on an empty graph, and shows the graph.
fn run_script(rt: &HostRuntime, text: &[u8], options: &Options) -> anyhow::Result<()> {
    let calls = match read_script(rt.alloc(), text) {
        Ok(calls) => calls,
        Err(ScriptError::Memory) => return Err(anyhow!("memory ran out")),
        Err(ScriptError::Line(number)) => {
            print_unreadable(rt, text, number)?;
            return Err(anyhow!("the script cannot be read"));
        }
    };
    let made = harvest_calls(rt.alloc(), calls.as_slice())?;
    let HarvestedCalls {
        graph,
        answers,
        candidates,
    } = made;
    if options.is_listed {
        print_answers(rt, calls.as_slice(), answers.as_slice())?;
    } else {
        tell_refused(rt, calls.as_slice(), answers.as_slice())?;
    }
    if options.view.is_bare() {
        return show(rt, &graph, candidates.as_slice(), options);
    }
    show_behind(rt, graph, options)
}

/// Judges an image, and shows its graph, if it is accepted.
fn run_image(rt: &HostRuntime, bytes: &[u8], options: &Options) -> anyhow::Result<()> {
    let HarvestedImage { image, candidates } = match harvest_image(rt.alloc(), bytes) {
        Ok(harvested) => harvested,
        Err(Error::Memory) => return Err(anyhow!("memory ran out")),
        Err(Error::Refused(refusal)) => {
            if options.is_listed {
                println!(rt; "{refusal}")?;
            }
            return Err(anyhow!("the image is {refusal}"));
        }
    };
    if options.is_listed {
        print_accepted(rt, &image)?;
    }
    if options.view.is_bare() {
        return show(rt, &image, candidates.as_slice(), options);
    }
    show_behind(rt, image, options)
}
