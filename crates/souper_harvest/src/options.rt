// What the program is asked to do.
use crate::help::USAGE;
use anyhow::anyhow;
use ir::{Cause, Refusal, Value};
use script::{read_pin, read_value};
use std::alloc::{AllocError, Global};
use std::{env, fmt};
use text::is_name;

/// Where a graph comes from.
#[derive(Debug, Drop)]
pub(crate) enum Input {
    /// A script on standard input.
    Stdin,
    /// A script in a file.
    Script(String),
    /// An image in a file.
    Image(String),
    /// The script that is built in.
    Example,
}

/// As an error names it.
impl fmt::Display for Input {
    fn fmt<W: fmt::Write>(&self, f: &mut fmt::Formatter<W>) -> fmt::Result {
        match self {
            Input::Stdin => f.write_str("standard input"),
            Input::Script(path) | Input::Image(path) => f.write_str(path.as_str()),
            Input::Example => f.write_str("the example"),
        }
    }
}

/// How graphs are shown: with these values as these constants, and with operands as they are or as their originals.
#[derive(Debug, Drop)]
pub(crate) struct View {
    pub(crate) pins: Vec<(Value, i64)>,
    pub(crate) is_resolved: bool,
}

impl View {
    /// Whether graphs are shown as they are.
    pub(crate) fn is_bare(&self) -> bool {
        self.pins.is_empty() && !self.is_resolved
    }
}

/// What the arguments ask for.
#[derive(Debug, Drop)]
pub(crate) struct Options {
    /// To tell how the program is used, and nothing else.
    pub(crate) help: bool,
    /// The graphs, in order.
    pub(crate) inputs: Vec<Input>,
    pub(crate) view: View,
    /// To print the answers to calls or the verdict on an image, and the graph, before the candidates.
    pub(crate) is_listed: bool,
    /// The name of the function in the candidates' headings.
    pub(crate) function: String,
    /// The value whose number is printed in place of candidates.
    pub(crate) evaluated: Option<Value>,
    /// What variables hold where a number is asked for.
    pub(crate) inputs_given: Vec<(Value, u64)>,
}

impl Options {
    /// Nothing is asked for.
    fn new(alloc: Global) -> Result<Options, AllocError> {
        Ok(Options {
            help: false,
            inputs: Vec::new(alloc),
            view: View {
                pins: Vec::new(alloc),
                is_resolved: false,
            },
            is_listed: false,
            function: String::from_str(alloc, "f")?,
            evaluated: None,
            inputs_given: Vec::new(alloc),
        })
    }
}

/// An option whose argument comes next.
#[derive(Clone, Copy, PartialEq, Eq, Debug)]
enum Waiting {
    Function,
    Image,
    Pin,
    Eval,
    Input,
}

impl Options {
    /// Takes a word that no option waits for, and answers the option that waits for the next.
    fn take_word(&mut self, rt: &HostRuntime, word: String) -> anyhow::Result<Option<Waiting>> {
        match word.as_str() {
            "--help" => self.help = true,
            "--graph" => self.is_listed = true,
            "--resolve" => self.view.is_resolved = true,
            "--example" => self.inputs.push(Input::Example)?,
            "-" => self.inputs.push(Input::Stdin)?,
            text if text.starts_with("--") => return option_of(rt, text).map(Some),
            text if text.starts_with("-") => return Err(misused(rt, text)?),
            _ => self.inputs.push(Input::Script(word))?,
        }
        Ok(None)
    }

    /// Takes the argument of an option.
    fn take_argument(
        &mut self,
        rt: &HostRuntime,
        option: Waiting,
        word: String,
    ) -> anyhow::Result<()> {
        match option {
            Waiting::Function => self.function = fit(word)?,
            Waiting::Image => self.inputs.push(Input::Image(word))?,
            Waiting::Pin => self.view.pins.push(pin(rt, word.as_str())?)?,
            Waiting::Eval => self.evaluated = Some(value(rt, word.as_str())?),
            Waiting::Input => {
                // a number below zero is read modulo 2^64
                let (value, number) = pin(rt, word.as_str())?;
                self.inputs_given.push((value, number.cast_unsigned()))?;
            }
        }
        Ok(())
    }
}

/// The option that is spelled so and takes an argument.
fn option_of(rt: &HostRuntime, text: &str) -> anyhow::Result<Waiting> {
    match text {
        "--function" => Ok(Waiting::Function),
        "--image" => Ok(Waiting::Image),
        "--pin" => Ok(Waiting::Pin),
        "--eval" => Ok(Waiting::Eval),
        "--input" => Ok(Waiting::Input),
        _ => Err(misused(rt, text)?),
    }
}

/// A name that is fit for headings.
fn fit(name: String) -> anyhow::Result<String> {
    if !is_name(name.as_bytes()) {
        let refusal = Refusal::from(Cause::BadName);
        return Err(anyhow!("the name of the function is {refusal}"));
    }
    Ok(name)
}

/// What the arguments ask for: a script on standard input, where they name none.
pub(crate) fn read_options(rt: &HostRuntime) -> anyhow::Result<Options> {
    let mut args = env::args(rt)?;
    // the program's own name
    let _ = args.next();
    let mut options = Options::new(rt.alloc())?;
    let mut waiting = None;
    for word in args {
        waiting = match waiting {
            None => options.take_word(rt, word)?,
            Some(option) => {
                options.take_argument(rt, option, word)?;
                None
            }
        };
    }
    if waiting.is_some() {
        return Err(misused(rt, "the last option wants an argument")?);
    }
    if options.inputs.is_empty() {
        options.inputs.push(Input::Stdin)?;
    }
    Ok(options)
}

/// A value and a number, as `v0=10`.
fn pin(rt: &HostRuntime, word: &str) -> anyhow::Result<(Value, i64)> {
    match read_pin(word.as_bytes()) {
        Some(pin) => Ok(pin),
        None => Err(misused(rt, word)?),
    }
}

/// A value, as `v0`.
fn value(rt: &HostRuntime, word: &str) -> anyhow::Result<Value> {
    match read_value(word.as_bytes()) {
        Some(value) => Ok(value),
        None => Err(misused(rt, word)?),
    }
}

/// Says how the program is used, and what to end with, which names the word that is wrong.
fn misused(rt: &HostRuntime, word: &str) -> anyhow::Result<anyhow::Error> {
    eprintln!(rt; "{USAGE}")?;
    Ok(anyhow!("wrong arguments: {word}"))
}
