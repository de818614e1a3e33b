// How the program is used, the form of a script, and where a script cannot be read.
use ir::{Cause, Opcode};
use script::line_at;
use std::io;
use std::str::from_utf8;

/// The arguments in two lines.
pub(crate) const USAGE: &str = "\
usage: souper_harvest [OPTION].. [FILE | - | --image FILE | --example]..
       souper_harvest --help";

const PURPOSE: &str = "\
Harvests candidates for Souper from data-flow graphs, and prints their texts. The graphs come, in order, from

    FILE                 a script of building calls, run on an empty graph
    -                    the same from standard input, also where nothing else is named
    --image FILE         an image: the records of a graph
    --example            a script that is built in, also run where standard input is empty

The options hold for all graphs:

    --function NAME      the name in the headings, f if none is given: up to 64 printable characters, no backtick
    --pin VALUE=NUMBER   shows an integer variable as a constant, as --pin v0=10; up to 16 times
    --resolve            shows each operand as its original, the end of its aliases
    --graph              prints the answers to calls or the verdict on the image, the pins and the graph before the candidates
    --eval VALUE         prints a value's number and the number on its row, in place of candidates
    --input VALUE=NUMBER what a variable holds for --eval, 0 if nothing is given; a number below zero is read modulo 2^64
";

const FORM: &str = "\
A script has one building call to a line. A line without words, or whose first word begins with #, is skipped.
";

const CALLS: &str = "    make_block
    append_block_param BLOCK TYPE
    append_inst BLOCK OPCODE {ITEM} -> {TYPE}
    clear_results INST
    change_to_alias VALUE VALUE         (the destination, then the source)
    resolve_all_aliases
";

const WORDS: &str = "    BLOCK   block and a number, as block0
    INST    inst and a number, as inst0
    VALUE   v and a number, as v0
    TYPE    i8, i16, i32, i64, other, or the type's number, below 65536
    OPCODE  the name of an opcode, as iadd, or its code, below 256
    ITEM    an operand, which is a VALUE, in any number;
            an immediate, which is a number, perhaps with a - in front, of 64 bits with the sign;
            or a condition: eq ne slt sge sgt sle ult uge ugt ule, or cc and its code, below 256, as cc2

The numbers of blocks, instructions and values lie below 2^32. There is at most one immediate and at most one
condition, 0 and eq where none is written. Items come in any order. The arrow always stands, even where no type
follows. Words are separated by spaces, tabs or carriage returns, and lines by line feeds. Where a line cannot be read,
no call is made.
";

const PRINTED: &str = "\
On standard output come the texts of the candidates, one behind the other: a heading, a row to a line, the row of the root, and an
empty line. On standard error come the calls and pins that were refused, each with the refusal's number, its place and its meaning,
and last how many instructions were looked at and how many candidates came. A refused image, an unreadable script or wrong
arguments end the program.

With --graph each call is printed with its answer: what it made, as block0, v0 or inst0, done where it made nothing, or the refusal.
Of an image the verdict is printed: how many records of each kind it has, or its refusal, whose place is the number of a record, or
of a value with 9. Then come the pins with their answers, and then the graph, block by block, each instruction with its single
result and what defines that, or with a word that it has no single result. Last come all other values: variables, other names for
a value, deleted values, and values that no instruction has as its single result.
";

/// Tells how the program is used.
pub(crate) fn print_help(rt: &impl Print) -> io::Result<()> {
    println!(rt; "{USAGE}\n")?;
    println!(rt; "{PURPOSE}")?;
    println!(rt; "{FORM}")?;
    println!(rt; "{CALLS}")?;
    println!(rt; "{WORDS}")?;
    println!(rt; "{PRINTED}")?;
    print_opcodes(rt)?;
    print_causes(rt)
}

/// Lists the opcodes by their codes.
fn print_opcodes(rt: &impl Print) -> io::Result<()> {
    println!(rt; "The opcodes, by their codes:\n")?;
    for opcode in Opcode::ALL {
        println!(rt; "    {:>2}  {opcode}", u8::from(opcode))?;
    }
    println!(rt; "")
}

/// Lists the refusals by their numbers.
fn print_causes(rt: &impl Print) -> io::Result<()> {
    println!(rt; "The refusals, by their numbers:\n")?;
    for cause in Cause::all() {
        println!(rt; "    {:>2}  {cause}", u8::from(cause))?;
    }
    Ok(())
}

/// Tells which line cannot be read, and how lines look.
pub(crate) fn print_unreadable(rt: &impl Eprint, text: &[u8], number: usize) -> io::Result<()> {
    let line = line_at(text, number);
    match from_utf8(line) {
        Ok(line) => eprintln!(rt; "line {number} cannot be read: {line}")?,
        Err(_) => {
            let bytes = line.escape_ascii();
            eprintln!(rt; "line {number} cannot be read: {bytes}")?
        }
    }
    eprintln!(rt; "A line is empty, or begins with #, or is one of these:\n")?;
    eprintln!(rt; "{CALLS}")?;
    eprintln!(rt; "souper_harvest --help tells more.")
}
