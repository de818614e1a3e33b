ghost use Rattle.std.specs.Prelude.{◌≡◌, ◌^◌, ◌<◌, ◌≤◌, [], ◌∷◌, length, min};
ghost use Rattle.std.specs.List.{list_all};
ghost use Rattle.ir.specs.Refusals.{answer_unless, first};
ghost use Rattle.text.specs.Buffer.{over};
ghost use Rattle.text.specs.Checks.{is_name, is_name_byte, no_room, over_unless, refusal};
ghost use Rattle.text.specs.Text.{text_of};

use crate::lines::{write_ending, write_heading, write_row};
use ir::{Cause, Refusal, Value, ensure, ensure_length};
use souper::Row;

/// Whether a name may hold the byte: printable ASCII but the backtick, which ends the name.
fn is_name_byte(byte: u8) -> bool
    ensures { result ≡ is_name_byte byte }
{
    (b' '..=b'~').contains(&byte) && byte != b'`'
}

/// Whether a name may hold each of the bytes.
fn are_name_bytes(name: &[u8]) -> bool
    ensures { result ≡ list_all is_name_byte name.now }
{
    name.iter().all(|byte| is_name_byte(*byte))
}

/// Whether a name is fit for a heading: no longer than 64 bytes, each of them one that a name may hold.
pub fn is_name(name: &[u8]) -> bool
    ensures { result ≡ is_name name.now }
{
    name.len() <= 64 && are_name_bytes(name)
}

/// The length of a candidate's text, as far as a `usize` goes.
pub fn text_len(root: Value, name: &[u8], rows: &[Row]) -> usize
    ensures { result ≡ min (length (text_of root name.now rows.now)) 18446744073709551615 }
{
    let mut len = write_heading(&mut [], root, name);
    for (number, row) in rows.iter().enumerate() {
        len = len.saturating_add(write_row(&mut [], number, *row));
    }
    len.saturating_add(write_ending(&mut [], rows))
}

/// Writes a candidate's text at the front of a buffer that has room for it, and answers its length.
fn write_text(text: &mut [u8], root: Value, name: &[u8], rows: &[Row]) -> usize
    requires { length (text_of root name.now rows.now) ≤ length text.old }
    ensures len { result ≡ length (text_of root name.now rows.now) }
    ensures written { text.new ≡ over (text_of root name.now rows.now) text.old }
{
    let mut at = write_heading(text, root, name);
    for (number, row) in rows.iter().enumerate() {
        at += write_row(&mut text[at..], number, *row);
    }
    at + write_ending(&mut text[at..], rows)
}

/// What is checked before anything is written, in this order: that the buffer has room for the text, and that the name is fit.
#[tactic(auto, using(crate::proofs::Checks::no_room_capped), unfolding(crate::specs::Checks::no_room))]
fn check(room: usize, root: Value, name: &[u8], rows: &[Row]) -> Result<(), Refusal>
    requires { room < 2 ^ 63 }
    ensures { result ≡ answer_unless (refusal room root name.now rows.now) tt }
{
    ensure_length(room, text_len(root, name, rows))?;
    ensure(is_name(name), Cause::BadName)?;
    Ok(())
}

/// Writes a candidate's text: a heading with its root and the name of its function, a line for each row, the row of the root,
/// and an empty line. Answers how many bytes that is; what stands behind them in the buffer stays.
///
/// The rows are written as they are, whether or not they make sense. A buffer that is too short is refused first, and then a
/// name that is not fit; a refused call writes nothing.
#[tactic(auto, unfolding(crate::specs::Checks::no_room))]
pub fn write_candidate(
    text: &mut [u8],
    root: Value,
    name: &[u8],
    rows: &[Row],
) -> Result<usize, Refusal>
    ensures answer { result ≡ answer_unless (refusal (length text.old) root name.now rows.now) (length (text_of root name.now rows.now)) }
    ensures written { text.new ≡ over_unless (refusal (length text.old) root name.now rows.now) (text_of root name.now rows.now) text.old }
{
    check(text.len(), root, name, rows)?;
    Ok(write_text(text, root, name, rows))
}
