// What a caller lends.
ghost use Rattle.std.specs.Prelude.{◌≡◌, ◌<◌, ◌≤◌, Ok, Err};
ghost use Rattle.ir.specs.Entities.{too_short};

use crate::written::ROWS;
use ir::{Cause, Refusal};
use walk::MARKS;

/// The refusal of what has fewer than the places that are needed.
fn too_short(needed: u32) -> Refusal
    ensures { result ≡ too_short needed }
{
    Refusal {
        cause: Cause::TooShort,
        place: needed,
    }
}

/// Refuses too few marks, and then too few rows.
pub(crate) fn ensure_room(marks: usize, rows: usize) -> Result<(), Refusal>
    ensures short_marks { marks < 1024 → result ≡ Err (too_short 1024) }
    ensures short_rows { 1024 ≤ marks → rows < 2048 → result ≡ Err (too_short 2048) }
    ensures enough { 1024 ≤ marks → 2048 ≤ rows → result ≡ Ok tt }
{
    if marks < MARKS {
        return Err(too_short(MARKS as u32));
    }
    if rows < ROWS {
        return Err(too_short(ROWS as u32));
    }
    Ok(())
}
