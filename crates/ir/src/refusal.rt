ghost use Rattle.std.specs.Prelude.{◌≡◌, not, nat_lt, [], ◌∷◌, Some};
ghost use Rattle.ir.specs.Codes.{cause_number, cause_meaning, causes};
ghost use Rattle.ir.specs.Entities.{too_few};
ghost use Rattle.ir.specs.Printed.{refusal_text};
ghost use Rattle.ir.specs.Refusals.{answer_unless, because, checked, first};

use std::error::Error;
use std::fmt;

/// Why a call is refused, in the order of the numbers.
#[derive(Clone, Copy, PartialEq, Eq, Debug)]
pub enum Cause {
    /// Nothing live is there.
    NotLive = 1,
    /// An unknown opcode, condition or type.
    Unknown,
    /// A wrong count of operands or results.
    WrongCount,
    /// Widths that do not fit the opcode.
    Widths,
    /// An immediate out of range.
    Immediate,
    /// A table is full.
    TableFull,
    /// The value is attached.
    Attached,
    /// The source resolves to the destination.
    ResolvesToDestination,
    /// A value would use itself.
    Loop,
    /// No integer variable, or pinned already.
    NotPinnable,
    /// No more pins.
    PinsFull,
    /// Not whole records, or too many.
    NotRecords,
    /// The layout of the records is broken.
    BrokenLayout,
    /// What the caller lent is too short; the place is the length needed.
    TooShort,
    /// The value is not an integer.
    NotInteger,
    /// An input does not fit its width.
    InputTooWide,
    /// An operation trapped.
    Trapped,
    /// A row is undefined.
    Undefined,
    /// The name is not fit for printing.
    BadName,
    /// The width check failed; the place is the row.
    WidthCheck,
}

impl Cause {
    const ALL: [Cause; 20] = [
        Cause::NotLive,
        Cause::Unknown,
        Cause::WrongCount,
        Cause::Widths,
        Cause::Immediate,
        Cause::TableFull,
        Cause::Attached,
        Cause::ResolvesToDestination,
        Cause::Loop,
        Cause::NotPinnable,
        Cause::PinsFull,
        Cause::NotRecords,
        Cause::BrokenLayout,
        Cause::TooShort,
        Cause::NotInteger,
        Cause::InputTooWide,
        Cause::Trapped,
        Cause::Undefined,
        Cause::BadName,
        Cause::WidthCheck,
    ];

    /// Every cause, in the order of the numbers.
    pub fn all() -> [Cause; 20]
        ensures { result ≡ causes }
    {
        Cause::ALL
    }

    /// The cause in words.
    pub fn meaning(self) -> &'static str
        ensures { result.now ≡ cause_meaning self }
    {
        match self {
            Cause::NotLive => "nothing live is there",
            Cause::Unknown => "unknown opcode, condition or type",
            Cause::WrongCount => "wrong count of operands or results",
            Cause::Widths => "widths do not fit",
            Cause::Immediate => "immediate out of range",
            Cause::TableFull => "table full",
            Cause::Attached => "the value is attached",
            Cause::ResolvesToDestination => "the source resolves to the destination",
            Cause::Loop => "a value would use itself",
            Cause::NotPinnable => "no integer variable, or pinned already",
            Cause::PinsFull => "no more pins",
            Cause::NotRecords => "not whole records, or too many",
            Cause::BrokenLayout => "record layout broken",
            Cause::TooShort => "lent memory too short",
            Cause::NotInteger => "not an integer",
            Cause::InputTooWide => "input too wide",
            Cause::Trapped => "an operation trapped",
            Cause::Undefined => "a row is undefined",
            Cause::BadName => "name unfit for printing",
            Cause::WidthCheck => "width check failed",
        }
    }
}

/// The number by which a caller knows the cause.
impl From<Cause> for u8 {
    ghost from_gives = { λ cause number. number ≡ cause_number cause };

    fn from(cause: Cause) -> u8 {
        cause as u8
    }
}

/// The cause in words.
impl fmt::Display for Cause {
    ghost output = { λ cause. Some (cause_meaning cause) };

    fn fmt<W: fmt::Write>(&self, f: &mut fmt::Formatter<W>) -> fmt::Result {
        f.write_str(self.meaning())
    }
}

impl Error for Cause {}

/// Why a call was refused, and the place that this speaks of, 0 where it speaks of none.
// A number and not an option: a caller is given both numbers, whatever the cause.
#[derive(Clone, Copy, PartialEq, Eq, Debug)]
pub struct Refusal {
    pub cause: Cause,
    pub place: u32,
}

/// A refusal that speaks of no place.
impl From<Cause> for Refusal {
    ghost from_gives = { λ cause refusal. refusal ≡ because cause };

    fn from(cause: Cause) -> Refusal {
        Refusal { cause, place: 0 }
    }
}

/// Its number, its place and what it means.
impl fmt::Display for Refusal {
    ghost output = { λ refusal. Some (refusal_text refusal) };

    fn fmt<W: fmt::Write>(&self, f: &mut fmt::Formatter<W>) -> fmt::Result {
        let number = u8::from(self.cause);
        write!(f, "refused with {number} at {}: {}", self.place, self.cause)
    }
}

impl Error for Refusal {}

/// One check: passed where something holds, and refused where it does not.
pub fn ensure(holds: bool, cause: Cause) -> Result<(), Cause>
    ensures { result ≡ checked (first ((not holds, cause) ∷ [])) }
{
    if holds { Ok(()) } else { Err(cause) }
}

/// Passed where `len` is no less than what is needed, which the refusal names as far as 32 bits go.
pub fn ensure_length(len: usize, needed: usize) -> Result<(), Refusal>
    ensures { result ≡ answer_unless (first ((nat_lt len needed, too_few needed) ∷ [])) tt }
{
    if len < needed {
        return Err(Refusal {
            cause: Cause::TooShort,
            place: u32::try_from(needed).unwrap_or(u32::MAX),
        });
    }
    Ok(())
}
