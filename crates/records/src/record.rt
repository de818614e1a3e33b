ghost use Rattle.std.specs.Prelude.{◌≡◌, ◌+◌, ◌≤◌, slice_range};
ghost use Rattle.records.specs.Fields.{record_at, number, zeros, kind_by, kind_of, value_record, inst_record};

use crate::inst_record::InstRecord;
use crate::value_record::ValueRecord;
use std::ops::Range;

/// How many bytes a record has.
pub(crate) const RECORD_LEN: usize = 40;

/// What stands past the end of an image.
static BLANK: [u8; RECORD_LEN] = [0; RECORD_LEN];

/// What a record is of, by its first byte.
// The third case is what the byte says: the format goes by it, and the check of a record refuses it.
#[derive(Clone, Copy, PartialEq, Eq, Debug)]
pub enum Kind {
    /// 1
    Value,
    /// 2
    Inst,
    /// any other byte
    Unknown,
}

impl From<u8> for Kind {
    ghost from_gives = { λ byte kind. kind ≡ kind_by byte };

    fn from(byte: u8) -> Kind {
        match byte {
            1 => Kind::Value,
            2 => Kind::Inst,
            _ => Kind::Unknown,
        }
    }
}

/// One record of an image.
#[derive(Clone, Copy, PartialEq, Eq, Debug)]
pub struct Record<'a> {
    bytes: &'a [u8; RECORD_LEN],
}

impl<'a> Record<'a> {
    /// Record `k` of an image, a blank one past its end.
    #[tactic(auto, using(crate::proofs::Lookups::pieces), unfolding(crate::specs::Fields::record_at))]
    pub fn of(image: &'a [u8], k: usize) -> Record<'a>
        ensures { result.bytes.now ≡ record_at image.now k }
    {
        let (records, _) = image.as_chunks();
        Record {
            bytes: records.get(k).unwrap_or(&BLANK),
        }
    }
}

impl Record<'_> {
    /// So many bytes from `at` on.
    fn bytes_at<const N: usize>(self, at: usize) -> [u8; N]
        requires { at + N ≤ 40 }
        ensures { result ≡ slice_range self.entry.bytes.now at (at + N) }
    {
        let Record { bytes } = self;
        *bytes[at..at + N].as_array().unwrap()
    }

    /// The number in four bytes.
    #[tactic(auto, using(crate::proofs::Lookups::byte_in), unfolding(crate::specs::Fields::number))]
    fn u32_at(self, at: usize) -> u32
        requires { at + 4 ≤ 40 }
        ensures { result ≡ number self.entry.bytes.now at 4 }
    {
        u32::from_le_bytes(self.bytes_at(at))
    }

    /// Whether the bytes of a range are zero.
    #[tactic(auto, unfolding(crate::specs::Fields::zeros))]
    pub(crate) fn is_zero(self, range: Range<usize>) -> bool
        requires { (range.start ≤ range.end) × (range.end ≤ 40) }
        ensures { result ≡ zeros self.entry.bytes.now range.start range.end }
    {
        let Record { bytes } = self;
        bytes[range].iter().all(|b| *b == 0)
    }

    /// What the record is of.
    #[tactic(auto, unfolding(crate::specs::Fields::kind_of))]
    pub fn kind(self) -> Kind
        ensures { result ≡ kind_of self.entry.bytes.now }
    {
        Kind::from(self.bytes[0])
    }

    // Methods and no `From`: any record can be read as either, and only one that was checked means what is read.
    /// The record read as a value's.
    pub fn value(self) -> ValueRecord
        ensures { result ≡ value_record self.entry.bytes.now }
    {
        let packed = u16::from_le_bytes(self.bytes_at(12));
        ValueRecord::unpack(
            packed / 16_384,
            packed % 16_384,
            self.u32_at(4),
            self.u32_at(8),
        )
    }

    /// The record read as an instruction's.
    pub fn inst(self) -> InstRecord
        ensures { result ≡ inst_record self.entry.bytes.now }
    {
        InstRecord {
            opcode: self.bytes[1],
            cond: self.bytes[2],
            arg_count: self.bytes[3],
            result_count: self.bytes[4],
            imm: i64::from_le_bytes(self.bytes_at(8)),
            args: [self.u32_at(16), self.u32_at(20), self.u32_at(24)],
            results: [self.u32_at(28), self.u32_at(32)],
            block: self.u32_at(36),
        }
    }
}
