// Which records are of values and which of instructions, and what other records say by the numbers of their kind.
ghost use Rattle.std.specs.Prelude.{◌≡◌, ◌≤◌, ◌&&◌, [], length, nat_le, is_ok, IfOk, IfErr, OnOk};
ghost use Rattle.records.specs.Kinds.{places_of, value_places, inst_places};

use crate::check::Counts;
use crate::record::{Kind, RECORD_LEN, Record};
use crate::value_record::ValueRecord;
use arrayvec::ArrayVec;
use ir::{Cause, OpcodeConstraints};

/// How many records of a kind an image may have.
const MOST_OF_KIND: usize = 1024;

/// The record numbers of one kind, in order.
type Places = ArrayVec<usize, MOST_OF_KIND>;

/// Puts the record numbers of each kind into its list, unless there are too many. One pass over the records fills both lists,
/// and ends at the first record that its list has no place for: a refusal takes no longer where more records follow.
fn list_places(bytes: &[u8], values: &mut Places, insts: &mut Places) -> Result<(), Cause>
    requires { (values.old.items ≡ []) × (insts.old.items ≡ []) }
    ensures values { OnOk result (values.new.items ≡ places_of Kind.Value bytes.now) }
    ensures insts { OnOk result (insts.new.items ≡ places_of Kind.Inst bytes.now) }
    ensures few { is_ok result ≡ nat_le (length (places_of Kind.Value bytes.now)) 1024 && nat_le (length (places_of Kind.Inst bytes.now)) 1024 }
    ensures refused { IfErr result (λ why. why ≡ Cause.NotRecords) }
{
    for k in 0..bytes.len() / RECORD_LEN {
        match Record::of(bytes, k).kind() {
            Kind::Value => values.try_push(k),
            Kind::Inst => insts.try_push(k),
            Kind::Unknown => Ok(()),
        }
        .map_err(|_| Cause::NotRecords)?;
    }
    Ok(())
}

/// An image with the records of each kind numbered.
#[derive(Debug, Drop)]
pub(crate) struct Numbered<'a> {
    bytes: &'a [u8],
    values: Places,
    insts: Places,
    ghost values_listed: { values.items ≡ value_places bytes.now },
    ghost insts_listed: { insts.items ≡ inst_places bytes.now },
    ghost few_values: { length values.items ≤ 1024 },
    ghost few_insts: { length insts.items ≤ 1024 },
}

impl<'a> Numbered<'a> {
    ghost use Rattle.records.specs.Faults.{is_whole};

    /// The records of an image by their kinds: refused where they are not whole, or too many.
    #[tactic(auto, using(crate::proofs::Clean::too_many), unfolding(crate::specs::Kinds::value_places, crate::specs::Kinds::inst_places))]
    pub(crate) fn of(bytes: &'a [u8]) -> Result<Numbered<'a>, Cause>
        ensures bytes { IfOk result (λ image. image.bytes.now ≡ bytes.now) }
        ensures whole { is_ok result ≡ is_whole bytes.now }
        ensures refused { IfErr result (λ why. why ≡ Cause.NotRecords) }
    {
        if bytes.len() % RECORD_LEN != 0 {
            return Err(Cause::NotRecords);
        }
        let mut values = Places::new();
        let mut insts = Places::new();
        list_places(bytes, &mut values, &mut insts)?;
        Ok(Numbered {
            bytes,
            values,
            insts,
        })
    }
}

impl Numbered<'_> {
    ghost use Rattle.std.specs.Prelude.{slice_get};
    ghost use Rattle.records.specs.Faults.{asked_at, counts_of, live_at, value_at};
    ghost use Rattle.records.specs.Fields.{record_at, record_count};

    /// How many records there are.
    pub(crate) fn num_records(&self) -> usize
        ensures { result ≡ record_count self.now.bytes.now }
    {
        self.bytes.len() / RECORD_LEN
    }

    /// How many records of each kind there are.
    pub(crate) fn counts(&self) -> Counts
        ensures { result ≡ counts_of self.now.bytes.now }
    {
        Counts {
            values: self.values.len() as u32,
            insts: self.insts.len() as u32,
        }
    }

    /// Record `k`.
    pub(crate) fn record(&self, k: usize) -> Record<'_>
        ensures { result.bytes.now ≡ record_at self.now.bytes.now k }
    {
        Record::of(self.bytes, k)
    }

    /// The number of an instruction's record, if there is one.
    pub(crate) fn inst_place(&self, i: u32) -> Option<usize>
        ensures { result ≡ slice_get (inst_places self.now.bytes.now) i }
    {
        self.insts.get(i as usize).copied()
    }

    /// The record of a value, a deleted one where there is none.
    #[tactic(auto, using(crate::proofs::Lookups::read_by))]
    pub(crate) fn value(&self, v: u32) -> ValueRecord
        ensures { result ≡ value_at self.now.bytes.now v }
    {
        self.values.get(v as usize).copied().map_or(
            ValueRecord::Deleted { x: 0 },
            |k| Record::of(self.bytes, k).value(),
        )
    }

    /// Whether a value exists and is not deleted.
    pub(crate) fn is_live(&self, v: u32) -> bool
        ensures { result ≡ live_at self.now.bytes.now v }
    {
        !self.value(v).is_deleted()
    }

    /// What the opcode of an instruction asks, that of an opaque one where there is none.
    #[tactic(auto, using(crate::proofs::Lookups::read_by))]
    pub(crate) fn asked(&self, i: u32) -> Option<OpcodeConstraints>
        ensures { result ≡ asked_at self.now.bytes.now i }
    {
        self.inst_place(i).map_or(
            Some(OpcodeConstraints::Opaque),
            |k| Record::of(self.bytes, k).inst().constraints(),
        )
    }
}
