// Why a record is refused.
ghost use Rattle.std.specs.Prelude.{◌≡◌};
ghost use Rattle.ir.specs.Refusals.{checked, first};
ghost use Rattle.records.specs.Faults.{args_live, behind_inst, inst_checks, inst_shape, is_instruction, names_live, names_record, number_fits, record_fault, results_named, value_checks, value_shape};
ghost use Rattle.records.specs.Fields.{record_at};

use crate::inst_record::InstRecord;
use crate::numbered::Numbered;
use crate::record::{Kind, Record};
use crate::value_record::ValueRecord;
use ir::{Cause, OpcodeConstraints, ensure};

/// A record to be judged, by its number, in its image.
#[derive(Clone, Copy, Debug)]
pub(crate) struct Judged<'a> {
    image: &'a Numbered<'a>,
    number: usize,
}

impl<'a> Judged<'a> {
    /// What stands in the record.
    fn record(self) -> Record<'a>
        ensures { result.bytes.now ≡ record_at self.entry.image.now.bytes.now self.entry.number }
    {
        self.image.record(self.number)
    }
}

impl Judged<'_> {
    /// Whether an instruction record stands before it.
    fn is_behind_inst(self) -> bool
        ensures { result ≡ behind_inst self.entry.image.now.bytes.now self.entry.number }
    {
        self.image
            .inst_place(0)
            .is_some_and(|first| first < self.number)
    }

    /// Whether it is that of the instruction.
    fn is_instruction(self, i: u32) -> bool
        ensures { result ≡ is_instruction self.entry.image.now.bytes.now i self.entry.number }
    {
        self.image.inst_place(i) == Some(self.number)
    }

    /// Whether it stands before the instructions, as a value's record has to, and leaves unused bytes zero.
    fn value_shape(self, value: ValueRecord) -> bool
        ensures { result ≡ value_shape self.entry.image.now.bytes.now self.entry.number value }
    {
        !self.is_behind_inst()
            && self.record().is_zero(1..4)
            && self.record().is_zero(14..40)
            && value.fields_fit()
    }

    /// Refuses it as a value's record.
    fn check_value(self, value: ValueRecord) -> Result<(), Cause>
        ensures { result ≡ checked (first (value_checks self.entry.image.now.bytes.now self.entry.number value)) }
    {
        ensure(self.value_shape(value), Cause::BrokenLayout)?;
        ensure(value.type_known(), Cause::Unknown)?;
        ensure(self.image.number_fits(value), Cause::WrongCount)?;
        ensure(self.image.names_live(value), Cause::NotLive)
    }

    /// Whether a value's record names this one, at a place among its results.
    fn is_named_by(self, place: u32, value: ValueRecord) -> bool
        ensures { result ≡ names_record self.entry.image.now.bytes.now self.entry.number place value }
    {
        match value {
            ValueRecord::Inst { num, inst, .. } => num == place && self.is_instruction(inst),
            _ => false,
        }
    }

    /// Whether each listed result names it and its place.
    fn results_named(self, inst: &InstRecord) -> bool
        ensures { result ≡ results_named self.entry.image.now.bytes.now self.entry.number inst.now }
    {
        inst.results
            .iter()
            .take(usize::from(inst.result_count))
            .zip(0..2)
            .all(|(v, place)| self.is_named_by(place, self.image.value(*v)))
    }

    /// Whether it leaves unused fields zero, its block is below 64 and its results name it.
    fn inst_shape(self, inst: &InstRecord) -> bool
        ensures { result ≡ inst_shape self.entry.image.now.bytes.now self.entry.number inst.now }
    {
        self.record().is_zero(5..8)
            && inst.codes_unused()
            && inst.args_unused()
            && inst.results_unused()
            && inst.block < 64
            && self.results_named(inst)
    }

    /// Refuses it as an instruction's record.
    fn check_inst(self, inst: &InstRecord) -> Result<(), Cause>
        ensures { result ≡ checked (first (inst_checks self.entry.image.now.bytes.now self.entry.number inst.now)) }
    {
        ensure(self.inst_shape(inst), Cause::BrokenLayout)?;
        ensure(inst.codes_known(), Cause::Unknown)?;
        ensure(inst.counts_fit(), Cause::WrongCount)?;
        ensure(self.image.args_live(inst), Cause::NotLive)
    }

    /// Refuses it by its kind.
    #[tactic(auto, unfolding(crate::specs::Faults::record_fault))]
    pub(crate) fn check(self) -> Result<(), Cause>
        ensures { result ≡ checked (record_fault self.entry.image.now.bytes.now self.entry.number) }
    {
        let record = self.record();
        match record.kind() {
            Kind::Value => self.check_value(record.value()),
            Kind::Inst => self.check_inst(&record.inst()),
            Kind::Unknown => Err(Cause::BrokenLayout),
        }
    }
}

impl Numbered<'_> {
    /// A record of the image, to be judged.
    pub(crate) fn judged(&self, number: usize) -> Judged<'_>
        ensures { (result.image.now.bytes.now ≡ self.now.bytes.now) × (result.number ≡ number) }
    {
        Judged {
            image: self,
            number,
        }
    }

    /// Whether a result is number 0, or number 1 of an opaque instruction, and the number of a parameter has 16 bits.
    fn number_fits(&self, value: ValueRecord) -> bool
        ensures { result ≡ number_fits self.now.bytes.now value }
    {
        match value {
            ValueRecord::Inst { num, inst, .. } => num == 0
                || num == 1 && self.asked(inst) == Some(OpcodeConstraints::Opaque),
            ValueRecord::Param { num, .. } => num < 65_536,
            _ => true,
        }
    }

    /// Whether what a value names is there.
    fn names_live(&self, value: ValueRecord) -> bool
        ensures { result ≡ names_live self.now.bytes.now value }
    {
        match value {
            ValueRecord::Inst { inst, .. } => self.inst_place(inst).is_some(),
            ValueRecord::Alias { original, .. } => self.is_live(original),
            ValueRecord::Union { x, y, .. } => self.is_live(x) && self.is_live(y),
            _ => true,
        }
    }

    /// Whether the operands that the count tells are live.
    fn args_live(&self, inst: &InstRecord) -> bool
        ensures { result ≡ args_live self.now.bytes.now inst.now }
    {
        inst.args
            .iter()
            .take(usize::from(inst.arg_count))
            .all(|a| self.is_live(*a))
    }
}
