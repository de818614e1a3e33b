//! The records of an image: 40 bytes each, no header, value records first, then instruction records; fields are
//! little-endian.
//!
//! Start at `specs/Fields.antt` (the format, field by field), `specs/Faults.antt` (what is refused of a record) and
//! `check.rt` (the call that looks at all of them). `specs/RowsOf.antt` says which rows the records stand for.
#![tactic(auto)]

mod check;
mod faults;
pub mod inst_record;
mod laws;
mod numbered;
pub mod record;
pub mod value_record;

pub use check::{Counts, check_records};
pub use inst_record::InstRecord;
pub use laws::records_stand;
pub use record::{Kind, Record};
pub use value_record::ValueRecord;
