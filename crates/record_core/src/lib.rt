//! Records: the values of a row, as the bytes of a payload hold them (docs/FORMAT.md, "Records").
#![tactic(auto)]

mod faults;
mod fields;
mod long;
mod reading;
mod spans;
mod taking;
mod values;
mod writing;

pub use faults::RecordFault;
pub use fields::{FieldSlice, Fields};
pub use reading::{a_payload_spells_one_record, read_record};
pub use spans::{RecordSpans, record_spans};
pub use taking::take_record;
pub use values::{Bytes, Value};
pub use writing::{a_record_is_read_back, record_len, record_size, write_record};

#[cfg(test)]
mod tests;
