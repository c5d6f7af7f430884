// Numbers in bytes, and the fields of the records on a sheet.
#![tactic(auto)]

pub mod bytes;
pub mod fields;
