// Stored scripts: a script is a row of fields, and a field that is no padding holds one record. `field::Reader`
// reads a borrowed script field by field and record by record; a record's value is a part of the script, and
// `records::decode` gives the record with the value itself. Of every script and every byte in it the contracts
// say which record or which fault comes next, at which byte, and where the reader then stands.
// Definitions to believe: specs/Fields.antt, specs/Records.antt, specs/Faults.antt; laws: specs/Readings.antt.
// Proofs: proofs/.
#![tactic(auto)]

pub mod fault;
pub mod field;
pub mod record;
pub mod records;
pub mod theorems;
