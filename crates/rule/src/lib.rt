// The great theorems over document 01's definitions: the statements are in specs/, their proofs in proofs/. The one constant here
// gives the crate a body.

#![tactic(auto)]

// Bytes of a record.
pub const RECORD: usize = 256;
