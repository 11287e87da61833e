// Laws of document 01's definitions: everything is in proofs/. The one constant here gives the crate a body.

#![tactic(auto)]

// Bytes of a record.
pub const RECORD: usize = 256;
