// Theorems on the issuer's half: the statements are in specs/, their proofs in proofs/. The one constant here gives the crate a body.

#![tactic(auto)]

// Bytes of a MAC.
pub const MAC: usize = 32;
