// Stores and calls that meet every premise of crate `rule`'s theorems, computed by the checker: everything is in proofs/. The one
// constant here gives the crate a body.

#![tactic(auto)]

// Stores told.
pub const STORES: usize = 3;
