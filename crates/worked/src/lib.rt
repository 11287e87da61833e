// Worked stores, computed by the checker: everything is in proofs/. The one constant here gives the crate a body.

#![tactic(auto)]

// Stories told.
pub const STORIES: usize = 4;
