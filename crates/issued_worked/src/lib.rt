// The worked calls as orders: the theorems of `issued` on stores and calls that the checker has worked through. The one constant here
// gives the crate a body.

#![tactic(auto)]

// Orders worked here.
pub const ORDERS: usize = 7;
