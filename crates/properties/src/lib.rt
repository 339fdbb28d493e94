// The properties of a matrix: its branch number, and whether it is an involution.
#![tactic(auto)]

pub mod branch;
pub mod involution;
