// Lines of elements of a field, arrays of which the first places count: their XOR counts and their depths.
#![tactic(auto)]

pub mod array;
pub mod count;
pub mod figure;
