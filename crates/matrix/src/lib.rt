// Square blocks of matrices over the field of a polynomial. A matrix or a block is an array of arrays, of which the first lines and columns count.
#![tactic(auto)]

pub mod block;
