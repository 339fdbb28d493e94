// Rows over the candidates of a brief. No code: the definitions are in specs/, the theorems in proofs/.
#![tactic(auto)]

// The matrices that are searched for: Hadamard involutions, or circulant matrices.
#[derive(Clone, Copy, Debug, PartialEq, Eq)]
pub enum Family {
    Hadamard,
    Circulant,
}
