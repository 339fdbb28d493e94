#![tactic(auto)]

// Linear algebra over a field of characteristic 2. No code: the definitions are in specs/, the theorems in proofs/.
