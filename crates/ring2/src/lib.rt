// Commutative rings of characteristic two: their laws (specs/Ring.antt), what follows from them (proofs/Laws.antt), and a prover of their
// identities (proofs/Solve.antt), so that no identity is expanded by hand. There is no code here: the crates above import the statements.
#![tactic(auto)]
