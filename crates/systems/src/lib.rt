// Systems of four linear equations over a field: what solves one, when its columns are independent (specs/), and what row operations keep (proofs/).
#![tactic(auto)]
