// A line by halves: the Reed-Muller sums of a run of words (specs/), and that they give the check words (proofs/).
#![tactic(auto)]
