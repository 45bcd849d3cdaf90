// The line code by its definitions: points, check words, codewords (specs/), and the laws of sums and counts (proofs/).
#![tactic(auto)]
