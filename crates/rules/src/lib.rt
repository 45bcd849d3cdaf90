// The rules of a book: which calls are refused, and what the others give and leave (specs/).
#![tactic(auto)]
