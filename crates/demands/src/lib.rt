// The demands, of the public functions' own answers and areas. No code of its own: theorems over the definitions that
// the contracts of `restart`, `messages`, `replay` and `lowest` give, for every table area, run area, failure, line and
// order. Read proofs/Demand1, Demand2 and Demand3 as lists, each claim under the sentence that it stands for, Gates
// for which choices are allowed, and Printed for what the report and the program print; the other files say why.
// Assumes nothing.
#![tactic(auto)]
