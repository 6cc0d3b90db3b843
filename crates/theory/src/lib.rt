// The theory of recovery, as pure mathematics, with no code of its own. The definitions are in specs/, to be read in
// this order: Lists (small tools), Events, Epochs, Line, Replay, Order (MANUAL 3 to 5, in its order), Laws (what
// recovery may know of a run), Answers (what can be computed), Refusals (the numbers 8 to 11). What holds is in
// proofs/: read Claims first, then Runs. Assumes nothing.
#![tactic(auto)]
