// The runs R1 to R12 of the requirements, proved in one table from their texts (proofs/Table) and in another of the
// code, by its contracts (proofs/CodeTable). No code of its own. In specs/: Texts (the texts of the runs), Answers
// (what another line loses, what an order does). Assumes nothing.
#![tactic(auto)]
