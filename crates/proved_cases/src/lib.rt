// The proved cases of document 01, as one table under one computed check: specs/Table.antt, and that it holds: proofs/Table.antt.
#![tactic(auto)]
