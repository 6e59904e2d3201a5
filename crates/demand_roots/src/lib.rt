// What holds of every file, to the bytes that are printed: specs/Demand3.antt says it, of what specs/Owed.antt has for each kind;
// proofs/Results.antt has the step from a call's outcome to what is told of it, and proofs/Demand3.antt that to the bytes.
#![tactic(auto)]
