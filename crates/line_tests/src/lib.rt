//! Values of definitions whose calls the rows run (`proofs/StandardFacts.antt`).
#![tactic(auto)]
