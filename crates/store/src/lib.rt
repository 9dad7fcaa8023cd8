// The store: definitions and theorems alone, in specs/ and proofs/.
#![tactic(auto)]
