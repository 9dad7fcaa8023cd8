// The serial history: its definitions and the theorem of demand 3, in specs/ and proofs/.
#![tactic(auto)]
