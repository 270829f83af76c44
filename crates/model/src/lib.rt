// The theory of the tables: definitions in specs/, laws in proofs/, no code.
#![tactic(auto)]
