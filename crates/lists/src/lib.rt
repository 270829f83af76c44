// Laws on lists and on numbers as bytes that the other crates share: no functions, only specs/ and proofs/.
#![tactic(auto)]
