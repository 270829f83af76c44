// The three demands for each kind of table: its published calls as one alphabet, and the theorems about any run of them. No code.
#![tactic(auto)]
