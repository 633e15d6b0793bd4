// The promises: theorems about the definitions and contracts of the crates below.
#![tactic(auto)]
