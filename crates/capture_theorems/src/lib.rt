// Theorems about the exported functions; there is no code here.
#![tactic(auto)]
