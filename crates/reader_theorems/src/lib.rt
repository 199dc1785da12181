// Theorems about whole lists of calls; there is no code here.
#![tactic(auto)]
