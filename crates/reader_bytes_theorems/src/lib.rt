// Theorems about lists of calls on a reader's bytes; there is no code here.
#![tactic(auto)]
