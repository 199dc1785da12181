// Document 01's marked cases, as theorems only: specs/Rows.antt has the table, proofs/Marked.antt the theorem.
#![tactic(auto)]
