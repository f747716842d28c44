// What a caller finds in the tables: specs/. Theorems on the rules of document 01, and on the tables of a call: proofs/. There is no code here.
#![tactic(auto)]
