// The rules of document 01 as definitions, with their laws: specs/ and proofs/. There is no code here.
#![tactic(auto)]
