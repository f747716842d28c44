// What the contracts of the other crates allow, and what they shut out: proofs/. There is no code here.
#![tactic(auto)]
