// What holds of names, tokens, resources and records after any packets. Theorems over the rule book; no code stands here.

#![tactic(auto)]
