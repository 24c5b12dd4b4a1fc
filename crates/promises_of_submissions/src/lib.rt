// What a submission comes to, by the unsliced rules and by the bytes that it reads; its floats and its clipped rectangle. Theorems over the rule book; no code stands here.

#![tactic(auto)]
