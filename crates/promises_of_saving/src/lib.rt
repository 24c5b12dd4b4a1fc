// What saving a desk, loading it and moving its file promise: load of save, save of load, moves, refusals and soundness. Theorems over the rule book; no code stands here.

#![tactic(auto)]
