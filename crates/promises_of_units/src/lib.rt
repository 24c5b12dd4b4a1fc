// What every unit and every call keeps and does: fences, memory, resources, ranges. Theorems over the rule book; no code stands here.

#![tactic(auto)]
