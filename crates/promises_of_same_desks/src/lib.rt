// Two devices that are the same desk, in whatever order they keep what they hold, behave the same for ever. Theorems over the rule book; no code stands here.
#![tactic(auto)]
