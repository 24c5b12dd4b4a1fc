// What packets do to targets, shared textures and tokens, and what a host sees of tokens over all calls. Theorems over the rule book; no code stands here.
#![tactic(auto)]
