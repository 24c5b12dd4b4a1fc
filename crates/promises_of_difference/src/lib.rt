// What holds of the difference of any two dumps. Theorems over the rule book; no code is here.

#![tactic(auto)]
