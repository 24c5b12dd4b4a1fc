// Theorems of the month in numbers (02, wish 13); specs/Main.antt has the seven statements. No code.

#![tactic(auto)]
