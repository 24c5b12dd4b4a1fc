// Live resources as rows of words in a lent array, the live ones first: read into structs and found by handle; stored, removed and
// copied. Only this crate and kept_names, which changes their lowest names, see a word's index.
#![tactic(auto)]

pub mod resources;
