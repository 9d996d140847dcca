// Quarters, payments and numbers worked by hand, held against the definitions that the contracts cite.
#![tactic(auto)]

pub mod by_hand;
