// Functions for callers in C and Rust, over plain numbers and byte slices.
#![tactic(auto)]

pub mod bench_day;
pub mod bench_ladder;
pub mod plain;
pub mod quarter;
pub mod rewriting;
