// The static library for Rust and C: each entry of the crate `rlnc`, with its clauses, exported under its name.
// Kept for the C interface: each entry stands here again, since only an `extern "C"` function is exported. Kinds and answers are numbers, and
// whether there is a byte is a bool, as in `rlnc`.
#![tactic(auto)]

mod counts;
mod decode;
mod encode;
mod helpers;
mod pieces;
mod recode;
mod store;
