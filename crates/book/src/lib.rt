//! The book of one ring: it keeps the ring's demands, draws a plan for them, writes the plan out, and hands it out node by node.
//!
//! docs/CALLS.md has every call: what it takes, answers, leaves and refuses. Each call's contract is `Does`, in terms of what the crate `booklaw` says
//! that a call answers and leaves. `Book::start` bears the law over all runs (docs/THEOREM.md).
#![tactic(auto)]

pub mod book;
pub mod slips;

pub use booklaw::{Card, Drawing, SlipCounts, StartFault};
