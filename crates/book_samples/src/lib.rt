//! Tests of the book: each call's refusals at their edges, the limits, and what the calls leave.
#![tactic(auto)]

#[cfg(test)]
mod tests;
