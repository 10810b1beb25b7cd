//! Tests of plan files: a sample file written and taken, and every fault at its edges.
#![tactic(auto)]

#[cfg(test)]
mod tests;
