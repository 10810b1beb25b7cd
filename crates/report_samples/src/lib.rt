//! What is printed of sample plan files, as tests.
#![tactic(auto)]

#[cfg(test)]
mod tests;
