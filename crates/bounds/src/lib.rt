//! Figures that bound every plan for some demands: the loads of the links by the chosen sides, the cuts, the heaviest of them and the lower bound.
//!
//! The calls here ask for what a book of demands keeps anyway: a ring of 3 to 16 nodes, and at most 1,024 units in all.
#![tactic(auto)]

pub mod cuts;
pub mod loads;
