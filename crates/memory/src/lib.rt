// The table of process records, lent to every call and turn, for Figure 3's method (crate `unbounded`).
#![tactic(auto)]

pub mod any_table;
pub mod elements;
pub mod table;
