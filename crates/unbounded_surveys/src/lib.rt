// What refusals 11 and 5 go by in a record of Figure 3 (crate `unbounded`): whether it can have arisen, and what it owes.
#![tactic(auto)]

pub mod surveys;
