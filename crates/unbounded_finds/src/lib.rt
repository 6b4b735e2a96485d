// What a turn of Figure 3 finds: the collects of a record compared, and the page that a decision shows, by value and in the page list.
#![tactic(auto)]

pub mod collects;
pub mod finds;
