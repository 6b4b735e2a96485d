// Which register the next turn of a task of Figure 3 (crate `unbounded`) reads.
#![tactic(auto)]

pub mod accesses;

// What the access of a turn goes by: the number of processes, the turn's own event number, and where its read stands in its
// double collect.
#[derive(Clone, Copy)]
pub struct Access {
    pub n: usize,
    pub now: u32,
    pub pos: usize,
}
