// What goes by a task of Figure 3 (crate `unbounded`) alone: which one a call sets, and what a turn makes of it and answers.
#![tactic(auto)]

use snapshot::Value;

pub mod tasks;

// A page that a turn found: its view, of which the first n values count, its instant, and its lender, from 1, or 0 where nobody
// moved.
#[derive(Clone, Copy)]
pub struct Found {
    pub view: [Value; 8],
    pub at: u32,
    pub lender: u32,
}

// What a turn found: a page, if it found one; and how many processes its search for a lender passed.
#[derive(Clone, Copy)]
pub struct Find {
    pub page: Option<Found>,
    pub passed: usize,
}
