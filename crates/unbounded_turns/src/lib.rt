// The turns of Figure 3 (crate `unbounded`) on one process record by value: what a call, a read or an answer leaves in it.
// Nothing here knows the table: a caller gives one record and the register that is read.
#![tactic(auto)]

pub mod records;
