// A run of a day file on the bytes that came: each record that lies whole in the input buffer is read, asked of the table, and its
// line laid into the output buffer.
#![tactic(auto)]

pub mod records;
