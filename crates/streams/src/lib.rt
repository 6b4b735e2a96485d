// Input and output as a program that is proved to end can use them: an input buffer that is filled up by one read of a file at a time,
// or with the whole of a file, and bytes that are written whole. Which read gives what is the system's; a failure is told among the
// messages, which are a program's standard error.
#![tactic(auto)]

pub mod input;
pub mod output;
pub mod system;
