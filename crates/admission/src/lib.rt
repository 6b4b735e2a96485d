// What becomes of a request on a day, for every method that keeps one record a process: its refusals and its outcome. A method
// looks at its own records and hands over what it found, a `Survey` (crate `table_surveys`); no function here sees a record.
#![tactic(auto)]

pub mod checks;
pub mod outcomes;
