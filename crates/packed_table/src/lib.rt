// A request on a table of packed records: crate `memory` asks it of records kept in any form.
#![tactic(auto)]

ghost use Rattle.std.specs.Prelude.{◌≡◌};
ghost use Rattle.requests.specs.Requests.{page_after};
ghost use Rattle.memory.specs.Tables.{outcome_of};
ghost use Rattle.packed_table.specs.Tables.{table_after, stepped_in};

use memory::any_table;
use snapshot::{Day, Outcome, Request};

// A request on the table, with a page list that only a turn uses: refused, or done.
#[tactic(auto, using(crate::proofs::Formed::packed_left))]
pub fn step(day: Day, t: &mut [[u32; 369]], x: Request, page: &mut [u32]) -> Outcome
    ensures value { result ≡ outcome_of (stepped_in day t.old x page.old) }
    ensures t_after { t.new ≡ table_after t.old x (stepped_in day t.old x page.old) }
    ensures page_after { page.new ≡ page_after page.old (stepped_in day t.old x page.old) x }
{
    any_table::step(day, t, x, page)
}
