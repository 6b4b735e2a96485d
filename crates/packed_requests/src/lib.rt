// Any request by numbers on a table of packed records. It is one function, which the library's requests, runs and mending all call: so
// the compiler keeps the step and its reply together.
#![tactic(auto)]

ghost use Rattle.std.specs.Prelude.{◌≡◌};
ghost use Rattle.packed_requests.specs.Requests.{reply_in, table_in, page_in};

use numbers::ReplyNumbers;
use snapshot::{Day, Refusal};

// A request by its kind, a number for C: 1 an opening, 2 an entry call, 3 a page call, 4 a turn; and its reply.
pub fn asked(
    day: Day,
    table: &mut [[u32; 369]],
    kind: u32,
    process: u32,
    word: u32,
    page: &mut [u32],
) -> ReplyNumbers
    ensures value { result ≡ reply_in day table.old kind process word page.old }
    ensures table_after { table.new ≡ table_in day table.old kind process word page.old }
    ensures page_after { page.new ≡ page_in day table.old kind process word page.old }
{
    match numbers::numbered(kind, process, word) {
        Some(x) => ReplyNumbers::from(packed_table::step(day, table, x, page)),
        None => numbers::reply(day, 0, u32::from(Refusal::UnknownKind), 0, 0, 0),
    }
}
