// One record of a table of packed records: looked at, for which only what refusal 11 looks at is unpacked, or set to 0.
#![tactic(auto)]

ghost use Rattle.std.specs.Prelude.{◌≡◌};
ghost use Rattle.unbounded.specs.Processes.{zero_process};
ghost use Rattle.unbounded_surveys.specs.Surveys.{surveyed_by};
ghost use Rattle.packed.specs.Packing.{pack_record, unpack_record};

use table_surveys::Survey;
use unbounded_surveys::surveys;

// What is found once a record is looked at too.
pub fn looked_at(s: Survey, w: &[u32; 369]) -> Survey
    ensures { result ≡ surveyed_by s (unpack_record w.now) }
{
    let found = surveys::task_seen(s, packed::task_in(w));
    surveys::register_seen(
        found,
        packed::seq_in(w),
        packed::at_in(w),
        packed::last_in(w),
    )
}

// The record set to 0.
pub fn clear(w: &mut [u32; 369])
    ensures { w.new ≡ pack_record zero_process }
{
    *w = [0; 369];
}
