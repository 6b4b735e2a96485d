// All records of a lent table, however they are kept (crate `process_records`): looked at, or set to 0.
ghost use Rattle.std.specs.Prelude.{◌≡◌};
ghost use mathlib.Core.List.{map, foldl};
ghost use Rattle.unbounded.specs.Processes.{zero_process};
ghost use Rattle.unbounded_surveys.specs.Surveys.{surveyed_by};
ghost use Rattle.process_records.specs.Forms.{kept};

use process_records::Record;
use table_surveys::Survey;

// What a look at every record finds, from what was found before.
pub fn survey<R: Record>(t: &[R], start: Survey) -> Survey
    ensures { result ≡ foldl surveyed_by start (kept R.form t.now) }
{
    t.iter().fold(start, |s, r| r.looked_at(s))
}

// Every record set to 0.
pub fn clear_all<R: Record>(t: &mut [R])
    ensures { t.new ≡ map (λ r. R.form.fresh zero_process) t.old }
{
    for r in t.iter_mut() {
        r.clear();
    }
}
