// A process record, however it is kept: what the requests on a table ask of each record of it (crate `memory`). Here are the two ways, a
// record as it is (crate `unbounded_own`) and as 369 words (crates `packed_rows` and `packed_turns`). Each unpacks and stores only what it
// needs.
#![tactic(auto)]

ghost use Rattle.std.specs.Prelude.{◌≡◌, not, T};
ghost use Rattle.unbounded.specs.Processes.{zero_process};
ghost use Rattle.unbounded.specs.Registers.{zero_register};
ghost use Rattle.unbounded_accesses.specs.Accesses.{Sound, is_ready};
ghost use Rattle.unbounded_surveys.specs.Surveys.{surveyed_by};
ghost use Rattle.unbounded_finds.specs.Finds.{nothing_found, find_of};
ghost use Rattle.unbounded_turns.specs.Steps.{begun_by, state_by};
ghost use Rattle.process_records.specs.Forms.{Form, plain, packed};
ghost use Rattle.process_records.specs.Turned.{Turned};

use table_surveys::Survey;
use unbounded::{Process, Register, Task};
use unbounded_accesses::Access;
use unbounded_finds::{collects, finds};
use unbounded_own::{begin_own, turn_own};
use unbounded_surveys::surveys;
use unbounded_tasks::Find;
use unbounded_turns::records;

pub trait Record {
    // How it is kept. That what is stored reads back as what the step of the definitions leaves is proved of both ways: `plain_left`
    // (memory/proofs/Plain), `packed_left` and `unpacked_after` (packed_table/proofs).
    ghost form: { Form Self };

    fn task(&self) -> Task
        ensures { result ≡ (form.read self.now).task };

    fn register(&self) -> Register
        ensures { result ≡ (form.read self.now).register };

    // What is found once this record is looked at too.
    fn looked_at(&self, s: Survey) -> Survey
        ensures { result ≡ surveyed_by s (form.read self.now) };

    // Set to 0.
    fn clear(&mut self)
        ensures { self.new ≡ form.fresh zero_process };

    // With task k and nothing collected.
    fn begin(&mut self, a: Access, k: Task)
        requires { Sound a }
        ensures { self.new ≡ form.over self.old (begun_by a k (form.read self.old)) };

    // A reading turn of task k, whose access reads r, and what it finds.
    fn read(&mut self, a: Access, r: Register, k: Task) -> Find
        requires { Turned a k (form.read self.old) × T (not (is_ready k)) }
        ensures value { result ≡ find_of a r (form.read self.old) }
        ensures self_after { self.new ≡ form.over self.old
            (state_by a r (form.read self.old) (find_of a r (form.read self.old)) k) };

    // The writing turn of task k, an update that is ready: it reads no register and finds nothing.
    fn write(&mut self, a: Access, k: Task)
        requires { Turned a k (form.read self.old) × T (is_ready k) }
        ensures { self.new ≡ form.over self.old
            (state_by a zero_register (form.read self.old) (nothing_found 0) k) };
}

impl Record for Process {
    ghost form = { plain };

    fn task(&self) -> Task {
        self.task
    }

    fn register(&self) -> Register {
        self.register
    }

    fn looked_at(&self, s: Survey) -> Survey {
        surveys::surveyed(s, *self)
    }

    fn clear(&mut self) {
        *self = records::zero();
    }

    fn begin(&mut self, a: Access, k: Task) {
        begin_own(self, a, k);
    }

    fn read(&mut self, a: Access, r: Register, _k: Task) -> Find {
        let f = finds::find_page(a, r, self);
        turn_own(self, a, r, f);
        f
    }

    fn write(&mut self, a: Access, _k: Task) {
        turn_own(self, a, collects::no_register(), finds::nothing_found());
    }
}

impl Record for [u32; 369] {
    ghost form = { packed };

    #[tactic(auto, unfolding(packed::specs::Packing::unpack_record))]
    fn task(&self) -> Task {
        packed::task_in(self)
    }

    #[tactic(auto, unfolding(packed::specs::Packing::unpack_record))]
    fn register(&self) -> Register {
        packed::own_in(self)
    }

    fn looked_at(&self, s: Survey) -> Survey {
        packed_rows::looked_at(s, self)
    }

    fn clear(&mut self) {
        packed_rows::clear(self);
    }

    fn begin(&mut self, a: Access, k: Task) {
        packed_turns::begin(self, a, k);
    }

    fn read(&mut self, a: Access, r: Register, k: Task) -> Find {
        packed_turns::read(self, a, r, k)
    }

    #[tactic(auto, unfolding(packed::specs::Packing::unpack_record))]
    fn write(&mut self, a: Access, k: Task) {
        packed_turns::write(self, a, k);
    }
}
