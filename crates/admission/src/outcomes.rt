// The day after a request, and its answer. A refusal leaves the day; an accepted call or turn adds one event, and its caller
// shows that there is room for it.
ghost use Rattle.std.specs.Prelude.{◌<◌, ◌≡◌};
ghost use Rattle.snapshot.specs.declared.Answer.TheVariants.{Called};
ghost use Rattle.admission.specs.Checks.{as_option};
ghost use Rattle.admission.specs.Outcomes.{refused_outcome, accepted_outcome, opened_outcome};

use snapshot::{Answer, Day, Outcome, Refusal};

// The outcome of a request that was refused. It takes any check, since a narrower argument would ask more of callers.
pub fn refused(day: Day, check: Result<(), Refusal>) -> Outcome
    ensures { result ≡ refused_outcome day (as_option check) }
{
    let answer = match check {
        Ok(()) => Answer::Read,
        Err(k) => Answer::Refused(k),
    };
    Outcome { day, answer }
}

// The outcome of an accepted call or turn.
pub fn accepted(day: Day, answer: Answer) -> Outcome
    requires { day.event < 65535 }
    ensures { result ≡ accepted_outcome day answer }
{
    let next = Day {
        event: day.event + 1,
        ..day
    };
    Outcome { day: next, answer }
}

// The outcome of an accepted call.
pub fn called(day: Day) -> Outcome
    requires { day.event < 65535 }
    ensures { result ≡ accepted_outcome day Called }
{
    accepted(day, Answer::Called)
}

// The outcome of an accepted opening for k processes.
pub fn opened(k: u32) -> Outcome
    ensures { result ≡ opened_outcome k }
{
    let day = Day { count: k, event: 0 };
    Outcome {
        day,
        answer: Answer::Opened,
    }
}
