// Requests: what kind each is, whose it is, and those that a caller makes. A method's functions over its table ask here, so that
// none of them takes a request apart.
#![tactic(auto)]

ghost use Rattle.std.specs.Prelude.{◌-◌, ◌<◌, ◌≡◌};
ghost use Rattle.snapshot.specs.Requests.{number_in};
ghost use Rattle.requests.specs.Requests.{is_opening, is_call};

use snapshot::Request;

// Whether a request opens a day, and whether it is a call.
pub fn is_opening(x: Request) -> bool
    ensures { result ≡ is_opening x }
{
    matches!(x, Request::Open(_))
}

pub fn is_call(x: Request) -> bool
    ensures { result ≡ is_call x }
{
    matches!(x, Request::Update { .. } | Request::Scan(_))
}

// The index, in the table, of the record of a request's process.
pub fn index_in(x: Request) -> usize
    requires { 0 < number_in x }
    ensures { result ≡ number_in x - 1 }
{
    (snapshot::number_in(x) - 1) as usize
}

// The size of the page list that a call lends: it has no words.
pub fn no_words() -> usize
    ensures { result ≡ 0 }
{
    0
}
