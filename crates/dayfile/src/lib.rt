// The reader of day files: one record by the house layout, or the refusal that document 01's order asks for.
#![tactic(auto)]

ghost use Rattle.std.specs.Prelude.{◌≡◌, ◌+◌, ◌<◌, ◌≤◌, length, MatchOption};
ghost use Rattle.dayfile.specs.Layout.{number_at, length_of};
ghost use Rattle.dayfile.specs.Reader.{record_of, reading};
ghost use Rattle.dayfile.specs.Pieces.{span_of};

use snapshot::{Refusal, Request};

// What the reader finds: a record, which is a request, and how many bytes it takes, the ordinary end, or a refusal. An enum of
// its own, no `Result` of an `Option`: document 01 has the runner take the reader's enum apart, and the contract of `read` speaks of it.
#[derive(Clone, Copy)]
pub enum Reading {
    Found { record: Request, next: usize },
    End,
    Refused(Refusal),
}

// The 16 bits at a place, little-endian.
fn field(bytes: &[u8], at: usize) -> u16
    requires { at + 1 < length bytes.now }
    ensures { result ≡ number_at 2 bytes.now at }
{
    u16::from_le_bytes([bytes[at], bytes[at + 1]])
}

// The length of a kind's records, if there is such a kind. The kind stays a number, as the file has it: an enum of kinds would be
// `Request` again, with nothing in it.
fn length_of(kind: u16) -> Option<usize>
    ensures { MatchOption result (length_of kind ≡ 0) (λ n. (n ≡ length_of kind) × (0 < n)) }
{
    match kind {
        1 => Some(4),
        2 => Some(8),
        3 => Some(4),
        4 => Some(4),
        _ => None,
    }
}

// The record of a known kind whose bytes are all there.
fn record_of(bytes: &[u8], kind: u16) -> Request
    requires { (6 ≤ length bytes.now) × (2 + length_of kind ≤ length bytes.now) }
    ensures { result ≡ record_of bytes.now kind }
{
    let first = u32::from(field(bytes, 4));
    match kind {
        1 => Request::Open(first),
        2 => Request::Update {
            process: first,
            word: u32::from_le_bytes([bytes[6], bytes[7], bytes[8], bytes[9]]),
        },
        3 => Request::Scan(first),
        _ => Request::Turn(first),
    }
}

// What stands at the start of the lent part of a file.
pub fn read(bytes: &[u8]) -> Reading
    ensures { result ≡ reading bytes.now }
{
    let left = bytes.len();
    if left == 0 {
        return Reading::End;
    }
    if left == 1 {
        return Reading::Refused(Refusal::CutShort);
    }
    let length = usize::from(field(bytes, 0));
    if length < 4 || 8 < length {
        return Reading::Refused(Refusal::WrongLength);
    }
    if left < 2 + length {
        return Reading::Refused(Refusal::CutShort);
    }
    let kind = field(bytes, 2);
    let Some(due) = length_of(kind) else {
        return Reading::Refused(Refusal::UnknownKind);
    };
    if length != due {
        return Reading::Refused(Refusal::WrongLength);
    }
    Reading::Found {
        record: record_of(bytes, kind),
        next: 2 + length,
    }
}

// How many bytes are passed over where the reader refuses: all of them after 7, else the two length bytes and as many as they say.
fn refused_span(bytes: &[u8], k: Refusal) -> usize
    ensures { result ≡ span_of bytes.now (Reading.Refused k) }
{
    let left = bytes.len();
    if k == Refusal::CutShort || left < 2 {
        return left;
    }
    (2 + usize::from(field(bytes, 0))).min(left)
}

// How many of the bytes belong to what was read at their start.
pub fn span(bytes: &[u8], x: Reading) -> usize
    ensures { result ≡ span_of bytes.now x }
{
    match x {
        Reading::Found { record: _, next } => next,
        Reading::End => 0,
        Reading::Refused(k) => refused_span(bytes, k),
    }
}
