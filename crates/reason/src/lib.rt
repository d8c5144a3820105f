// Why an input is not canonical.
#![tactic(auto)]

ghost use Rattle.std.specs.Prelude.{◌≡◌, ◌≤◌, ◌<◌, length};
ghost use Rattle.frame.specs.Spell.{marked};
ghost use Rattle.decode.specs.Read.{command_of};
ghost use Rattle.decode.specs.Answer.{error_number};
ghost use Rattle.decode.specs.Outline.{outline_of};
ghost use Rattle.reason.specs.Reason.{first_of, accepted_reason, reason_of, judged_of, place_of, why_of, code_of};

use answer::Numbered;
use control::Mode;
use decode::{DecodeError, Outline};

// Of an accepted input that there is none, or the first that holds in this order; of any other that it is refused. No Option of four reasons
// in a Result: these six are the numbers that C is given, by `code_of` in the clause `value` of its call.
#[derive(Clone, Copy, Debug, PartialEq, Eq)]
pub enum Reason {
    None,
    Leftover,
    Marks,
    Tail,
    Fixed,
    Refused,
}

// The reason, the decode number, and the place in the input that a refusal is about. Of an accepted input number and place are 0.
#[derive(Clone, Copy)]
pub struct Why {
    pub reason: Reason,
    pub number: u32,
    pub place: usize,
}

// The outline of an input, or why it is refused, and the reason that it leads to.
#[derive(Clone, Copy)]
pub struct Judged {
    pub outline: Result<Outline, DecodeError>,
    pub reason: Reason,
}

impl Reason {
    // No `Numbered`: a reason is none of the refusals, and its codes are a table of their own.
    pub fn code(self) -> u32
        ensures { result ≡ code_of self }
    {
        match self {
            Reason::None => 0,
            Reason::Leftover => 1,
            Reason::Marks => 2,
            Reason::Tail => 3,
            Reason::Fixed => 4,
            Reason::Refused => 5,
        }
    }
}

// Whether the marks of destination and source are those of a command or a response.
fn is_marked(to: bool, from: bool) -> bool
    ensures { result ≡ marked (command_of to from) }
{
    to != from
}

// The first that holds.
fn first_of(leftover: bool, unmarked: bool, tail: bool, fixed: bool) -> Reason
    ensures { result ≡ first_of leftover unmarked tail fixed }
{
    if leftover {
        return Reason::Leftover;
    }
    if unmarked {
        return Reason::Marks;
    }
    if tail {
        return Reason::Tail;
    }
    if fixed {
        return Reason::Fixed;
    }
    Reason::None
}

// An accepted input with this end.
fn accepted_reason(mode: Mode, bytes: &[u8], end: usize) -> Reason
    requires { (13 ≤ end) × (end < length bytes.now) }
    ensures { result ≡ accepted_reason mode bytes.now end }
{
    let span = end + 1;
    let to = group::mark_set(bytes[6]);
    let from = group::mark_set(bytes[13]);
    let content = &bytes[span..];
    first_of(
        span % 7 != 0,
        !is_marked(to, from),
        content_as_written::has_tail(mode, content),
        !content_as_written::is_tidy(mode, content),
    )
}

fn by_outline(mode: Mode, bytes: &[u8], outline: Result<Outline, DecodeError>) -> Reason
    requires { outline ≡ outline_of mode bytes.now }
    ensures { result ≡ reason_of mode bytes.now }
{
    match outline {
        Ok(outline) => accepted_reason(mode, bytes, outline.end),
        Err(_) => Reason::Refused,
    }
}

// The reason alone: the canonical check and the dumper ask for no more.
pub fn reason_of(mode: Mode, bytes: &[u8]) -> Reason
    ensures { result ≡ reason_of mode bytes.now }
{
    by_outline(mode, bytes, decode::outline_of(mode, bytes))
}

// The reason beside the outline, from one look at the octets: for who goes on from both.
pub fn judge(mode: Mode, bytes: &[u8]) -> Judged
    ensures { result ≡ judged_of mode bytes.now }
{
    let outline = decode::outline_of(mode, bytes);
    let reason = by_outline(mode, bytes, outline);
    Judged { outline, reason }
}

// The place that a refusal is about: none of 1, 2 and 10, where a ninth repeater starts of 9, the end of 3 and 4, the control octet of all
// others. The end is searched for once more where it is wanted: a refusal has no outline.
fn place_of(error: DecodeError, bytes: &[u8]) -> usize
    ensures { result ≡ place_of (error_number error) bytes.now }
{
    match error {
        DecodeError::OnlyNullBytes
        | DecodeError::NoEndToAddressField
        | DecodeError::LeadingNullBytes => 0,
        DecodeError::TooManyRepeaters => 70,
        DecodeError::AddressFieldTooShort { .. } | DecodeError::FrameTooShort { .. } => {
            search::find(bytes, 0x01)
        }
        DecodeError::MissingPidField
        | DecodeError::UnrecognisedUFieldType
        | DecodeError::WrongSizeFrmrInfo
        | DecodeError::FrameRejectInLongMode
        | DecodeError::MissingControlOctet => search::find(bytes, 0x01) + 1,
    }
}

// The reason with the decode number and the place.
pub fn why_of(mode: Mode, bytes: &[u8]) -> Why
    ensures { result ≡ why_of mode bytes.now }
{
    let outline = decode::outline_of(mode, bytes);
    let reason = by_outline(mode, bytes, outline);
    match outline {
        Ok(_) => Why {
            reason,
            number: 0,
            place: 0,
        },
        Err(error) => Why {
            reason,
            number: error.number(),
            place: place_of(error, bytes),
        },
    }
}
