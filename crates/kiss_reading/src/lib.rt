// Reading one whole KISS packet. A refusal leaves the output alone, so that there are two passes: one that judges and measures, and one
// that copies.
#![tactic(auto, unfolding(crate::specs::Read::typed, crate::specs::Read::type_escaped, crate::specs::Read::opened, crate::specs::Read::read_packet, crate::specs::Steps::escape_step, crate::specs::Steps::step_from, crate::specs::Steps::stopped_at))]

ghost use Rattle.std.specs.Prelude.{cond, eqb, ◌≡◌, ◌+◌, ◌≤◌, false, Some, Err, length, length as list_length, IsSome, IsOk};
ghost use Rattle.octets.specs.Splice.{splice};
ghost use Rattle.octets.specs.Outcome.{octets_of, measured};
ghost use Rattle.escapes.specs.Escape.{fend, fesc, tfend};
ghost use Rattle.kiss_reading.specs.Answer.{number_of, octets_given, read_of};
ghost use Rattle.kiss_reading.specs.Read.{heard, typed, type_escaped, opened, read_packet, read_into};
ghost use Rattle.kiss_reading.specs.Steps.{taken_by, given_by, data_of, escape_step, step_from, stopped_at, plus};

use answer::Numbered;
use escapes::{FEND, FESC, TFEND, TFESC};
use kiss::LAST_PORT;

// Why a packet is refused.
#[derive(Clone, Copy, Debug, PartialEq, Eq)]
pub enum KissError {
    NoOpening,
    Empty,
    BadEscape,
    NotData,
    PortTooHigh,
    NoClosing,
    NoRoom,
}

impl Numbered for KissError {
    ghost number_of = { number_of };

    fn number(self) -> u32 {
        match self {
            KissError::NoOpening => 51,
            KissError::Empty => 55,
            KissError::BadEscape => 52,
            KissError::NotData => 54,
            KissError::PortTooHigh => 56,
            KissError::NoClosing => 53,
            KissError::NoRoom => 24,
        }
    }
}

// What was read: the port that it came from, and the data's length.
#[derive(Clone, Copy, Debug, PartialEq, Eq)]
pub struct KissRead {
    pub port: u8,
    pub length: usize,
}

// What stands at the start of the data as it is written: so many octets that stand for themselves, or two octets that stand for this one.
#[derive(Clone, Copy)]
enum Step {
    Plain(usize),
    Escaped(u8),
}

impl Step {
    // How many octets of the packet it takes.
    fn taken(self) -> usize
        ensures { result ≡ taken_by self }
    {
        match self {
            Step::Plain(n) => n,
            Step::Escaped(_) => 2,
        }
    }

    // How many octets of data it gives.
    fn given(self) -> usize
        ensures { result ≡ given_by self }
    {
        match self {
            Step::Plain(n) => n,
            Step::Escaped(_) => 1,
        }
    }
}

// The octet that stands behind a DB, for the two that may. Chosen after the test of these, so that the choice takes no branch.
fn restored(second: u8) -> u8
    ensures { result ≡ cond (eqb second tfend) fend fesc }
{
    if second == TFEND { FEND } else { FESC }
}

// Behind a DB, the octet that the two stand for.
fn escape(behind: &[u8]) -> Option<Step>
    ensures { result ≡ escape_step behind.now }
{
    let second = *behind.first()?;
    if !matches!(second, TFEND | TFESC) {
        return None;
    }
    Some(Step::Escaped(restored(second)))
}

// The next step: an escaped octet, or all that stand for themselves. There is none at a C0 or at a bad escape.
fn next_step(rest: &[u8]) -> Option<Step>
    ensures { result ≡ step_from rest.now }
{
    let (first, behind) = rest.split_first()?;
    if *first == FESC {
        return escape(behind);
    }
    // At a C0 no octet stands for itself.
    let run = escapes::plain_len(rest);
    if run == 0 {
        return None;
    }
    Some(Step::Plain(run))
}

// What so much data comes to where no step is left: a C0 closes the packet, if it is the last octet.
fn closing(rest: &[u8], length: usize) -> Result<usize, KissError>
    ensures { result ≡ plus length (measured (stopped_at rest.now)) }
{
    if rest.is_empty() {
        return Err(KissError::NoClosing);
    }
    if rest[0] != FEND {
        return Err(KissError::BadEscape);
    }
    if rest.len() > 1 {
        return Err(KissError::NoClosing);
    }
    Ok(length)
}

// The first pass: judges and measures the octets behind the type octet. It writes nothing.
fn measure(behind: &[u8]) -> Result<usize, KissError>
    ensures { result ≡ measured (heard false behind.now) }
{
    let mut rest = behind;
    let mut length = 0;
    while let Some(step) = next_step(rest) {
        rest = &rest[step.taken()..];
        length += step.given();
    }
    closing(rest, length)
}

// A type octet that stands for itself, and the data behind it.
fn judge_typed(octet: u8, behind: &[u8]) -> Result<KissRead, KissError>
    ensures { result ≡ read_of (typed octet behind.now) }
{
    let command = octet & 0b0000_1111;
    if command != 0 {
        return Err(KissError::NotData);
    }
    let port = octet >> 4;
    if port > LAST_PORT {
        return Err(KissError::PortTooHigh);
    }
    let length = measure(behind)?;
    Ok(KissRead { port, length })
}

// The answer to an escaped type octet, by what stands behind its DB. With the escape removed it is C0, which is port 12, or DB, whose
// command is not 0.
fn escaped_type(behind: &[u8]) -> KissError
    ensures { Err result ≡ type_escaped behind.now }
{
    match behind.first() {
        Some(&TFEND) => KissError::PortTooHigh,
        Some(&TFESC) => KissError::NotData,
        _ => KissError::BadEscape,
    }
}

// What stands behind the opening C0.
fn judge_opened(behind: &[u8]) -> Result<KissRead, KissError>
    ensures { result ≡ read_of (opened behind.now) }
{
    let Some((first, rest)) = behind.split_first() else {
        return Err(KissError::NoClosing);
    };
    match *first {
        FEND => Err(KissError::Empty),
        FESC => Err(escaped_type(rest)),
        octet => judge_typed(octet, rest),
    }
}

// Everything but the room.
fn judge(input: &[u8]) -> Result<KissRead, KissError>
    ensures { result ≡ read_of (read_packet input.now) }
{
    match input.split_first() {
        Some((&FEND, behind)) => judge_opened(behind),
        _ => Err(KissError::NoOpening),
    }
}

// The octets of data that a step gives, written to `to`.
fn put_step(out: &mut [u8], to: usize, rest: &[u8], step: Step)
    requires taken { taken_by step ≤ length rest.now }
    requires room { to + length (data_of step rest.now) ≤ length out.old }
    ensures { out.new ≡ splice out.old to (data_of step rest.now) }
{
    match step {
        Step::Plain(n) => lent_buffer::put(out, to, &rest[..n]),
        Step::Escaped(octet) => out[to] = octet,
    }
}

// The next step where the first pass has found that there is one: the first octet says which, and nothing is judged again.
fn good_step(rest: &[u8]) -> Step
    requires { IsSome (step_from rest.now) }
    ensures { Some result ≡ step_from rest.now }
{
    if rest[0] != FESC {
        return Step::Plain(escapes::plain_len(rest));
    }
    Step::Escaped(restored(rest[1]))
}

// The second pass: the data in the octets behind the type octet, to the start of the output. It ends by the length that the first pass
// measured, so that it need not look for the closing C0.
fn copy(behind: &[u8], out: &mut [u8], length: usize)
    requires good { IsOk (heard false behind.now) }
    requires counted { length ≡ list_length (octets_of (heard false behind.now)) }
    requires room { list_length (octets_of (heard false behind.now)) ≤ list_length out.old }
    ensures { out.new ≡ splice out.old 0 (octets_of (heard false behind.now)) }
{
    let mut rest = behind;
    let mut to = 0;
    while to < length {
        let step = good_step(rest);
        put_step(out, to, rest, step);
        rest = &rest[step.taken()..];
        to += step.given();
    }
}

// Reads one whole packet: its port, and its data to the start of the output. A refusal leaves the output alone.
pub fn read(input: &[u8], out: &mut [u8]) -> Result<KissRead, KissError>
    ensures value { result ≡ read_of (read_into input.now (length out.old)) }
    ensures out_after { out.new ≡ splice out.old 0 (octets_given (read_into input.now (length out.old))) }
{
    let read = judge(input)?;
    if out.len() < read.length {
        return Err(KissError::NoRoom);
    }
    copy(&input[2..], out, read.length);
    Ok(read)
}
