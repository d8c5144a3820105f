// KISS packets, which a modem's line carries: writing one whole packet. A refusal leaves the output alone, so that there are two passes:
// one that measures, and one that copies.
#![tactic(auto)]

ghost use Rattle.std.specs.Prelude.{◌≡◌, [], ◌∷◌, ◌+◌, ◌≤◌, leb, length, drop};
ghost use Rattle.octets.specs.Splice.{splice};
ghost use Rattle.octets.specs.Outcome.{measured};
ghost use Rattle.escapes.specs.Escape.{fesc, escaped};
ghost use Rattle.kiss.specs.Steps.{next_count, next_octets};
ghost use Rattle.kiss.specs.Write.{number_of, written, octets_written};

use answer::Numbered;
use escapes::{FEND, FESC, TFEND, TFESC};

// The highest port.
pub const LAST_PORT: u8 = 11;

// Why a packet is not written.
#[derive(Clone, Copy, Debug, PartialEq, Eq)]
pub enum KissWriteError {
    PortTooHigh,
    NoRoom,
}

impl Numbered for KissWriteError {
    ghost number_of = { number_of };

    fn number(self) -> u32 {
        match self {
            KissWriteError::PortTooHigh => 56,
            KissWriteError::NoRoom => 24,
        }
    }
}

// Whether a packet with so many octets of data, and so many of them special, has room. Their sum might not fit a usize, so none is made.
fn fits(room: usize, n: usize, found: usize) -> bool
    ensures { result ≡ leb (3 + n + found) room }
{
    room >= 3 && room - 3 >= n && room - 3 - n >= found
}

// How far writing has come: the data that is left, and the place in the output.
#[derive(Clone, Copy)]
struct Place<'a> {
    rest: &'a [u8],
    to: usize,
}

// Two octets for one: a DB and what follows it.
fn put_escape(out: &mut [u8], at: usize, second: u8)
    requires { at + 2 ≤ length out.old }
    ensures { out.new ≡ splice out.old at (fesc ∷ second ∷ []) }
{
    out[at] = FESC;
    out[at + 1] = second;
}

// The first octet of the rest of the data, where it is written as two; else all that stand for themselves from there on.
fn put_next<'a>(out: &mut [u8], to: usize, rest: &'a [u8]) -> Place<'a>
    requires some { 1 ≤ length rest.now }
    requires room { to + length (escaped rest.now) ≤ length out.old }
    ensures rest { result.rest.now ≡ drop (next_count rest.now) rest.now }
    ensures place { result.to ≡ to + length (next_octets rest.now) }
    ensures out_after { out.new ≡ splice out.old to (next_octets rest.now) }
{
    match rest[0] {
        FEND => {
            put_escape(out, to, TFEND);
            Place {
                rest: &rest[1..],
                to: to + 2,
            }
        }
        FESC => {
            put_escape(out, to, TFESC);
            Place {
                rest: &rest[1..],
                to: to + 2,
            }
        }
        _ => {
            let run = escapes::plain_len(rest);
            lent_buffer::put(out, to, &rest[..run]);
            Place {
                rest: &rest[run..],
                to: to + run,
            }
        }
    }
}

// The second pass: the data, escaped, from `at` on.
fn put_escaped(out: &mut [u8], at: usize, info: &[u8])
    requires { at + length (escaped info.now) ≤ length out.old }
    ensures { out.new ≡ splice out.old at (escaped info.now) }
{
    let mut to = at;
    let mut rest = info;
    // A while loop, because a step takes one octet or a whole run: what an iterator gives has one length.
    while !rest.is_empty() {
        let next = put_next(out, to, rest);
        rest = next.rest;
        to = next.to;
    }
}

// Writes one whole packet to the start of the output, and gives its length. A refusal leaves the output alone.
pub fn write(port: u8, info: &[u8], out: &mut [u8]) -> Result<usize, KissWriteError>
    ensures value { result ≡ measured (written port info.now (length out.old)) }
    ensures out_after { out.new ≡ splice out.old 0 (octets_written port info.now (length out.old)) }
{
    if port > LAST_PORT {
        return Err(KissWriteError::PortTooHigh);
    }
    let found = escapes::count_special(info);
    let n = info.len();
    if !fits(out.len(), n, found) {
        return Err(KissWriteError::NoRoom);
    }
    out[0] = FEND;
    out[1] = port << 4;
    put_escaped(out, 2, info);
    out[2 + n + found] = FEND;
    Ok(3 + n + found)
}
