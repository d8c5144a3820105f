// A serial line of KISS packets, read in the pieces in which it gives them.
#![tactic(auto)]

ghost use Rattle.std.specs.Prelude.{◌≡◌, ℕ, ◌-◌, ◌≤◌, ◌==◌, length, drop, position, IfSome};
ghost use Rattle.escapes.specs.Escape.{fend};
ghost use Rattle.kiss_state.specs.declared.Stream.{Stream};
ghost use Rattle.kiss_state.specs.State.{in_data, head_of, stream_of};
ghost use Rattle.kiss_stream.specs.Feed.{no_packet, packet_of, feed_of, fed_of};
ghost use Rattle.kiss_stream.specs.Steps.{Reaches, Stores};

use escapes::{FEND, FESC, TFEND, TFESC};
use kiss_state::{DROPPING, Head, IN_DATA, OUTSIDE};

// A packet given out: 1, its port, and the length of its data; or zeros. It is C's record, which `ax25_kiss_feed` hands on as it is, so that
// a flag says whether there is one.
#[repr(C)]
#[derive(Clone, Copy)]
pub struct Packet {
    pub ready: u32,
    pub port: u32,
    pub length: usize,
}

// What a call gives beside the array: the numbers, the packet, and how many octets it took.
#[derive(Clone, Copy)]
pub struct Fed {
    pub head: Head,
    pub packet: Packet,
    pub taken: usize,
}

// What a run of octets leaves: the numbers behind it, and the rest of the piece.
#[derive(Clone, Copy)]
struct Reached<'a> {
    head: Head,
    rest: &'a [u8],
}

fn no_packet() -> Packet
    ensures { result ≡ no_packet }
{
    Packet {
        ready: 0,
        port: 0,
        length: 0,
    }
}

fn packet_of(h: Head) -> Packet
    ensures { result ≡ packet_of h }
{
    Packet {
        ready: 1,
        port: h.port as u32,
        length: h.length as usize,
    }
}

// The octet that a DB and the octet behind it stand for, where the rest of the piece begins with such a pair.
fn escape(rest: &[u8]) -> Option<u8>
    ensures { IfSome result (λ b. (2 ≤ length rest.now) × Stores b rest.now) }
{
    if rest.len() < 2 || rest[0] != FESC {
        return None;
    }
    match rest[1] {
        TFEND => Some(FEND),
        TFESC => Some(FESC),
        _ => None,
    }
}

// Stores the octets of data at the start that stand for themselves, behind `held` octets of data and as far as there is room. Gives how many
// octets of data there are then. Most octets are taken here, and the loop is short.
fn fill_plain(octets: &mut [u8; 1024], held: usize, rest: &[u8]) -> usize
    requires { held ≤ 65535 }
    ensures { (held ≤ result) × (result ≤ 65535) × (result - held ≤ length rest.now)
        × ((p d : ℕ) → Reaches (stream_of octets.old (head_of held p in_data d)) rest.now (stream_of octets.new (head_of result p in_data d)) (drop (result - held) rest.now)) }
{
    let mut end = held;
    for octet in rest {
        if *octet == FEND || *octet == FESC || end >= 1024 {
            break;
        }
        octets[end] = *octet;
        end += 1;
    }
    end
}

// In the phase of data, stores the data at the start as far as there is room: octets that stand for themselves, and escapes that are good
// and whole.
fn fill<'a>(octets: &mut [u8; 1024], h: Head, piece: &'a [u8]) -> Reached<'a>
    ensures { Reaches (stream_of octets.old h) piece.now (stream_of octets.new result.head) result.rest.now }
{
    if h.phase != IN_DATA {
        return Reached {
            head: h,
            rest: piece,
        };
    }
    let mut end = h.length as usize;
    let mut rest = piece;
    // A loop, because a turn takes a run and then a pair: what an iterator gives has one length.
    loop {
        let held = end;
        end = fill_plain(octets, held, rest);
        rest = &rest[end - held..];
        let Some(escaped) = escape(rest) else {
            break;
        };
        if end >= 1024 {
            break;
        }
        octets[end] = escaped;
        end += 1;
        rest = &rest[2..];
    }
    let head = Head {
        length: end as u16,
        ..h
    };
    Reached { head, rest }
}

// The place of the first C0.
fn next_fend(bytes: &[u8]) -> Option<usize>
    ensures { result ≡ position (λ b. b == fend) bytes.now }
{
    bytes.iter().position(|octet| *octet == FEND)
}

// What is left from the next C0 on in the two phases that pass over all that is not C0, and the whole in the others.
fn skip(phase: u8, rest: &[u8]) -> &[u8]
    ensures { (s : Stream) → s.head.phase ≡ phase → Reaches s rest.now s result.now }
{
    if phase != OUTSIDE && phase != DROPPING {
        return rest;
    }
    &rest[next_fend(rest).unwrap_or(rest.len())..]
}

// Takes a piece of the line, of any length, through the first octet that gives out a packet, else the whole. Each turn takes the octets
// that a short loop can take, and then one octet by the step, which is slower because it asks for the phase at each.
pub fn feed(octets: &mut [u8; 1024], head: Head, piece: &[u8]) -> Fed
    ensures { (result ≡ fed_of (feed_of (stream_of octets.old head) piece.now))
        × (octets.new ≡ (feed_of (stream_of octets.old head) piece.now).stream.octets) }
{
    let mut h = kiss_state::settle(head);
    let mut rest = piece;
    // A loop, because a turn goes as far as the octets let it: no iterator over the piece has these steps.
    loop {
        let filled = fill(octets, h, rest);
        h = filled.head;
        let left = skip(h.phase, filled.rest);
        let Some((octet, behind)) = left.split_first() else {
            return Fed {
                head: h,
                packet: no_packet(),
                taken: piece.len(),
            };
        };
        let m = kiss_octet::step(octets, h, *octet);
        h = m.head;
        rest = behind;
        if m.ready {
            return Fed {
                head: h,
                packet: packet_of(h),
                taken: piece.len() - rest.len(),
            };
        }
    }
}
