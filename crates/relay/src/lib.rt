// Relaying: a frame goes on as it was received, with our own mark set in it. Nothing is rebuilt, and nothing is taken apart but the
// group of the repeater that is due: the outline tells where the groups stand, and the hop set is read off the octets.
#![tactic(auto)]

ghost use Rattle.std.specs.Prelude.{◌≡◌, Ok, ◌+◌, ◌*◌, ◌≤◌, ◌<◌, length, get_or, set};
ghost use Rattle.decode.specs.Outline.{outline_of};
ghost use Rattle.decode.specs.Read.{parsed_at, route_at, decode};
ghost use Rattle.hops.specs.Hops.{marks, set_of};
ghost use Rattle.hops.specs.Station.{same_station};
ghost use Rattle.relay.specs.Relay.{error_number, due_answer, relay_answer, or_mark, left_by, relayed, station_of, relay_answer_as, relayed_as};
ghost use Rattle.relay.specs.declared.RelayError.TheVariants.{Refused};

use address::Address;
use answer::Numbered;
use control::Mode;
use decode::{DecodeError, Outline};

// Why a frame is not relayed.
#[derive(Clone, Copy, Debug, PartialEq, Eq)]
pub enum RelayError {
    NotEncodable,
    Refused(DecodeError),
    RouteUsedUp,
    BrokenMarks,
    AnotherStation,
}

impl Numbered for RelayError {
    ghost number_of = { error_number };

    fn number(self) -> u32 {
        match self {
            RelayError::NotEncodable => 22,
            RelayError::Refused(error) => error.number(),
            RelayError::RouteUsedUp => 41,
            RelayError::BrokenMarks => 43,
            RelayError::AnotherStation => 42,
        }
    }
}

impl From<DecodeError> for RelayError {
    ghost from_gives = { λ error gives. gives ≡ Refused error };

    fn from(error: DecodeError) -> RelayError {
        RelayError::Refused(error)
    }
}

// The hop set of the repeaters whose groups stand from `at` on, built from the last place down. That of `hops` is of a frame's eight places,
// and no frame is built here; one function over an iterator of marks would ask for a proof of each iterator that is longer than this loop.
fn hop_set_at(bytes: &[u8], at: usize, n: usize) -> u8
    requires { (n ≤ 8) × (at + 7 * n ≤ length bytes.now) }
    ensures { result ≡ set_of (marks (route_at bytes.now at n) n) }
{
    let mut set: u8 = 0;
    for i in (0..n).rev() {
        let mark = bytes[at + 7 * i + 6] >> 7;
        set = set * 2 + mark;
    }
    set
}

// Whether the group at `at` is our own station's.
fn is_ours(own: Address, bytes: &[u8], at: usize) -> bool
    requires { at + 7 ≤ length bytes.now }
    ensures { result ≡ same_station own (parsed_at bytes.now at).address }
{
    let mut octets = [0; 7];
    octets.copy_from_slice(&bytes[at..at + 7]);
    let due = group::parse_address(octets);
    hops::same_station(own, due.address)
}

// The mark set in the last octet of a group.
fn set_mark(bytes: &mut [u8], last: usize)
    requires { last < length bytes.old }
    ensures { bytes.new ≡ set bytes.old last (or_mark (get_or bytes.old last 0)) }
{
    bytes[last] |= 0b1000_0000;
}

// A frame that decodes, with this outline.
fn relay_due(own: Address, bytes: &mut [u8], outline: Outline) -> Result<(), RelayError>
    requires { Ok outline ≡ outline_of Mode.Short bytes.old }
    ensures value { result ≡ due_answer own (decode Mode.Short bytes.old).frame }
    ensures bytes_after { bytes.new ≡ left_by (due_answer own (decode Mode.Short bytes.old).frame) bytes.old }
{
    let count = outline.route_count;
    let set = hop_set_at(bytes, 14, count);
    let due = hops::first_clear(set) as usize;
    if due == count {
        return Err(RelayError::RouteUsedUp);
    }
    if set >> due != 0 {
        return Err(RelayError::BrokenMarks);
    }
    let at = 14 + 7 * due;
    if !is_ours(own, bytes, at) {
        return Err(RelayError::AnotherStation);
    }
    set_mark(bytes, at + 6);
    Ok(())
}

// Sets our mark in the lent frame, where the repeater that is due is ours. A refusal leaves the frame alone.
pub fn relay(own: Address, bytes: &mut [u8]) -> Result<(), RelayError>
    ensures value { result ≡ relay_answer own bytes.old }
    ensures bytes_after { bytes.new ≡ relayed own bytes.old }
{
    if !own.is_encodable() {
        return Err(RelayError::NotEncodable);
    }
    let outline = decode::outline_of(Mode::Short, bytes)?;
    relay_due(own, bytes, outline)
}

// A character as it is; a space past the end.
fn character_at(callsign: &[u8], k: usize) -> u8
    ensures { result ≡ get_or callsign.now k 32 }
{
    callsign.get(k).copied().unwrap_or(b' ')
}

// The station with this callsign, padded with spaces, and this SSID.
fn station_of(callsign: &[u8], ssid: u8) -> Address
    ensures { result ≡ station_of callsign.now ssid }
{
    // Written out: with `array::from_fn` the proof that each character stands in its place did not close.
    let callsign = [
        character_at(callsign, 0),
        character_at(callsign, 1),
        character_at(callsign, 2),
        character_at(callsign, 3),
        character_at(callsign, 4),
        character_at(callsign, 5),
    ];
    Address {
        callsign,
        ssid,
        reserved: address::RESERVED_ONES,
    }
}

// The same for a callsign of at most six octets, as they are.
pub fn relay_as(callsign: &[u8], ssid: u8, bytes: &mut [u8]) -> Result<(), RelayError>
    ensures value { result ≡ relay_answer_as callsign.now ssid bytes.old }
    ensures bytes_after { bytes.new ≡ relayed_as callsign.now ssid bytes.old }
{
    if callsign.len() > 6 {
        return Err(RelayError::NotEncodable);
    }
    let own = station_of(callsign, ssid);
    relay(own, bytes)
}
