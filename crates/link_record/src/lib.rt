// The record of a link that is followed, which its owner keeps, and which records are refused.
#![tactic(auto)]

ghost use Rattle.std.specs.Prelude.{◌≡◌};
ghost use Rattle.link_record.specs.Record.{error_number, fresh, stations_encodable, counted, unsound, refusal};

use address::Address;
use answer::Numbered;
use decode::DecodeError;

// The states. A number over these is read as idle. Numbers and no enum: C's struct holds a number, which stays as it is where a frame does
// not change it, and the code only sets it and compares it.
pub const IDLE: u32 = 0;

pub const ASKED_BY_A: u32 = 1;

pub const ASKED_BY_B: u32 = 2;

pub const UP: u32 = 3;

// How many frames a record takes.
pub const MOST: u32 = 65535;

// The two stations; the state; of each direction the N(S) that it expects, and whether a frame came in order that way since the UA; how many
// I frames were in order, repeated, a gap, and outside; how many frames were offered. Zeros behind the stations are a fresh record. The layout
// is C's, and there is no padding.
#[repr(C)]
#[derive(Clone, Copy)]
pub struct Link {
    pub a: Address,
    pub b: Address,
    pub state: u32,
    pub expected_from_a: u32,
    pub expected_from_b: u32,
    pub moved_from_a: u32,
    pub moved_from_b: u32,
    pub in_order: u32,
    pub repeated: u32,
    pub gaps: u32,
    pub outside: u32,
    pub offered: u32,
}

// Why a frame is not offered: the record's own refusals, and decoding's of the frame.
#[derive(Clone, Copy, Debug, PartialEq, Eq)]
pub enum LinkError {
    NotEncodable,
    EqualStations,
    Unsound,
    Full,
    Refused(DecodeError),
}

impl Numbered for LinkError {
    ghost number_of = { error_number };

    fn number(self) -> u32 {
        match self {
            LinkError::NotEncodable => 22,
            LinkError::EqualStations => 72,
            LinkError::Unsound => 73,
            LinkError::Full => 71,
            LinkError::Refused(error) => error.number(),
        }
    }
}

#[tactic(auto, unfolding(crate::specs::Record::fresh))]
pub fn fresh(a: Address, b: Address) -> Link
    ensures { result ≡ fresh a b }
{
    Link {
        a,
        b,
        state: IDLE,
        expected_from_a: 0,
        expected_from_b: 0,
        moved_from_a: 0,
        moved_from_b: 0,
        in_order: 0,
        repeated: 0,
        gaps: 0,
        outside: 0,
        offered: 0,
    }
}

fn are_encodable(link: Link) -> bool
    ensures { result ≡ stations_encodable link }
{
    link.a.is_encodable() && link.b.is_encodable()
}

// The four counts together, in a width that holds their sum, whatever they are.
#[tactic(auto, unfolding(crate::specs::Record::counted))]
fn counted(link: Link) -> u64
    ensures { result ≡ counted link }
{
    link.in_order as u64 + link.repeated as u64 + link.gaps as u64 + link.outside as u64
}

#[tactic(auto, unfolding(crate::specs::Record::unsound))]
fn is_unsound(link: Link) -> bool
    ensures { result ≡ unsound link }
{
    counted(link) > link.offered as u64 || link.expected_from_a > 7 || link.expected_from_b > 7
}

// What a record is refused by before a frame is looked at; nothing where it takes one more.
#[tactic(auto, unfolding(crate::specs::Record::refusal))]
pub fn refusal(link: Link) -> Result<(), LinkError>
    ensures { result ≡ refusal link }
{
    if !are_encodable(link) {
        return Err(LinkError::NotEncodable);
    }
    if hops::same_station(link.a, link.b) {
        return Err(LinkError::EqualStations);
    }
    if is_unsound(link) {
        return Err(LinkError::Unsound);
    }
    if link.offered >= MOST {
        return Err(LinkError::Full);
    }
    Ok(())
}
