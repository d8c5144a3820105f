// The octets that KISS escapes: how many there are in some data, and how far octets stand for themselves.
#![tactic(auto)]

ghost use Rattle.std.specs.Prelude.{◌≡◌, ◌+◌, ◌≤◌, leb, length, drop, position};
ghost use Rattle.octets.specs.First.{first};
ghost use Rattle.octets.specs.Count.{count};
ghost use Rattle.escapes.specs.Escape.{special};

// The octets that open and close a packet and that escape, by their names in the KISS document.
pub const FEND: u8 = 0xC0;

pub const FESC: u8 = 0xDB;

pub const TFEND: u8 = 0xDC;

pub const TFESC: u8 = 0xDD;

// Whether an octet is written as two. No branch is taken between the tests, here or below, so that many octets are looked at at once.
fn is_special(octet: u8) -> bool
    ensures { result ≡ special octet }
{
    (octet == FEND) | (octet == FESC)
}

// How many of 64 octets are written as two.
fn count_block(block: &[u8; 64]) -> u8
    ensures few { result ≤ 64 }
    ensures value { result ≡ count special block.now }
{
    let mut found: u8 = 0;
    for octet in block {
        found += is_special(*octet) as u8;
    }
    found
}

// How many octets are written as two. Blocks of a fixed length are counted in an octet each, so that many octets are added at once.
pub fn count_special(bytes: &[u8]) -> usize
    ensures { result ≡ count special bytes.now }
{
    let mut found = 0;
    let mut rest = bytes;
    while let Some((block, behind)) = rest.split_first_chunk::<64>() {
        found += count_block(block) as usize;
        rest = behind;
    }
    for octet in rest {
        found += is_special(*octet) as usize;
    }
    found
}

// Whether none of sixteen octets is written as two. A `for` and not `any`, which stops at the first and so looks at one at a time.
fn sixteen_plain(block: &[u8; 16]) -> bool
    ensures { result ≡ leb 16 (first special block.now) }
{
    let mut found = false;
    for octet in block {
        found |= is_special(*octet);
    }
    !found
}

// The place of the first octet that is written as two.
fn first_special(bytes: &[u8]) -> Option<usize>
    ensures { result ≡ position special bytes.now }
{
    bytes.iter().position(|octet| is_special(*octet))
}

// How many octets at the start stand for themselves: the place of the first C0 or DB, or the length.
pub fn plain_len(bytes: &[u8]) -> usize
    ensures { result ≡ first special bytes.now }
{
    let mut passed = 0;
    let mut rest = bytes;
    while let Some((block, behind)) = rest.split_first_chunk::<16>() {
        if !sixteen_plain(block) {
            break;
        }
        passed += 16;
        rest = behind;
    }
    passed + first_special(rest).unwrap_or(rest.len())
}

// The same from a place on: the place of the first C0 or DB from `from` on, or the length; behind the end it is `from`.
#[tactic(auto, using(octets::proofs::First::first_le))]
pub fn plain_to(bytes: &[u8], from: usize) -> usize
    ensures { result ≡ from + first special (drop from bytes.now) }
{
    if bytes.len() < from {
        return from;
    }
    from + plain_len(&bytes[from..])
}
