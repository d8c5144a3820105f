// The text of an address: its callsign, then a hyphen and the SSID where it is not 0, as VK7NTK-5. The crate `text` reads it.
#![tactic(auto)]

ghost use Rattle.std.specs.Prelude.{◌≡◌, ◌≢◌, ◌<◌, ℕ, length, slice_index, MatchOption};
ghost use Rattle.octets.specs.Splice.{splice};
ghost use Rattle.printing.specs.Print.{used, ssid_suffix, text_of, print_number_of, printed, printed_into};

use address::Address;
use answer::Numbered;

// Why an address is not printed.
#[derive(Clone, Copy, Debug, PartialEq, Eq)]
pub enum PrintError {
    NotEncodable,
    NoRoom,
}

impl Numbered for PrintError {
    ghost number_of = { print_number_of };

    fn number(self) -> u32 {
        match self {
            PrintError::NotEncodable => 22,
            PrintError::NoRoom => 24,
        }
    }
}

// The text of an address, written at the start of `out`, and how long it is. A refusal leaves `out` alone.
// No `Display`: whether all of a text has room is known before any of it is written here, and nothing is allocated.
pub fn print(address: Address, out: &mut [u8]) -> Result<usize, PrintError>
    ensures value { result ≡ printed address (length out.old) }
    ensures out_after { out.new ≡ printed_into address out.old }
{
    if !address.is_encodable() {
        return Err(PrintError::NotEncodable);
    }
    let room = out.len();
    let length = put_text(address, out);
    if room < length {
        return Err(PrintError::NoRoom);
    }
    Ok(length)
}

// The text written where there is room for all of it; its length in any case.
fn put_text(address: Address, out: &mut [u8]) -> usize
    ensures value { result ≡ length (text_of address) }
    ensures out_after { out.new ≡ splice out.old 0 (text_of address) }
{
    let callsign = address.callsign;
    let n = callsign_length(&callsign);
    let length = n + suffix_length(address.ssid);
    if out.len() < length {
        return length;
    }
    lent_buffer::put(out, 0, &callsign[..n]);
    put_suffix(out, n, address.ssid);
    length
}

// How many characters stand before the spaces at the end.
pub fn callsign_length(callsign: &[u8]) -> usize
    ensures { result ≡ used callsign.now }
{
    match last_character(callsign) {
        Some(last) => last + 1,
        None => 0,
    }
}

// The place of the last character that is no space.
fn last_character(callsign: &[u8]) -> Option<usize>
    ensures { MatchOption result ((k : ℕ) → k < length callsign.now → slice_index callsign.now k ≡ 32) (λ i. (i < length callsign.now) × (slice_index callsign.now i ≢ 32) × ((k : ℕ) → i < k → k < length callsign.now → slice_index callsign.now k ≡ 32)) }
{
    callsign.iter().rposition(|c| *c != b' ')
}

// How many octets `put_suffix` writes.
#[tactic(auto, unfolding(crate::specs::Print::ssid_suffix, crate::specs::Print::decimal_text))]
fn suffix_length(ssid: u8) -> usize
    ensures { result ≡ length (ssid_suffix ssid) }
{
    match ssid {
        0 => 0,
        1..=9 => 2,
        _ => 3,
    }
}

// A hyphen and the SSID in decimal; nothing for SSID 0. `print` has refused an SSID over 15.
#[tactic(auto, using(octets::proofs::Splice::splice_none), unfolding(crate::specs::Print::ssid_suffix, crate::specs::Print::decimal_text))]
fn put_suffix(out: &mut [u8], at: usize, ssid: u8)
    ensures { out.new ≡ splice out.old at (ssid_suffix ssid) }
{
    match ssid {
        0 => {}
        1..=9 => lent_buffer::put(out, at, &[b'-', b'0' + ssid]),
        _ => lent_buffer::put(out, at, &[b'-', b'0' + ssid / 10, b'0' + ssid % 10]),
    }
}
