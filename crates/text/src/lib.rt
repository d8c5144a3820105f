// Reading the text of an address: a callsign, then a hyphen and an SSID, as VK7NTK-5. The crate `printing` writes it.
#![tactic(auto)]

ghost use Rattle.std.specs.Prelude.{◌≡◌, ◌+◌, ◌-◌, ◌*◌, ◌<◌, ◌≤◌, MatchOption, position, count_by};
ghost use Rattle.octets.specs.All.{all};
ghost use Rattle.text.specs.Text.{address_number_of, hyphen, digits_say, after_plus, alphanumeric, upper_at, padded, read_callsign, read_parts, read_text};

use address::Address;
use answer::Numbered;
use std::array;

// Why an address is not read.
#[derive(Clone, Copy, Debug, PartialEq, Eq)]
pub enum AddressError {
    CallsignTooLong,
    InvalidFormat,
    InvalidSsid,
    SsidOutOfRange,
    NotAscii,
}

impl Numbered for AddressError {
    ghost number_of = { address_number_of };

    fn number(self) -> u32 {
        match self {
            AddressError::CallsignTooLong => 31,
            AddressError::InvalidFormat => 32,
            AddressError::InvalidSsid => 33,
            AddressError::SsidOutOfRange => 34,
            AddressError::NotAscii => 35,
        }
    }
}

// The address of a callsign and an SSID.
pub fn from_parts(callsign: &[u8], ssid: u8) -> Result<Address, AddressError>
    ensures { result ≡ read_parts callsign.now ssid }
{
    if !address::is_ascii(callsign) {
        return Err(AddressError::NotAscii);
    }
    read_callsign(callsign, ssid)
}

// The address of a text. The SSID is read before the callsign is looked at.
// No `FromStr`: octets of 128 and more are refused by a number, and no `str` has to hold them.
pub fn from_str(text: &[u8]) -> Result<Address, AddressError>
    ensures { result ≡ read_text text.now }
{
    if !address::is_ascii(text) {
        return Err(AddressError::NotAscii);
    }
    if hyphens(text) > 1 {
        return Err(AddressError::InvalidFormat);
    }
    let Some(at) = first_hyphen(text) else {
        return read_callsign(text, 0);
    };
    match parse_ssid(&text[at + 1..]) {
        Some(ssid) => read_callsign(&text[..at], ssid),
        None => Err(AddressError::InvalidSsid),
    }
}

// How many hyphens there are.
fn hyphens(text: &[u8]) -> usize
    ensures { result ≡ count_by hyphen text.now }
{
    text.iter().filter(|c| **c == b'-').count()
}

// The place of the first hyphen.
fn first_hyphen(text: &[u8]) -> Option<usize>
    ensures { result ≡ position hyphen text.now }
{
    text.iter().position(|c| *c == b'-')
}

// Digits, with one optional plus sign before them.
#[tactic(auto, unfolding(crate::specs::Text::after_plus))]
fn parse_ssid(text: &[u8]) -> Option<u8>
    ensures { result ≡ digits_say (after_plus text.now) }
{
    match text {
        [b'+', digits @ ..] => parse_digits(digits),
        digits => parse_digits(digits),
    }
}

// One or more digits of a number up to 255. Once the value is over 255 no digit brings it back.
fn parse_digits(text: &[u8]) -> Option<u8>
    ensures { result ≡ digits_say text.now }
{
    if text.is_empty() {
        return None;
    }
    let mut value: u8 = 0;
    for digit in text {
        if !digit.is_ascii_digit() {
            return None;
        }
        value = with_digit(value, *digit)?;
    }
    Some(value)
}

// The number with one digit more, if eight bits hold it.
fn with_digit(value: u8, digit: u8) -> Option<u8>
    requires { 48 ≤ digit }
    ensures { MatchOption result (255 < value * 10 + (digit - 48)) (λ next. next ≡ value * 10 + (digit - 48)) }
{
    value.checked_mul(10)?.checked_add(digit - b'0')
}

// An address from a callsign without octets of 128 or more, and an SSID.
#[tactic(auto, unfolding(crate::specs::Text::read_callsign))]
fn read_callsign(callsign: &[u8], ssid: u8) -> Result<Address, AddressError>
    ensures { result ≡ read_callsign callsign.now ssid }
{
    if callsign.is_empty() {
        return Err(AddressError::InvalidFormat);
    }
    if callsign.len() > 6 {
        return Err(AddressError::CallsignTooLong);
    }
    if !are_alphanumeric(callsign) {
        return Err(AddressError::InvalidFormat);
    }
    if ssid > 15 {
        return Err(AddressError::SsidOutOfRange);
    }
    Ok(Address {
        callsign: pad(callsign),
        ssid,
        reserved: address::RESERVED_ONES,
    })
}

// Whether every character is a letter or a digit.
fn are_alphanumeric(callsign: &[u8]) -> bool
    ensures { result ≡ all alphanumeric callsign.now }
{
    callsign.iter().all(|c| is_alphanumeric(*c))
}

// Whether it is a digit, or a letter of either case.
pub fn is_alphanumeric(c: u8) -> bool
    ensures { result ≡ alphanumeric c }
{
    c.is_ascii_alphanumeric()
}

// The callsign in upper case, padded with spaces; of a longer one, its first six characters.
fn pad(callsign: &[u8]) -> [u8; 6]
    ensures { result ≡ padded callsign.now }
{
    array::from_fn(|k| upper_at(callsign, k))
}

// A character in upper case; a space past the end.
#[tactic(auto, unfolding(crate::specs::Text::upper))]
fn upper_at(callsign: &[u8], k: usize) -> u8
    ensures { result ≡ upper_at callsign.now k }
{
    let character = callsign.get(k).copied().unwrap_or(b' ');
    character.to_ascii_uppercase()
}
