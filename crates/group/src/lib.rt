// The seven octets of an address, and back: six characters, then the octet of the SSID.
#![tactic(auto)]

ghost use Rattle.std.specs.Prelude.{◌≡◌, cond};
ghost use Rattle.group.specs.Group.{address_of, mark_of, mark_set, ssid_octet, group_of, write_group, group_number_of};

use address::Address;
use answer::Numbered;

#[cfg(test)]
mod tests; // tests.rt: what `group_of` gives, held to octets

#[derive(Clone, Copy, Debug, PartialEq, Eq)]
pub struct ParsedAddress {
    pub address: Address,
    pub high_bit: bool,
}

// Why a group is not written.
#[derive(Clone, Copy, Debug, PartialEq, Eq)]
pub enum GroupError {
    NotEncodable,
}

impl Numbered for GroupError {
    ghost number_of = { group_number_of };

    fn number(self) -> u32 {
        match self {
            GroupError::NotEncodable => 22,
        }
    }
}

// The address and the mark of a group. The low bits of its octets are not looked at.
pub fn parse_address(group: [u8; 7]) -> ParsedAddress
    ensures { result ≡ record { address = address_of group; high_bit = mark_of group } }
{
    let [a, b, c, d, e, f, last] = group;
    ParsedAddress {
        address: Address {
            // Six shifts, and no `map`: that goes over the six one by one, and reading and writing a frame took longer by it.
            callsign: [a >> 1, b >> 1, c >> 1, d >> 1, e >> 1, f >> 1],
            ssid: (last >> 1) & 0x0f,
            reserved: (last >> 5) & 0b11,
        },
        high_bit: mark_set(last),
    }
}

// The mark, in the last octet of a group.
pub fn mark_set(last: u8) -> bool
    ensures { result ≡ mark_set last }
{
    last & 0b1000_0000 != 0
}

// The seventh octet: SSID in bits 1 to 4, the reserved bits in 5 and 6, mark and end bit.
pub fn ssid_octet(ssid: u8, reserved: u8, high_bit: bool, final_in_address: bool) -> u8
    ensures { result ≡ ssid_octet ssid reserved high_bit final_in_address }
{
    ((ssid & 0x0f) << 1)
        | ((reserved & 0b11) << 5)
        | (u8::from(high_bit) << 7)
        | u8::from(final_in_address)
}

// The seven octets of an address, without asking whether it can be written: each field by the bits that it has there.
pub fn group_of(address: Address, high_bit: bool, final_in_address: bool) -> [u8; 7]
    ensures { result ≡ group_of address high_bit final_in_address }
{
    let [a, b, c, d, e, f] = address.callsign;
    let last = ssid_octet(address.ssid, address.reserved, high_bit, final_in_address);
    [a << 1, b << 1, c << 1, d << 1, e << 1, f << 1, last]
}

// The group of an address.
pub fn to_bytes(
    address: Address,
    high_bit: bool,
    final_in_address: bool,
) -> Result<[u8; 7], GroupError>
    ensures { result ≡ write_group address high_bit final_in_address }
{
    if !address.is_encodable() {
        return Err(GroupError::NotEncodable);
    }
    Ok(group_of(address, high_bit, final_in_address))
}
