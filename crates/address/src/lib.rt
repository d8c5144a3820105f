// The address of a station: a callsign, a numeric SSID and the reserved bits. The crate `group` has its seven octets, `printing` and `text`
// its text.
#![tactic(auto)]

ghost use Rattle.std.specs.Prelude.{◌≡◌};
ghost use Rattle.octets.specs.All.{all};
ghost use Rattle.address.specs.Address.{low, encodable};

// The reserved bits where no network uses them: both ones.
pub const RESERVED_ONES: u8 = 3;

// A source, destination or repeater. The callsign is padded at its end with spaces. The reserved bits, as a number from 0 to 3, are the
// network's to use, and no part of who the station is. The layout is C's, which lends it two at a time, in the record of a link.
#[repr(C)]
#[derive(Clone, Copy, Debug, PartialEq, Eq)]
pub struct Address {
    pub callsign: [u8; 6],
    pub ssid: u8,
    pub reserved: u8,
}

impl Default for Address {
    ghost use Rattle.address.specs.Address.{no_call};

    ghost is_default = { λ address. address ≡ no_call };

    #[tactic(auto, unfolding(crate::specs::Address::no_call))]
    fn default() -> Address {
        Address {
            callsign: [b'N', b'O', b'C', b'A', b'L', b'L'],
            ssid: 0,
            reserved: RESERVED_ONES,
        }
    }
}

impl Address {
    // Whether writing and printing take it: four bits hold the SSID, two the reserved bits, and seven each character.
    #[tactic(auto, unfolding(crate::specs::Address::encodable))]
    pub fn is_encodable(self) -> bool
        ensures { result ≡ encodable self }
    {
        self.ssid <= 15 && self.reserved <= 3 && is_ascii(&self.callsign)
    }
}

// Whether every octet is below 128.
pub fn is_ascii(text: &[u8]) -> bool
    ensures { result ≡ all low text.now }
{
    text.iter().all(|c| *c < 128)
}
