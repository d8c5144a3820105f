// The state of a serial line of KISS packets: what it holds, and which states are taken for fresh ones.
#![tactic(auto, unfolding(crate::specs::State::settled_head))]

ghost use Rattle.std.specs.Prelude.{◌≡◌};
ghost use Rattle.kiss_state.specs.State.{none_in, settled_head};

use kiss::LAST_PORT;

// Room for the data of a packet, in octets.
pub const ROOM: u16 = 1024;

// The phases, by what was read last. They are numbers and no enum, because C's record holds them: a state that no call made may hold any
// number, and an enum would be made of it and a number again at each octet. No C0 yet:
pub const OUTSIDE: u8 = 0;

// A C0:
pub const OPENED: u8 = 1;

// The type octet, or data:
pub const IN_DATA: u8 = 2;

// A DB in the data:
pub const IN_ESCAPE: u8 = 3;

// Something that makes the packet one to drop:
pub const DROPPING: u8 = 4;

// A DB in the type octet's place:
pub const IN_TYPE: u8 = 5;

// The numbers of the state: how many octets of data there are, their port, the phase, and how many packets were dropped. Here and below
// the layout is C's, and no struct that is lent has padding.
#[repr(C)]
#[derive(Clone, Copy)]
pub struct Head {
    pub length: u16,
    pub port: u8,
    pub phase: u8,
    pub dropped: u16,
}

// The state of a line, which its owner keeps: the data is the first octets of the array. Zeros are a fresh one.
#[repr(C)]
#[derive(Clone, Copy)]
pub struct Stream {
    pub octets: [u8; 1024],
    pub head: Head,
}

// No packet, and the count kept.
pub fn none_in(h: Head, phase: u8) -> Head
    ensures { result ≡ none_in h phase }
{
    Head {
        length: 0,
        port: 0,
        phase,
        ..h
    }
}

// A state that no call made is a fresh one, its count kept.
pub fn settle(h: Head) -> Head
    ensures { result ≡ settled_head h }
{
    if h.length > ROOM || h.port > LAST_PORT || h.phase > IN_TYPE {
        return none_in(h, OUTSIDE);
    }
    h
}
