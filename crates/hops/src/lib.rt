// The hops of a frame's route: the marked places as a set, how many there are, which place is due, and whose it is.
#![tactic(auto)]

ghost use Rattle.std.specs.Prelude.{◌≡◌, ◌&&◌};
ghost use Rattle.octets.specs.Octet.{flag};
ghost use Rattle.octets.specs.Same.{same};
ghost use Rattle.hops.specs.Hops.{hop_set, hops_used, due_place, first_clear};
ghost use Rattle.hops.specs.Station.{same_station};

use address::Address;
use frame::Ax25Frame;

// Bit i for a marked place i below the route count. The set is built from the top place down.
pub fn hop_set(frame: Ax25Frame) -> u8
    ensures { result ≡ hop_set frame }
{
    let mut set: u8 = 0;
    for i in (0..8).rev() {
        let mark = i < frame.route_count && frame.route[i].has_repeated;
        set = set * 2 + u8::from(mark);
    }
    set
}

pub fn hops_used(frame: Ax25Frame) -> u32
    ensures { result ≡ hops_used frame }
{
    u8::count_ones(hop_set(frame))
}

// The first place that is not in a set of eight, or 8. Of a hop set it is the due place.
pub fn first_clear(set: u8) -> u32
    ensures { result ≡ first_clear set }
{
    u8::trailing_zeros(!set)
}

// The place of the repeater whose turn it is.
pub fn due_place(frame: Ax25Frame) -> usize
    ensures { result ≡ due_place frame }
{
    first_clear(hop_set(frame)) as usize
}

// The reserved bits are the network's, and tell nothing of the station.
pub fn same_station(a: Address, b: Address) -> bool
    ensures { result ≡ same_station a b }
{
    a.ssid == b.ssid && a.callsign == b.callsign
}
