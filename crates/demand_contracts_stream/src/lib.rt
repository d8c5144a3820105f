// What document 02, M-104, asks of a serial line as contracts of functions that only call the product's, as in `demand_contracts_frames`.
#![tactic(auto)]

ghost use Rattle.std.specs.Prelude.{◌≡◌, length};
ghost use Rattle.kiss_state.specs.State.{stream_of};
ghost use Rattle.demands_stream.specs.Run.{line_of};

use kiss_state::Head;

// What calls leave of a piece that they used up: the numbers of the state, and how many packets were given out.
#[derive(Clone, Copy)]
pub struct UsedUp {
    pub head: Head,
    pub packets: usize,
}

// A piece is used up by calls, each on what the one before left. Packets and state are those of its octets in a row.
pub fn used_up(octets: &mut [u8; 1024], head: Head, piece: &[u8]) -> UsedUp
    ensures { (result.packets ≡ length (line_of (stream_of octets.old head) piece.now).packets)
        × (result.head ≡ (line_of (stream_of octets.old head) piece.now).stream.head)
        × (octets.new ≡ (line_of (stream_of octets.old head) piece.now).stream.octets) }
{
    let first = kiss_stream::feed(octets, head, piece);
    let given = first.packet;
    let mut packets = given.ready as usize;
    let mut h = first.head;
    let mut i = first.taken;
    // A while loop, because each call says how much it took: no iterator over the piece has these steps.
    while i < piece.len() {
        let fed = kiss_stream::feed(octets, h, &piece[i..]);
        let next = fed.packet;
        packets += next.ready as usize;
        h = fed.head;
        i += fed.taken;
    }
    UsedUp { head: h, packets }
}

// However it is cut: the line in two pieces, each used up, is the line in one.
pub fn in_two(octets: &mut [u8; 1024], head: Head, line: &[u8], cut: usize) -> UsedUp
    ensures { (result.packets ≡ length (line_of (stream_of octets.old head) line.now).packets)
        × (result.head ≡ (line_of (stream_of octets.old head) line.now).stream.head)
        × (octets.new ≡ (line_of (stream_of octets.old head) line.now).stream.octets) }
{
    if line.len() < cut {
        return used_up(octets, head, line);
    }
    let first = used_up(octets, head, &line[..cut]);
    let h = first.head;
    let second = used_up(octets, h, &line[cut..]);
    let after = second.head;
    UsedUp {
        head: after,
        packets: first.packets + second.packets,
    }
}
