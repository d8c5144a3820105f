// Writing a frame.
ghost use Rattle.std.specs.Prelude.{◌≡◌, true, ◌+◌, ◌*◌, ◌≤◌, length};
ghost use Rattle.std.specs.List.{list_all};
ghost use Rattle.octets.specs.Splice.{splice};
ghost use Rattle.frame.specs.Spell.{groups_of, destination_mark, address_field, spell};
ghost use Rattle.frame.specs.Write.{entry_encodable, frame_encodable, write_answer, Taken, octets_written, written};

use crate::{Ax25Frame, Mark, RouteEntry, WriteError};
use control::Mode;

// The mark of the destination; that of the source is the other.
fn destination_mark(mark: Mark) -> bool
    ensures { result ≡ destination_mark mark }
{
    match mark {
        Mark::Command => true,
        Mark::Response => false,
        Mark::Absent => true,
    }
}

fn route_encodable(route: &[RouteEntry]) -> bool
    ensures { result ≡ list_all entry_encodable route.now }
{
    route.iter().all(|entry| entry.repeater.is_encodable())
}

// That the count is within the route is asked here and of the two that write addresses and info. No type holds it: the record is the
// caller's, and a count over 8 is answered by 21 (`write_answer`).
fn frame_encodable(frame: Ax25Frame) -> bool
    requires { frame.route_count ≤ 8 }
    ensures { result ≡ frame_encodable frame }
{
    frame.destination.is_encodable()
        && frame.source.is_encodable()
        && route_encodable(&frame.route[..frame.route_count])
}

// Whether a frame is written with its info into so much room.
fn judge(mode: Mode, frame: Ax25Frame, info: &[u8], room: usize) -> Result<(), WriteError>
    ensures { result ≡ write_answer mode frame info.now room }
{
    let count = frame.route_count;
    if 8 < count {
        return Err(WriteError::RouteTooLong);
    }
    if !frame_encodable(frame) {
        return Err(WriteError::NotEncodable);
    }
    let content = frame.content;
    let head = 14 + 7 * count + content.front_len(mode);
    encoding::judge(mode, content, head, info.len(), room)?;
    Ok(())
}

// The repeaters' groups, one after the other from `at` on; the last alone has the end bit.
fn put_route(out: &mut [u8], at: usize, route: &[RouteEntry])
    requires { (at + 7 * length route.now ≤ length out.old) × (list_all entry_encodable route.now ≡ true) }
    ensures { out.new ≡ splice out.old at (groups_of route.now (length route.now) (length route.now)) }
{
    for (i, entry) in route.iter().enumerate() {
        // Its room and its address were looked at before, so that it is not refused.
        let _ = placing::put(
            out,
            at + 7 * i,
            entry.repeater,
            entry.has_repeated,
            i + 1 == route.len(),
        );
    }
}

// The address field: destination, source, repeaters.
fn put_addresses(out: &mut [u8], frame: Ax25Frame)
    requires { (frame.route_count ≤ 8) × (14 + 7 * frame.route_count ≤ length out.old) × (frame_encodable frame ≡ true) }
    ensures { out.new ≡ splice out.old 0 (address_field frame) }
{
    let to = destination_mark(frame.command_or_response);
    let count = frame.route_count;
    // Their room and their addresses were looked at before, so that neither is refused.
    let _ = placing::put(out, 0, frame.destination, to, false);
    let _ = placing::put(out, 7, frame.source, !to, count == 0);
    put_route(out, 14, &frame.route[..count]);
}

// The frame and its info, once nothing is refused.
fn put_frame(mode: Mode, out: &mut [u8], frame: Ax25Frame, info: &[u8]) -> usize
    requires { Taken mode frame info.now (length out.old) }
    ensures value { result ≡ length (spell mode frame info.now) }
    ensures out_after { out.new ≡ splice out.old 0 (spell mode frame info.now) }
{
    put_addresses(out, frame);
    let at = 14 + 7 * frame.route_count;
    let content = frame.content;
    at + encoding::encode(mode, content, info, &mut out[at..]).unwrap()
}

impl Ax25Frame {
    // Encode the frame, with its info, as raw bytes for transmission: how many there are. A refusal writes nothing.
    pub fn to_bytes(self, mode: Mode, info: &[u8], out: &mut [u8]) -> Result<usize, WriteError>
        ensures value { result ≡ written mode self info.now (length out.old) }
        ensures out_after { out.new ≡ splice out.old 0 (octets_written mode self info.now (length out.old)) }
    {
        judge(mode, self, info, out.len())?;
        Ok(put_frame(mode, out, self, info))
    }
}
