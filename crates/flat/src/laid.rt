// From a frame to its flat record. No `From` here: the types are those of other crates, and the octets std's.
ghost use Rattle.std.specs.Prelude.{◌≡◌, ◌≤◌, length};
ghost use Rattle.octets.specs.Splice.{splice};
ghost use Rattle.flat.specs.Laid.{address_flat, entry_flat, route_flat, count_flat, mark_flat, response_flat, pid_case, pid_octet, bare_flat, with_pid_flat, reject_flat, content_flat, rest_flat, flat_of};

use address::Address;
use content::{CommandResponse, FrameContent, FrameReject};
use frame::{Ax25Frame, Mark, RouteEntry};
use protocol::ProtocolIdentifier;

// How many octets a flat frame has.
const FRAME: usize = 102;

fn address_octets(address: Address) -> [u8; 8]
    ensures { result ≡ address_flat address }
{
    let [a, b, c, d, e, f] = address.callsign;
    [a, b, c, d, e, f, address.ssid, address.reserved]
}

pub fn put_address(out: &mut [u8], at: usize, address: Address)
    ensures { out.new ≡ splice out.old at (address_flat address) }
{
    lent_buffer::put(out, at, &address_octets(address));
}

// In one part, of the fields themselves: with a part for the address and one for the mark, or by the address's eight octets, the compiler
// makes more of it.
fn put_entry(out: &mut [u8], at: usize, entry: RouteEntry)
    ensures { out.new ≡ splice out.old at (entry_flat entry) }
{
    let Address {
        callsign,
        ssid,
        reserved,
    } = entry.repeater;
    let [a, b, c, d, e, f] = callsign;
    let mark = u8::from(entry.has_repeated);
    lent_buffer::put(out, at, &[a, b, c, d, e, f, ssid, reserved, mark]);
}

// All eight places, in use or not.
fn put_route(out: &mut [u8], route: [RouteEntry; 8])
    requires { 88 ≤ length out.old }
    ensures { out.new ≡ splice out.old 16 (route_flat route 8) }
{
    for (place, entry) in route.iter().enumerate() {
        put_entry(out, 16 + 9 * place, *entry);
    }
}

// A count of 255 and more is 255: writing refuses them all alike.
#[tactic(auto, unfolding(crate::specs::Laid::count_flat))]
fn count_octet(count: usize) -> u8
    ensures { result ≡ count_flat count }
{
    count.min(255) as u8
}

fn mark_octet(mark: Mark) -> u8
    ensures { result ≡ mark_flat mark }
{
    match mark {
        Mark::Command => 0,
        Mark::Response => 1,
        Mark::Absent => 2,
    }
}

fn pid_case(pid: ProtocolIdentifier) -> u8
    ensures { result ≡ pid_case pid }
{
    match pid {
        ProtocolIdentifier::Layer3Impl(_) => 0,
        ProtocolIdentifier::X25Plp => 1,
        ProtocolIdentifier::CompressedTcpIp => 2,
        ProtocolIdentifier::UncompressedTcpIp => 3,
        ProtocolIdentifier::SegmentationFragment => 4,
        ProtocolIdentifier::TexnetDatagram => 5,
        ProtocolIdentifier::LinkQuality => 6,
        ProtocolIdentifier::Appletalk => 7,
        ProtocolIdentifier::AppletalkArp => 8,
        ProtocolIdentifier::ArpaIp => 9,
        ProtocolIdentifier::ArpaAddress => 10,
        ProtocolIdentifier::Flexnet => 11,
        ProtocolIdentifier::NetRom => 12,
        ProtocolIdentifier::None => 13,
        ProtocolIdentifier::Escape => 14,
        ProtocolIdentifier::Unknown(_) => 15,
    }
}

// The octet that layer 3 and `Unknown` carry.
fn pid_octet(pid: ProtocolIdentifier) -> u8
    ensures { result ≡ pid_octet pid }
{
    match pid {
        ProtocolIdentifier::Layer3Impl(octet) | ProtocolIdentifier::Unknown(octet) => octet,
        _ => 0,
    }
}

fn response_octet(c: CommandResponse) -> u8
    ensures { result ≡ response_flat c }
{
    match c {
        CommandResponse::Command => 0,
        CommandResponse::Response => 1,
    }
}

// A kind's twelve octets are the kind, then every field that some kind has, in the record's order; 0 where this kind lacks it.
fn bare(kind: u8, on: bool, receive: u8) -> [u8; 12]
    ensures { result ≡ bare_flat kind on receive }
{
    [kind, 0, 0, on as u8, receive, 0, 0, 0, 0, 0, 0, 0]
}

// The kinds that have a PID.
fn with_pid(kind: u8, pid: ProtocolIdentifier, on: bool, receive: u8, send: u8) -> [u8; 12]
    ensures { result ≡ with_pid_flat kind pid on receive send }
{
    let case = pid_case(pid);
    let octet = pid_octet(pid);
    [kind, case, octet, on as u8, receive, send, 0, 0, 0, 0, 0, 0]
}

fn reject(k: FrameReject) -> [u8; 12]
    ensures { result ≡ reject_flat k }
{
    let command_response = k.command_response;
    [
        10,
        0,
        0,
        k.final_bit as u8,
        k.receive_sequence,
        k.send_sequence,
        k.z as u8,
        k.y as u8,
        k.x as u8,
        k.w as u8,
        response_octet(command_response),
        k.rejected_control_field_raw,
    ]
}

fn content_octets(content: FrameContent) -> [u8; 12]
    ensures { result ≡ content_flat content }
{
    match content {
        FrameContent::Information(k) => {
            let pid = k.pid;
            with_pid(0, pid, k.poll, k.receive_sequence, k.send_sequence)
        }
        FrameContent::ReceiveReady(k) => bare(1, k.poll_or_final, k.receive_sequence),
        FrameContent::ReceiveNotReady(k) => bare(2, k.poll_or_final, k.receive_sequence),
        FrameContent::Reject(k) => bare(3, k.poll_or_final, k.receive_sequence),
        FrameContent::SelectiveReject(k) => bare(4, k.poll_or_final, k.receive_sequence),
        FrameContent::SetAsynchronousBalancedMode(k) => bare(5, k.poll, 0),
        FrameContent::SetAsynchronousBalancedModeExtended(k) => bare(6, k.poll, 0),
        FrameContent::Disconnect(k) => bare(7, k.poll, 0),
        FrameContent::DisconnectedMode(k) => bare(8, k.final_bit, 0),
        FrameContent::UnnumberedAcknowledge(k) => bare(9, k.final_bit, 0),
        FrameContent::FrameReject(k) => reject(k),
        FrameContent::UnnumberedInformation(k) => {
            let pid = k.pid;
            with_pid(11, pid, k.poll_or_final, 0, 0)
        }
        FrameContent::ExchangeIdentification(k) => bare(12, k.poll_or_final, 0),
        FrameContent::Test(k) => bare(13, k.poll_or_final, 0),
        FrameContent::UnknownContent => bare(14, false, 0),
    }
}

// Content at the start of what is lent; nothing where it does not fit.
pub fn put_content(out: &mut [u8], content: FrameContent)
    ensures { out.new ≡ splice out.old 0 (content_flat content) }
{
    let octets = content_octets(content);
    lent_buffer::put(out, 0, &octets);
}

// What follows the route: its count, the mark, the content.
fn put_rest(out: &mut [u8], frame: Ax25Frame)
    requires { 102 ≤ length out.old }
    ensures { out.new ≡ splice out.old 88 (rest_flat frame) }
{
    let mark = frame.command_or_response;
    let content = frame.content;
    lent_buffer::put(out, 88, &[count_octet(frame.route_count), mark_octet(mark)]);
    let octets = content_octets(content);
    lent_buffer::put(out, 90, &octets);
}

// A frame at the start of what is lent; nothing where it does not fit.
pub fn put_frame(out: &mut [u8], frame: Ax25Frame)
    ensures { out.new ≡ splice out.old 0 (flat_of frame) }
{
    if out.len() < FRAME {
        return;
    }
    let destination = frame.destination;
    let source = frame.source;
    let route = frame.route;
    put_address(out, 0, destination);
    put_address(out, 8, source);
    put_route(out, route);
    put_rest(out, frame);
}
