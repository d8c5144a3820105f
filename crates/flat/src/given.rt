// From a flat record to its frame. Octets past the end of what is lent count as 0. No `From` here: the types are those of other crates, and
// the octets std's. A place in the record, which four functions ask to be within it, is a number of the layout, and a type for it would be
// taken apart where it is made.
ghost use Rattle.std.specs.Prelude.{◌≡◌, ◌≤◌};
ghost use Rattle.flat.specs.Given.{octet_at, flag_at, address_at, entry_at, route_from, mark_from, response_from, pid_from, fields_at, content_with, content_at, frame_from};

use address::Address;
use content::{
    CommandResponse, Disconnect, DisconnectedMode, ExchangeIdentification, FrameContent,
    FrameReject, Information, ReceiveNotReady, ReceiveReady, Reject, SelectiveReject,
    SetAsynchronousBalancedMode, SetAsynchronousBalancedModeExtended, Test, UnnumberedAcknowledge,
    UnnumberedInformation,
};
use frame::{Ax25Frame, Mark, RouteEntry};
use protocol::ProtocolIdentifier;

fn octet(flat: &[u8], at: usize) -> u8
    ensures { result ≡ octet_at flat.now at }
{
    flat.get(at).copied().unwrap_or(0)
}

fn flag(flat: &[u8], at: usize) -> bool
    ensures { result ≡ flag_at flat.now at }
{
    octet(flat, at) != 0
}

fn address_at(flat: &[u8], at: usize) -> Address
    requires { at ≤ 102 }
    ensures { result ≡ address_at flat.now at }
{
    Address {
        callsign: [
            octet(flat, at),
            octet(flat, at + 1),
            octet(flat, at + 2),
            octet(flat, at + 3),
            octet(flat, at + 4),
            octet(flat, at + 5),
        ],
        ssid: octet(flat, at + 6),
        reserved: octet(flat, at + 7),
    }
}

fn entry_at(flat: &[u8], at: usize) -> RouteEntry
    requires { at ≤ 102 }
    ensures { result ≡ entry_at flat.now at }
{
    let repeater = address_at(flat, at);
    let has_repeated = flag(flat, at + 8);
    RouteEntry {
        repeater,
        has_repeated,
    }
}

fn route_from(flat: &[u8]) -> [RouteEntry; 8]
    ensures { result ≡ route_from flat.now }
{
    [
        entry_at(flat, 16),
        entry_at(flat, 25),
        entry_at(flat, 34),
        entry_at(flat, 43),
        entry_at(flat, 52),
        entry_at(flat, 61),
        entry_at(flat, 70),
        entry_at(flat, 79),
    ]
}

fn mark_from(octet: u8) -> Mark
    ensures { result ≡ mark_from octet }
{
    match octet {
        0 => Mark::Command,
        1 => Mark::Response,
        _ => Mark::Absent,
    }
}

fn response_from(octet: u8) -> CommandResponse
    ensures { result ≡ response_from octet }
{
    if octet == 0 {
        CommandResponse::Command
    } else {
        CommandResponse::Response
    }
}

fn pid_from(case: u8, octet: u8) -> ProtocolIdentifier
    ensures { result ≡ pid_from case octet }
{
    match case {
        0 => ProtocolIdentifier::Layer3Impl(octet),
        1 => ProtocolIdentifier::X25Plp,
        2 => ProtocolIdentifier::CompressedTcpIp,
        3 => ProtocolIdentifier::UncompressedTcpIp,
        4 => ProtocolIdentifier::SegmentationFragment,
        5 => ProtocolIdentifier::TexnetDatagram,
        6 => ProtocolIdentifier::LinkQuality,
        7 => ProtocolIdentifier::Appletalk,
        8 => ProtocolIdentifier::AppletalkArp,
        9 => ProtocolIdentifier::ArpaIp,
        10 => ProtocolIdentifier::ArpaAddress,
        11 => ProtocolIdentifier::Flexnet,
        12 => ProtocolIdentifier::NetRom,
        13 => ProtocolIdentifier::None,
        14 => ProtocolIdentifier::Escape,
        _ => ProtocolIdentifier::Unknown(octet),
    }
}

// FRMR has every field that some kind has, save the PID: the other kinds take theirs from it. Content starts at `at`.
fn fields_at(flat: &[u8], at: usize) -> FrameReject
    requires { at ≤ 102 }
    ensures { result ≡ fields_at flat.now at }
{
    let command_response = response_from(octet(flat, at + 10));
    FrameReject {
        final_bit: flag(flat, at + 3),
        rejected_control_field_raw: octet(flat, at + 11),
        z: flag(flat, at + 6),
        y: flag(flat, at + 7),
        x: flag(flat, at + 8),
        w: flag(flat, at + 9),
        receive_sequence: octet(flat, at + 4),
        send_sequence: octet(flat, at + 5),
        command_response,
    }
}

fn content_with(kind: u8, pid: ProtocolIdentifier, fields: FrameReject) -> FrameContent
    ensures { result ≡ content_with kind pid fields }
{
    let on = fields.final_bit;
    let receive_sequence = fields.receive_sequence;
    match kind {
        0 => FrameContent::Information(Information {
            pid,
            receive_sequence,
            send_sequence: fields.send_sequence,
            poll: on,
        }),
        1 => FrameContent::ReceiveReady(ReceiveReady {
            receive_sequence,
            poll_or_final: on,
        }),
        2 => FrameContent::ReceiveNotReady(ReceiveNotReady {
            receive_sequence,
            poll_or_final: on,
        }),
        3 => FrameContent::Reject(Reject {
            receive_sequence,
            poll_or_final: on,
        }),
        4 => FrameContent::SelectiveReject(SelectiveReject {
            receive_sequence,
            poll_or_final: on,
        }),
        5 => FrameContent::SetAsynchronousBalancedMode(SetAsynchronousBalancedMode { poll: on }),
        6 => FrameContent::SetAsynchronousBalancedModeExtended(SetAsynchronousBalancedModeExtended {
            poll: on,
        }),
        7 => FrameContent::Disconnect(Disconnect { poll: on }),
        8 => FrameContent::DisconnectedMode(DisconnectedMode { final_bit: on }),
        9 => FrameContent::UnnumberedAcknowledge(UnnumberedAcknowledge { final_bit: on }),
        10 => FrameContent::FrameReject(fields),
        11 => FrameContent::UnnumberedInformation(UnnumberedInformation {
            pid,
            poll_or_final: on,
        }),
        12 => FrameContent::ExchangeIdentification(ExchangeIdentification { poll_or_final: on }),
        13 => FrameContent::Test(Test { poll_or_final: on }),
        _ => FrameContent::UnknownContent,
    }
}

fn content_at(flat: &[u8], at: usize) -> FrameContent
    requires { at ≤ 102 }
    ensures { result ≡ content_at flat.now at }
{
    let pid = pid_from(octet(flat, at + 1), octet(flat, at + 2));
    let fields = fields_at(flat, at);
    content_with(octet(flat, at), pid, fields)
}

// An address alone.
pub fn address_from(flat: &[u8]) -> Address
    ensures { result ≡ address_at flat.now 0 }
{
    address_at(flat, 0)
}

// Content alone.
pub fn content_from(flat: &[u8]) -> FrameContent
    ensures { result ≡ content_at flat.now 0 }
{
    content_at(flat, 0)
}

pub fn frame_from(flat: &[u8]) -> Ax25Frame
    ensures { result ≡ frame_from flat.now }
{
    let destination = address_at(flat, 0);
    let source = address_at(flat, 8);
    let route = route_from(flat);
    let command_or_response = mark_from(octet(flat, 89));
    let content = content_at(flat, 90);
    Ax25Frame {
        source,
        destination,
        route,
        route_count: octet(flat, 88) as usize,
        command_or_response,
        content,
    }
}
