// A frame: its record, and writing it. The crates `decode` and `reading` read it.
#![tactic(auto)]

ghost use Rattle.std.specs.Prelude.{◌≡◌, false};
ghost use Rattle.frame.specs.Frame.{no_entry, default_frame, error_number, error_of, simple_ui};

use address::Address;
use answer::Numbered;
use content::{FrameContent, UnnumberedInformation};
use encoding::EncodeError;
use protocol::ProtocolIdentifier;

mod writing; // writing.rt: from a frame and its info to octets

// Whether a frame is a command or a response. Equal bits, as the first versions of AX.25 sent them, say neither.
#[derive(Clone, Copy)]
pub enum Mark {
    Command,
    Response,
    Absent,
}

// A single hop in the frame's route
#[derive(Clone, Copy)]
pub struct RouteEntry {
    // Callsign-SSID of a repeater to use for source routing.
    pub repeater: Address,
    // A flag that is set to true when it passes through the nominated repeater.
    pub has_repeated: bool,
}

// A strongly-typed representation of a single AX.25 frame. Its info is lent beside it.
#[derive(Clone, Copy)]
pub struct Ax25Frame {
    // Sending station
    pub source: Address,
    // Destination station
    pub destination: Address,
    // The route the frame has taken/will take: the first `route_count` places
    // An array with a count: the customer's record has both, and C's flat record its places.
    pub route: [RouteEntry; 8],
    pub route_count: usize,
    pub command_or_response: Mark,
    pub content: FrameContent,
}

// Why a frame is not written.
#[derive(Clone, Copy, Debug, PartialEq, Eq)]
pub enum WriteError {
    RouteTooLong,
    NotEncodable,
    FrameRejectInLongMode,
    InfoNotAllowed,
    PidOutsideClass,
    NoRoom,
}

impl Numbered for WriteError {
    ghost number_of = { error_number };

    fn number(self) -> u32 {
        match self {
            WriteError::RouteTooLong => 21,
            WriteError::NotEncodable => 22,
            WriteError::FrameRejectInLongMode => 11,
            WriteError::InfoNotAllowed => 23,
            WriteError::PidOutsideClass => 25,
            WriteError::NoRoom => 24,
        }
    }
}

impl From<EncodeError> for WriteError {
    ghost from_gives = { λ of_content e. e ≡ error_of of_content };

    fn from(of_content: EncodeError) -> WriteError {
        match of_content {
            EncodeError::FrameRejectInLongMode => WriteError::FrameRejectInLongMode,
            EncodeError::InfoNotAllowed => WriteError::InfoNotAllowed,
            EncodeError::PidOutsideClass => WriteError::PidOutsideClass,
            EncodeError::NoRoom => WriteError::NoRoom,
        }
    }
}

// An unused place.
impl Default for RouteEntry {
    ghost is_default = { λ entry. entry ≡ no_entry };

    #[tactic(auto, unfolding(crate::specs::Frame::no_entry))]
    fn default() -> RouteEntry {
        RouteEntry {
            repeater: Address::default(),
            has_repeated: false,
        }
    }
}

// The frame that a refused decode gives.
impl Default for Ax25Frame {
    ghost is_default = { λ frame. frame ≡ default_frame };

    #[tactic(auto, unfolding(crate::specs::Frame::default_frame))]
    fn default() -> Ax25Frame {
        Ax25Frame::new_simple_ui_frame(Address::default(), Address::default())
    }
}

impl Ax25Frame {
    // A basic UnnumberedInformation (connectionless) frame. Its info is lent when it is written.
    #[tactic(auto, unfolding(crate::specs::Frame::simple_ui, crate::specs::Frame::no_route))]
    pub fn new_simple_ui_frame(source: Address, destination: Address) -> Ax25Frame
        ensures { result ≡ simple_ui source destination }
    {
        Ax25Frame {
            source,
            destination,
            route: [RouteEntry::default(); 8],
            route_count: 0,
            command_or_response: Mark::Command,
            content: FrameContent::UnnumberedInformation(UnnumberedInformation {
                pid: ProtocolIdentifier::None,
                poll_or_final: false,
            }),
        }
    }
}
