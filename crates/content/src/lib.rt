// The content of a frame, which is everything after the address field: its kinds, and what each is written as. The crate `encoding` writes
// them, and `parse` reads them.
#![tactic(auto)]

use protocol::ProtocolIdentifier;

mod writing; // writing.rt: the octets of a kind before its info, and what is not written

// Indicates whether a given frame is a Command or a Response.
#[derive(Clone, Copy)]
pub enum CommandResponse {
    Command,
    Response,
}

// Information (I) frame
#[derive(Clone, Copy)]
pub struct Information {
    pub pid: ProtocolIdentifier,
    pub receive_sequence: u8,
    pub send_sequence: u8,
    pub poll: bool,
}

// RR Supervisory (S) frame
#[derive(Clone, Copy)]
pub struct ReceiveReady {
    pub receive_sequence: u8,
    pub poll_or_final: bool,
}

// RNR Supervisory (S) frame
#[derive(Clone, Copy)]
pub struct ReceiveNotReady {
    pub receive_sequence: u8,
    pub poll_or_final: bool,
}

// REJ Supervisory (S) frame
#[derive(Clone, Copy)]
pub struct Reject {
    pub receive_sequence: u8,
    pub poll_or_final: bool,
}

// SREJ Supervisory (S) frame
#[derive(Clone, Copy)]
pub struct SelectiveReject {
    pub receive_sequence: u8,
    pub poll_or_final: bool,
}

// SABM Unnumbered (U) frame
#[derive(Clone, Copy)]
pub struct SetAsynchronousBalancedMode {
    pub poll: bool,
}

// SABME Unnumbered (U) frame
#[derive(Clone, Copy)]
pub struct SetAsynchronousBalancedModeExtended {
    pub poll: bool,
}

// DISC Unnumbered (U) frame
#[derive(Clone, Copy)]
pub struct Disconnect {
    pub poll: bool,
}

// DM Unnumbered (U) frame
#[derive(Clone, Copy)]
pub struct DisconnectedMode {
    pub final_bit: bool,
}

// UA Unnumbered (U) frame
#[derive(Clone, Copy)]
pub struct UnnumberedAcknowledge {
    pub final_bit: bool,
}

// FRMR Unnumbered (U) frame. Flags correspond to names in the AX.25 specification.
#[derive(Clone, Copy)]
pub struct FrameReject {
    pub final_bit: bool,
    // A raw copy of the control field in the frame that was rejected
    pub rejected_control_field_raw: u8,
    // The attached control field contained an invalid Receive Sequence Number
    pub z: bool,
    // The information field of a received frame exceeded the maximum allowable length.
    pub y: bool,
    // A U or S frame was received that contained an information field.
    pub x: bool,
    // The received control field was invalid or not implemented.
    pub w: bool,
    pub receive_sequence: u8,
    pub send_sequence: u8,
    pub command_response: CommandResponse,
}

// UI Unnumbered Information frame
#[derive(Clone, Copy)]
pub struct UnnumberedInformation {
    pub pid: ProtocolIdentifier,
    pub poll_or_final: bool,
}

// XID Unnumbered (U) frame
#[derive(Clone, Copy)]
pub struct ExchangeIdentification {
    pub poll_or_final: bool,
}

// TEST Unnumbered (U) frame
#[derive(Clone, Copy)]
pub struct Test {
    pub poll_or_final: bool,
}

// The body of the frame after the end of the address field. Info is no part of it: reading reports its place, writing is lent it.
#[derive(Clone, Copy)]
pub enum FrameContent {
    Information(Information),
    ReceiveReady(ReceiveReady),
    ReceiveNotReady(ReceiveNotReady),
    Reject(Reject),
    SelectiveReject(SelectiveReject),
    SetAsynchronousBalancedMode(SetAsynchronousBalancedMode),
    SetAsynchronousBalancedModeExtended(SetAsynchronousBalancedModeExtended),
    Disconnect(Disconnect),
    DisconnectedMode(DisconnectedMode),
    UnnumberedAcknowledge(UnnumberedAcknowledge),
    FrameReject(FrameReject),
    UnnumberedInformation(UnnumberedInformation),
    ExchangeIdentification(ExchangeIdentification),
    Test(Test),
    // Content that is written as the lent octets alone. Reading never gives it.
    UnknownContent,
}
