// Reading content: the control octet tells the kind, and each kind has its fields. What is refused is judged first, by the octets alone.
#![tactic(auto)]

ghost use Rattle.std.specs.Prelude.{◌≡◌, ◌≤◌, ◌<◌, ◌+◌, Ok, Err, cond, ltb, length, get_or};
ghost use Rattle.control.specs.Mode.{controls};
ghost use Rattle.control.specs.Control.{fields_in};
ghost use Rattle.parse.specs.Content.{i_of, s_kind_of, s_of, u_of, ui_of, frmr_of, content_of, error_number, judged};

use answer::Numbered;
use content::{
    CommandResponse, Disconnect, DisconnectedMode, ExchangeIdentification, FrameContent,
    FrameReject, Information, ReceiveNotReady, ReceiveReady, Reject, SelectiveReject,
    SetAsynchronousBalancedMode, SetAsynchronousBalancedModeExtended, Test, UnnumberedAcknowledge,
    UnnumberedInformation,
};
use control::{Fields, Mode};
use protocol::ProtocolIdentifier;

// Why content is refused.
#[derive(Clone, Copy, Debug, PartialEq, Eq)]
pub enum ContentError {
    ContentZeroLength,
    MissingPidField,
    UnrecognisedUFieldType,
    WrongSizeFrmrInfo,
    FrameRejectInLongMode,
    MissingControlOctet,
}

impl Numbered for ContentError {
    ghost number_of = { error_number };

    fn number(self) -> u32 {
        match self {
            ContentError::ContentZeroLength => 4,
            ContentError::MissingPidField => 5,
            ContentError::UnrecognisedUFieldType => 7,
            ContentError::WrongSizeFrmrInfo => 8,
            ContentError::FrameRejectInLongMode => 11,
            ContentError::MissingControlOctet => 12,
        }
    }
}

// How many control octets a U frame has, in both modes.
const U_CONTROL: usize = 1;

// FRMR content is its control octet and exactly 24 bits.
const FRMR_LENGTH: usize = 4;

// I and S content has all its control octets.
fn judge_control(mode: Mode, bytes: &[u8]) -> Result<(), ContentError>
    ensures { result ≡ cond (ltb (length bytes.now) (controls mode)) (Err ContentError.MissingControlOctet) (Ok tt) }
{
    if bytes.len() < mode.controls() {
        return Err(ContentError::MissingControlOctet);
    }
    Ok(())
}

// A PID follows so many octets.
fn judge_pid(bytes: &[u8], before: usize) -> Result<(), ContentError>
    ensures { result ≡ cond (ltb (length bytes.now) (before + 1)) (Err ContentError.MissingPidField) (Ok tt) }
{
    if bytes.len() <= before {
        return Err(ContentError::MissingPidField);
    }
    Ok(())
}

// That there is a control octet is asked here and of three more, which are private: no plainer by a type, which `parse_content` and `judge`
// would make of the octets only to pass it on.
fn judge_i(mode: Mode, bytes: &[u8]) -> Result<(), ContentError>
    requires { 0 < length bytes.now }
    ensures { result ≡ judged (i_of mode bytes.now) }
{
    judge_control(mode, bytes)?;
    judge_pid(bytes, mode.controls())
}

fn judge_s(mode: Mode, bytes: &[u8]) -> Result<(), ContentError>
    requires { 0 < length bytes.now }
    ensures { result ≡ judged (s_of mode bytes.now) }
{
    judge_control(mode, bytes)
}

fn judge_ui(bytes: &[u8]) -> Result<(), ContentError>
    ensures { result ≡ judged (ui_of bytes.now) }
{
    judge_pid(bytes, U_CONTROL)
}

fn judge_frmr(mode: Mode, bytes: &[u8]) -> Result<(), ContentError>
    ensures { result ≡ judged (frmr_of mode bytes.now) }
{
    match mode {
        Mode::Short => if bytes.len() == FRMR_LENGTH {
            Ok(())
        } else {
            Err(ContentError::WrongSizeFrmrInfo)
        },
        Mode::Long => Err(ContentError::FrameRejectInLongMode),
    }
}

// The kind is told by the control octet without its P/F bit. FRMR and UI alone look at what follows it.
fn judge_u(mode: Mode, c: u8, bytes: &[u8]) -> Result<(), ContentError>
    ensures { result ≡ judged (u_of mode c bytes.now) }
{
    let kind = c & 0b1110_1111;
    match kind {
        0b0010_1111 | 0b0110_1111 | 0b0100_0011 | 0b0000_1111 | 0b0110_0011 => Ok(()),
        0b1000_0111 => judge_frmr(mode, bytes),
        0b0000_0011 => judge_ui(bytes),
        0b1010_1111 | 0b1110_0011 => Ok(()),
        _ => Err(ContentError::UnrecognisedUFieldType),
    }
}

// Whether the content is refused, and why, without taking it apart.
pub fn judge(mode: Mode, bytes: &[u8]) -> Result<(), ContentError>
    ensures { result ≡ judged (content_of mode bytes.now) }
{
    if bytes.is_empty() {
        return Err(ContentError::ContentZeroLength);
    }
    let c = bytes[0];
    let format = c & 0b0000_0011;
    match format {
        0b0000_0001 => judge_s(mode, bytes),
        0b0000_0011 => judge_u(mode, c, bytes),
        _ => judge_i(mode, bytes),
    }
}

// The fields of an I or S control field.
fn fields_of(mode: Mode, bytes: &[u8]) -> Fields
    requires { controls mode ≤ length bytes.now }
    ensures { result ≡ fields_in mode bytes.now }
{
    match mode {
        Mode::Short => control::short_fields(bytes[0]),
        Mode::Long => control::long_fields(bytes[0], bytes[1]),
    }
}

fn parse_i_frame(mode: Mode, bytes: &[u8]) -> Result<FrameContent, ContentError>
    requires { 0 < length bytes.now }
    ensures { result ≡ i_of mode bytes.now }
{
    judge_i(mode, bytes)?;
    let fields = fields_of(mode, bytes);
    let pid = ProtocolIdentifier::from_byte(bytes[mode.controls()]);
    Ok(FrameContent::Information(Information {
        pid,
        receive_sequence: fields.receive,
        send_sequence: fields.send,
        poll: fields.poll,
    }))
}

// These all have the same layout; the low four bits of the control octet c tell the kind.
fn s_kind_of(c: u8, receive_sequence: u8, poll_or_final: bool) -> FrameContent
    ensures { result ≡ s_kind_of c receive_sequence poll_or_final }
{
    let kind = c & 0b0000_1111;
    match kind {
        0b0000_0001 => FrameContent::ReceiveReady(ReceiveReady {
            receive_sequence,
            poll_or_final,
        }),
        0b0000_0101 => FrameContent::ReceiveNotReady(ReceiveNotReady {
            receive_sequence,
            poll_or_final,
        }),
        0b0000_1001 => FrameContent::Reject(Reject {
            receive_sequence,
            poll_or_final,
        }),
        _ => FrameContent::SelectiveReject(SelectiveReject {
            receive_sequence,
            poll_or_final,
        }),
    }
}

// What follows the control field is ignored.
fn parse_s_frame(mode: Mode, bytes: &[u8]) -> Result<FrameContent, ContentError>
    requires { 0 < length bytes.now }
    ensures { result ≡ s_of mode bytes.now }
{
    judge_s(mode, bytes)?;
    let fields = fields_of(mode, bytes);
    Ok(s_kind_of(bytes[0], fields.receive, fields.poll))
}

fn parse_ui_frame(bytes: &[u8]) -> Result<FrameContent, ContentError>
    ensures { result ≡ ui_of bytes.now }
{
    judge_ui(bytes)?;
    let c = bytes[0];
    let pid = ProtocolIdentifier::from_byte(bytes[U_CONTROL]);
    Ok(FrameContent::UnnumberedInformation(UnnumberedInformation {
        pid,
        poll_or_final: (c & 0b0001_0000) != 0,
    }))
}

// No `From<bool>`: what true means is FRMR's alone.
fn response_of(response: bool) -> CommandResponse
    ensures { result ≡ cond response CommandResponse.Response CommandResponse.Command }
{
    if response {
        CommandResponse::Response
    } else {
        CommandResponse::Command
    }
}

fn parse_frmr_frame(mode: Mode, bytes: &[u8]) -> Result<FrameContent, ContentError>
    ensures { result ≡ frmr_of mode bytes.now }
{
    judge_frmr(mode, bytes)?;
    let c = bytes[0];
    let flags = bytes[1];
    // N(R), N(S) and, for the P/F bit, the response bit.
    let copy = control::short_fields(bytes[2]);
    Ok(FrameContent::FrameReject(FrameReject {
        final_bit: (c & 0b0001_0000) != 0,
        rejected_control_field_raw: bytes[3],
        z: (flags & 0b0000_1000) != 0,
        y: (flags & 0b0000_0100) != 0,
        x: (flags & 0b0000_0010) != 0,
        w: (flags & 0b0000_0001) != 0,
        receive_sequence: copy.receive,
        send_sequence: copy.send,
        command_response: response_of(copy.poll),
    }))
}

// The kind is told by the control octet without its P/F bit.
fn parse_u_frame(mode: Mode, c: u8, bytes: &[u8]) -> Result<FrameContent, ContentError>
    ensures { result ≡ u_of mode c bytes.now }
{
    let poll_or_final = (c & 0b0001_0000) != 0;
    let kind = c & 0b1110_1111;
    match kind {
        0b0010_1111 => Ok(FrameContent::SetAsynchronousBalancedMode(SetAsynchronousBalancedMode {
            poll: poll_or_final,
        })),
        0b0110_1111 => Ok(FrameContent::SetAsynchronousBalancedModeExtended(
            SetAsynchronousBalancedModeExtended {
                poll: poll_or_final,
            },
        )),
        0b0100_0011 => Ok(FrameContent::Disconnect(Disconnect {
            poll: poll_or_final,
        })),
        0b0000_1111 => Ok(FrameContent::DisconnectedMode(DisconnectedMode {
            final_bit: poll_or_final,
        })),
        0b0110_0011 => Ok(FrameContent::UnnumberedAcknowledge(UnnumberedAcknowledge {
            final_bit: poll_or_final,
        })),
        0b1000_0111 => parse_frmr_frame(mode, bytes),
        0b0000_0011 => parse_ui_frame(bytes),
        0b1010_1111 => Ok(FrameContent::ExchangeIdentification(ExchangeIdentification {
            poll_or_final,
        })),
        0b1110_0011 => Ok(FrameContent::Test(Test { poll_or_final })),
        _ => Err(ContentError::UnrecognisedUFieldType),
    }
}

// The content of the frame, starting from the control octet.
pub fn parse_content(mode: Mode, bytes: &[u8]) -> Result<FrameContent, ContentError>
    ensures { result ≡ content_of mode bytes.now }
{
    if bytes.is_empty() {
        return Err(ContentError::ContentZeroLength);
    }
    let c = bytes[0];
    let format = c & 0b0000_0011;
    match format {
        0b0000_0001 => parse_s_frame(mode, bytes),
        0b0000_0011 => parse_u_frame(mode, c, bytes),
        _ => parse_i_frame(mode, bytes),
    }
}
