// Reading a frame whole: from its outline to its content and its addresses.
#![tactic(auto)]

ghost use Rattle.std.specs.Prelude.{◌≡◌, true, Ok, ◌+◌, ◌*◌, ◌≤◌, length, drop};
ghost use Rattle.parse.specs.Content.{content_of};
ghost use Rattle.content.specs.Spell.{has_info, front};
ghost use Rattle.decode.specs.Outline.{holds, decode_at, decode_by};
ghost use Rattle.decode.specs.Read.{outcome, accepted_with, with_content, decode};

use content::FrameContent;
use control::Mode;
use decode::{DecodeError, Decoded, Outline};
use frame::Ax25Frame;

// A frame of a kind that has info: it follows the octets before it.
fn with_info(mode: Mode, frame: Ax25Frame, control: usize, len: usize) -> Decoded
    requires { (has_info frame.content ≡ true) × (control + length (front mode frame.content) ≤ len) }
    ensures { Ok result ≡ outcome (accepted_with mode frame control len) }
{
    let content = frame.content;
    let info_start = control + content.front_len(mode);
    Decoded {
        frame,
        info_start,
        info_len: len - info_start,
    }
}

// A frame of a kind without a PID: XID and TEST have info.
fn without_pid(mode: Mode, frame: Ax25Frame, control: usize, len: usize) -> Decoded
    requires { control + length (front mode frame.content) ≤ len }
    ensures { Ok result ≡ outcome (accepted_with mode frame control len) }
{
    let content = frame.content;
    if content.has_info() {
        return with_info(mode, frame, control, len);
    }
    Decoded {
        frame,
        info_start: 0,
        info_len: 0,
    }
}

// I and UI carry a PID. The customer asks for this form of the places from where info is told: the content taken apart by let .. else.
fn accepted(mode: Mode, frame: Ax25Frame, control: usize, len: usize) -> Decoded
    requires { control + length (front mode frame.content) ≤ len }
    ensures { Ok result ≡ outcome (accepted_with mode frame control len) }
{
    let content = frame.content;
    let FrameContent::Information(_) = content else {
        let FrameContent::UnnumberedInformation(_) = content else {
            return without_pid(mode, frame, control, len);
        };
        return with_info(mode, frame, control, len);
    };
    with_info(mode, frame, control, len)
}

// The content, from the control octet on, and the frame around it.
fn decode_content(
    mode: Mode,
    bytes: &[u8],
    count: usize,
    control: usize,
) -> Result<Decoded, DecodeError>
    requires { (count ≤ 8) × (14 + 7 * count ≤ length bytes.now) × (control ≤ length bytes.now) }
    ensures { result ≡ outcome (with_content mode bytes.now 0 count control (content_of mode (drop control bytes.now))) }
{
    let content = parse::parse_content(mode, &bytes[control..])?;
    let frame = address_field::parse_frame(bytes, count, content);
    Ok(accepted(mode, frame, control, bytes.len()))
}

// Whether `len` octets hold an address field up to `end` with so many repeaters.
fn holds(len: usize, end: usize, count: usize) -> bool
    ensures { result ≡ holds len end count }
{
    end < len && address_field::has_groups(end + 1, count)
}

// The frame that an outline tells of. An outline of other octets, which tells of more than these hold, is refused with 4.
fn decode_at(mode: Mode, bytes: &[u8], outline: Outline) -> Result<Decoded, DecodeError>
    ensures { result ≡ outcome (decode_at mode bytes.now outline) }
{
    if !holds(bytes.len(), outline.end, outline.route_count) {
        return Err(DecodeError::FrameTooShort { len: bytes.len() });
    }
    decode_content(mode, bytes, outline.route_count, outline.end + 1)
}

// The same from what is known of an input: a refusal stays what it is.
#[tactic(auto, unfolding(decode::specs::Read::refused_with))]
pub fn from_outline(
    mode: Mode,
    bytes: &[u8],
    outline: Result<Outline, DecodeError>,
) -> Result<Decoded, DecodeError>
    ensures { result ≡ outcome (decode_by mode bytes.now outline) }
{
    decode_at(mode, bytes, outline?)
}

// Parse raw bytes into an Ax25Frame if possible. What stands for a refused input is the default of `Decoded`.
pub fn from_bytes(mode: Mode, bytes: &[u8]) -> Result<Decoded, DecodeError>
    ensures { result ≡ outcome (decode mode bytes.now) }
{
    from_outline(mode, bytes, decode::outline_of(mode, bytes))
}
