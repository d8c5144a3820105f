// A day's captures in one call: many parts of one buffer, each with a record that is filled as the single calls answer for it.
#![tactic(auto)]

ghost use Rattle.std.specs.Prelude.{◌≡◌, true, cond, length};
ghost use Rattle.frame.specs.Frame.{default_frame};
ghost use Rattle.decode.specs.Outline.{outline_of};
ghost use Rattle.decode.specs.Read.{decode};
ghost use Rattle.reason.specs.Reason.{is_none};
ghost use Rattle.captures.specs.Capture.{kind_of, part_of, is_inside, answered, outside, filled, filled_all};

use answer::Numbered;
use content::FrameContent;
use control::Mode;
use decode::{DecodeError, Outline};
use frame::Ax25Frame;
use reason::Reason;

// Where a capture lies in the buffer, and what is known of it: the decode number, or 61 where it is not inside the buffer; 1 where it is
// canonical, else 0; the number of its kind.
#[repr(C)]
#[derive(Clone, Copy)]
pub struct CaptureRecord {
    pub start: usize,
    pub length: usize,
    pub number: u32,
    pub canonical: u16,
    pub kind: u16,
}

// The answer for a part that is not inside the buffer.
const OUTSIDE: u32 = 61;

// The number of a kind, as enum ax25_kind of the header has it. No `From`: the kinds are another crate's type, and u16 is std's.
pub fn kind_of(content: FrameContent) -> u16
    ensures { result ≡ kind_of content }
{
    match content {
        FrameContent::Information(_) => 0,
        FrameContent::ReceiveReady(_) => 1,
        FrameContent::ReceiveNotReady(_) => 2,
        FrameContent::Reject(_) => 3,
        FrameContent::SelectiveReject(_) => 4,
        FrameContent::SetAsynchronousBalancedMode(_) => 5,
        FrameContent::SetAsynchronousBalancedModeExtended(_) => 6,
        FrameContent::Disconnect(_) => 7,
        FrameContent::DisconnectedMode(_) => 8,
        FrameContent::UnnumberedAcknowledge(_) => 9,
        FrameContent::FrameReject(_) => 10,
        FrameContent::UnnumberedInformation(_) => 11,
        FrameContent::ExchangeIdentification(_) => 12,
        FrameContent::Test(_) => 13,
        FrameContent::UnknownContent => 14,
    }
}

// The kind of what is refused.
fn default_kind() -> u16
    ensures { result ≡ kind_of default_frame.content }
{
    let nothing = Ax25Frame::default();
    let content = nothing.content;
    kind_of(content)
}

// The kind of the frame that an outline tells of, where it is refused the default one.
fn kind_by(mode: Mode, part: &[u8], outline: Result<Outline, DecodeError>) -> u16
    requires { outline ≡ outline_of mode part.now }
    ensures { result ≡ kind_of (decode mode part.now).frame.content }
{
    let Ok(outline) = outline else {
        return default_kind();
    };
    let control = outline.end + 1;
    let content = parse::parse_content(mode, &part[control..]).unwrap();
    kind_of(content)
}

// 1 where there is no reason against a part, which is where it is canonical.
fn one_if_none(reason: Reason) -> u16
    ensures { result ≡ cond (is_none reason) 1 0 }
{
    u16::from(reason.code() == 0)
}

// The record of a part that is inside, with all three answers from one look at its octets.
fn answered(mode: Mode, input: &[u8], capture: CaptureRecord) -> CaptureRecord
    requires { is_inside (length input.now) capture ≡ true }
    ensures { result ≡ answered mode (part_of input.now capture) capture }
{
    let start = capture.start;
    let end = start + capture.length;
    let part = &input[start..end];
    let judged = reason::judge(mode, part);
    CaptureRecord {
        start,
        length: capture.length,
        number: judged.outline.number(),
        canonical: one_if_none(judged.reason),
        kind: kind_by(mode, part, judged.outline),
    }
}

fn outside(capture: CaptureRecord) -> CaptureRecord
    ensures { result ≡ outside capture }
{
    CaptureRecord {
        start: capture.start,
        length: capture.length,
        number: OUTSIDE,
        canonical: 0,
        kind: default_kind(),
    }
}

// Whether a part is inside a buffer of `len` octets. No sum is formed, so that none can overflow.
fn is_inside(len: usize, capture: CaptureRecord) -> bool
    ensures { result ≡ is_inside len capture }
{
    capture.start <= len && capture.length <= len - capture.start
}

// One record, filled for its part of the input.
pub fn filled(mode: Mode, input: &[u8], capture: CaptureRecord) -> CaptureRecord
    ensures { result ≡ filled mode input.now capture }
{
    if !is_inside(input.len(), capture) {
        return outside(capture);
    }
    answered(mode, input, capture)
}

// All records, where they lie: each by itself, in their order.
pub fn fill(mode: Mode, input: &[u8], records: &mut [CaptureRecord])
    ensures { records.new ≡ filled_all mode input.now records.old }
{
    for capture in records.iter_mut() {
        *capture = filled(mode, input, *capture);
    }
}
