// The words of what the programs print: marks, kinds, yes and no, reasons, hex and the control octet; the page on which a text is put
// together; and a text with a number, put into a lent buffer.
#![tactic(auto)]

ghost use Rattle.std.specs.Prelude.{◌≡◌, ◌++◌, ◌+◌, ◌<◌, ltb, length};
ghost use Rattle.octets.specs.Splice.{splice};
ghost use Rattle.words.specs.Words.{hex_digit, hex, decimal, mark_text, kind_text, has_pid, control_text, yes_no, reason_text};
ghost use Rattle.words.specs.Room.{behind};

use content::FrameContent;
use control::Mode;
use frame::Mark;
use reason::Reason;

pub mod page; // page.rt: the page

#[tactic(auto, unfolding(crate::specs::Words::hex_digit))]
fn hex_digit(d: u8) -> u8
    requires { d < 16 }
    ensures { result ≡ hex_digit d }
{
    if d < 10 { b'0' + d } else { b'a' - 10 + d }
}

// Two digits by value, and no format: that would write to a text that is allocated.
pub fn hex(b: u8) -> [u8; 2]
    ensures { result ≡ hex b }
{
    [hex_digit(b / 16), hex_digit(b % 16)]
}

// Whether three parts from `at` on want over `room`. As in `lent_buffer`, no sum is made that might not fit a usize.
fn lack_room(at: usize, first: usize, second: usize, third: usize, room: usize) -> bool
    ensures { result ≡ ltb room (at + (first + (second + third))) }
{
    if lent_buffer::lacks_room(at, first, room) {
        return true;
    }
    if lent_buffer::lacks_room(at + first, second, room) {
        return true;
    }
    lent_buffer::lacks_room(at + first + second, third, room)
}

// A key, a number and what follows it, put into `out` from `at` on; gives the place behind them. Where they do not fit there whole, nothing
// is written, and the place is `at`. Where a page cuts off what is too long for it, here no length is.
pub fn put_number(out: &mut [u8], at: usize, key: &[u8], n: usize, end: &[u8]) -> usize
    ensures out_after { out.new ≡ splice out.old at (key.now ++ (decimal n ++ end.now)) }
    ensures value { result ≡ behind (length out.old) at (key.now ++ (decimal n ++ end.now)) }
{
    let digits = page::five_digits(n);
    let number = &digits[page::leading(n)..];
    if lack_room(at, key.len(), number.len(), end.len(), out.len()) {
        return at;
    }
    let middle = at + key.len();
    let rest = middle + number.len();
    lent_buffer::put(out, at, key);
    lent_buffer::put(out, middle, number);
    lent_buffer::put(out, rest, end);
    rest + end.len()
}

pub fn mark(mark: Mark) -> &'static [u8]
    ensures { result.now ≡ mark_text mark }
{
    match mark {
        Mark::Command => b"command",
        Mark::Response => b"response",
        Mark::Absent => b"none",
    }
}

pub fn kind(content: FrameContent) -> &'static [u8]
    ensures { result.now ≡ kind_text content }
{
    match content {
        FrameContent::Information(_) => b"I",
        FrameContent::ReceiveReady(_) => b"RR",
        FrameContent::ReceiveNotReady(_) => b"RNR",
        FrameContent::Reject(_) => b"REJ",
        FrameContent::SelectiveReject(_) => b"SREJ",
        FrameContent::SetAsynchronousBalancedMode(_) => b"SABM",
        FrameContent::SetAsynchronousBalancedModeExtended(_) => b"SABME",
        FrameContent::Disconnect(_) => b"DISC",
        FrameContent::DisconnectedMode(_) => b"DM",
        FrameContent::UnnumberedAcknowledge(_) => b"UA",
        FrameContent::FrameReject(_) => b"FRMR",
        FrameContent::UnnumberedInformation(_) => b"UI",
        FrameContent::ExchangeIdentification(_) => b"XID",
        FrameContent::Test(_) => b"TEST",
        FrameContent::UnknownContent => b"-",
    }
}

// The control octet as re-encoded.
pub fn control(content: FrameContent) -> [u8; 2]
    ensures { result ≡ control_text content }
{
    let front = content.front(Mode::Short);
    hex(front[0])
}

pub(crate) fn has_pid(content: FrameContent) -> bool
    ensures { result ≡ has_pid content }
{
    matches!(
        content,
        FrameContent::Information(_) | FrameContent::UnnumberedInformation(_)
    )
}

// The dumper's word for a flag: bool's own `Display` has other words.
pub fn yes_no(yes: bool) -> &'static [u8]
    ensures { result.now ≡ yes_no yes }
{
    if yes { b"yes" } else { b"no" }
}

pub fn reason(reason: Reason) -> &'static [u8]
    ensures { result.now ≡ reason_text reason }
{
    match reason {
        Reason::None => b"none",
        Reason::Leftover => b"leftover",
        Reason::Marks => b"marks",
        Reason::Tail => b"tail",
        Reason::Fixed => b"fixed",
        Reason::Refused => b"-",
    }
}
