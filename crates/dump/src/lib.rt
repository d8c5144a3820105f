// What the dumper prints of an octet string, as octets in a lent buffer.
#![tactic(auto)]

ghost use Rattle.std.specs.Prelude.{◌≡◌, true, ◌++◌, ◌≤◌, length};
ghost use Rattle.octets.specs.Outcome.{length_of};
ghost use Rattle.octets.specs.Splice.{splice};
ghost use Rattle.words.specs.Room.{cut};
ghost use Rattle.dump.specs.Dump.{station_lines, content_lines, spelling_lines, frame_text, refusal_text, dump_text, dumped, dump_number};

use answer::Numbered;
use content::FrameContent;
use control::Mode;
use decode::{DecodeError, Decoded};
use frame::Ax25Frame;
use reason::Reason;
use words::page::Page;

mod append; // append.rt: addresses and a route

// Why nothing is written.
#[derive(Clone, Copy, Debug, PartialEq, Eq)]
pub enum DumpError {
    NoRoom,
}

impl Numbered for DumpError {
    ghost number_of = { dump_number };

    fn number(self) -> u32 {
        match self {
            DumpError::NoRoom => 24,
        }
    }
}

fn put_stations(page: &mut Page<512>, frame: Ax25Frame)
    requires { frame.route_count ≤ 8 }
    ensures { page.new ≡ cut 512 (page.old ++ station_lines frame) }
{
    append::put_address(page, b"destination=", frame.destination);
    append::put_address(page, b"\nsource=", frame.source);
    append::put_route(page, b"\nroute=", &frame.route[..frame.route_count]);
    page.put(b"\nmark=");
    page.put(words::mark(frame.command_or_response));
    page.put(b"\n");
}

fn put_content(page: &mut Page<512>, content: FrameContent)
    ensures { page.new ≡ cut 512 (page.old ++ content_lines content) }
{
    page.put(b"kind=");
    page.put(words::kind(content));
    page.put(b"\ncontrol=");
    page.put(&words::control(content));
    page.put(b"\npid=");
    page.put_pid(content);
    page.put(b"\n");
}

fn put_spelling(page: &mut Page<512>, canonical: bool, reason: Reason)
    ensures { page.new ≡ cut 512 (page.old ++ spelling_lines canonical reason) }
{
    page.put(b"canonical=");
    page.put(words::yes_no(canonical));
    page.put(b"\nreason=");
    page.put(words::reason(reason));
    page.put(b"\n");
}

fn put_frame(page: &mut Page<512>, decoded: Decoded, canonical: bool, reason: Reason)
    requires { decoded.frame.route_count ≤ 8 }
    ensures { page.new ≡ cut 512 (page.old ++ frame_text decoded canonical reason) }
{
    let frame = decoded.frame;
    page.put_number(b"answer=", 0, b"\n");
    put_stations(page, frame);
    put_content(page, frame.content);
    page.put_number(b"info_length=", decoded.info_len, b"\n");
    put_spelling(page, canonical, reason);
}

fn put_refusal(page: &mut Page<512>, error: DecodeError)
    ensures { page.new ≡ cut 512 (page.old ++ refusal_text error) }
{
    page.put_number(b"answer=", error.number() as usize, b"\n");
    match error {
        DecodeError::AddressFieldTooShort { start, end } => {
            page.put_number(b"start=", start, b"\n");
            page.put_number(b"end=", end, b"\n");
        }
        DecodeError::FrameTooShort { len } => page.put_number(b"length=", len, b"\n"),
        _ => {}
    }
}

fn put_dump(page: &mut Page<512>, input: &[u8])
    ensures { page.new ≡ cut 512 (page.old ++ dump_text input.now) }
{
    if 4096 < input.len() {
        page.put_number(b"answer=", 50, b"\n");
        return;
    }
    let canonical = spelling::is_canonical(Mode::Short, input);
    let reason = reason::reason_of(Mode::Short, input);
    match reading::from_bytes(Mode::Short, input) {
        Ok(decoded) => put_frame(page, decoded, canonical, reason),
        Err(error) => put_refusal(page, error),
    }
}

// The text, written at the start of `out`; gives its length. Where there is no room for all of it, `out` is left alone.
pub fn dump(input: &[u8], out: &mut [u8]) -> Result<usize, DumpError>
    ensures value { result ≡ dumped (dump_text input.now) (length out.old) }
    ensures out_after { out.new ≡ splice out.old 0 (dump_text input.now) }
    ensures length_in_bounds { length_of result ≤ length out.new }
{
    let mut page = Page::new();
    put_dump(&mut page, input);
    page.write_to(out).ok_or(DumpError::NoRoom)
}
