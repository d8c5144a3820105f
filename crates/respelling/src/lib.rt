// Re-encoding: what a frame decoded and written again would be, from the input's octets straight into the output's. No frame is built.
#![tactic(auto)]

ghost use Rattle.std.specs.Prelude.{◌≡◌, Ok, ◌+◌, ◌-◌, ◌*◌, ◌≤◌, length};
ghost use Rattle.octets.specs.Splice.{splice};
ghost use Rattle.frame.specs.Spell.{groups_of, destination_mark, address_field};
ghost use Rattle.decode.specs.Read.{end_of, route_at, command_of, decode};
ghost use Rattle.decode.specs.Outline.{outline_of};
ghost use Rattle.grammar.specs.Kept.{kept_of};
ghost use Rattle.respelling.specs.Reencode.{due, reencode, reencoded, error_number};
ghost use Rattle.respelling.specs.declared.ReencodeError.TheVariants.{Refused};

use answer::Numbered;
use content::FrameContent;
use control::Mode;
use decode::{DecodeError, Outline};

// Why an input is not re-encoded.
#[derive(Clone, Copy, Debug, PartialEq, Eq)]
pub enum ReencodeError {
    Refused(DecodeError),
    NoRoom,
}

impl Numbered for ReencodeError {
    ghost number_of = { error_number };

    fn number(self) -> u32 {
        match self {
            ReencodeError::Refused(error) => error.number(),
            ReencodeError::NoRoom => 24,
        }
    }
}

impl From<DecodeError> for ReencodeError {
    ghost from_gives = { λ error gives. gives ≡ Refused error };

    fn from(error: DecodeError) -> ReencodeError {
        ReencodeError::Refused(error)
    }
}

// The content of an accepted input with this outline.
// That the outline is of these octets is asked here, of the two that write, and in relay. A struct of both with a ghost field would say no
// more, and each call would build it anew.
fn content_at(mode: Mode, bytes: &[u8], outline: Outline) -> FrameContent
    requires { Ok outline ≡ outline_of mode bytes.now }
    ensures { result ≡ (decode mode bytes.now).frame.content }
{
    parse::parse_content(mode, &bytes[outline.end + 1..]).unwrap()
}

// How many of the `rest` octets after the address field are kept.
fn kept_of(mode: Mode, content: FrameContent, rest: usize) -> usize
    ensures { result ≡ kept_of mode content rest }
{
    if content.has_info() {
        return rest;
    }
    content.front_len(mode)
}

// How many octets re-encoding gives; 0 where the input is refused.
pub fn reencoded_length(mode: Mode, bytes: &[u8]) -> usize
    ensures { result ≡ length (due mode bytes.now) }
{
    let Ok(outline) = decode::outline_of(mode, bytes) else {
        return 0;
    };
    let control = outline.end + 1;
    let content = content_at(mode, bytes, outline);
    14 + 7 * outline.route_count + kept_of(mode, content, bytes.len() - control)
}

// The mark of the destination, by the marks that were read; that of the source is the other.
fn written_mark(to: bool, from: bool) -> bool
    ensures { result ≡ destination_mark (command_of to from) }
{
    to || !from
}

// The groups of the repeaters; the last alone has the end bit.
fn put_route(out: &mut [u8], bytes: &[u8], count: usize)
    requires { (count ≤ 8) × (14 + 7 * count ≤ length bytes.now) × (14 + 7 * count ≤ length out.old) }
    ensures { out.new ≡ splice out.old 14 (groups_of (route_at bytes.now 14 count) count count) }
{
    for i in 0..count {
        let at = 14 + 7 * i;
        let mark = group::mark_set(bytes[at + 6]);
        placing::respell(out, at, bytes, at, mark, i + 1 == count);
    }
}

// The address field of an accepted input with this outline: destination, source, repeaters.
fn put_addresses(mode: Mode, out: &mut [u8], bytes: &[u8], outline: Outline)
    requires { (Ok outline ≡ outline_of mode bytes.now) × (14 + 7 * outline.route_count ≤ length out.old) }
    ensures { out.new ≡ splice out.old 0 (address_field (decode mode bytes.now).frame) }
{
    let to = group::mark_set(bytes[6]);
    let from = group::mark_set(bytes[13]);
    let mark = written_mark(to, from);
    let count = outline.route_count;
    placing::respell(out, 0, bytes, 0, mark, false);
    placing::respell(out, 7, bytes, 7, !mark, count == 0);
    put_route(out, bytes, count);
}

// The whole of an accepted input with this outline and content, once there is room.
fn put_due(
    mode: Mode,
    out: &mut [u8],
    bytes: &[u8],
    outline: Outline,
    content: FrameContent,
    kept: usize,
)
    requires { (Ok outline ≡ outline_of mode bytes.now) × (content ≡ (decode mode bytes.now).frame.content) × (kept ≡ kept_of mode content (length bytes.now - (end_of bytes.now + 1))) × (length (due mode bytes.now) ≤ length out.old) }
    ensures { out.new ≡ splice out.old 0 (due mode bytes.now) }
{
    put_addresses(mode, out, bytes, outline);
    let control = outline.end + 1;
    let start = control + content.front_len(mode);
    let end = control + kept;
    let at = 14 + 7 * outline.route_count;
    encoding::encode(mode, content, &bytes[start..end], &mut out[at..]).unwrap();
}

// The frame decoded and written again. Not for forwarding: what re-encoding changes is listed in README.md.
pub fn reencode(mode: Mode, bytes: &[u8], out: &mut [u8]) -> Result<usize, ReencodeError>
    ensures value { result ≡ reencode mode bytes.now (length out.old) }
    ensures out_after { out.new ≡ splice out.old 0 (reencoded mode bytes.now (length out.old)) }
{
    let outline = decode::outline_of(mode, bytes)?;
    let control = outline.end + 1;
    let content = content_at(mode, bytes, outline);
    let kept = kept_of(mode, content, bytes.len() - control);
    let length = 14 + 7 * outline.route_count + kept;
    if out.len() < length {
        return Err(ReencodeError::NoRoom);
    }
    put_due(mode, out, bytes, outline, content, kept);
    Ok(length)
}
