// Writing content into a lent buffer.
#![tactic(auto)]

ghost use Rattle.std.specs.Prelude.{◌≡◌, ◌+◌, length};
ghost use Rattle.octets.specs.Splice.{splice};
ghost use Rattle.content.specs.Spell.{front};
ghost use Rattle.encoding.specs.Encode.{error_number, judged, encode_of, encoded};

use answer::Numbered;
use content::FrameContent;
use control::Mode;

// Why content is not written.
#[derive(Clone, Copy, Debug, PartialEq, Eq)]
pub enum EncodeError {
    FrameRejectInLongMode,
    InfoNotAllowed,
    PidOutsideClass,
    NoRoom,
}

impl Numbered for EncodeError {
    ghost number_of = { error_number };

    fn number(self) -> u32 {
        match self {
            EncodeError::FrameRejectInLongMode => 11,
            EncodeError::InfoNotAllowed => 23,
            EncodeError::PidOutsideClass => 25,
            EncodeError::NoRoom => 24,
        }
    }
}

// Whether content with info of this length is written, where `head` octets stand before the info: of the content, or of a whole frame.
pub fn judge(
    mode: Mode,
    content: FrameContent,
    head: usize,
    carried: usize,
    room: usize,
) -> Result<(), EncodeError>
    ensures { result ≡ judged mode content carried (head + carried) room }
{
    if content.long_frmr(mode) {
        return Err(EncodeError::FrameRejectInLongMode);
    }
    if content.stray_info(carried) {
        return Err(EncodeError::InfoNotAllowed);
    }
    if content.stray_pid() {
        return Err(EncodeError::PidOutsideClass);
    }
    if lent_buffer::lacks_room(head, carried, room) {
        return Err(EncodeError::NoRoom);
    }
    Ok(())
}

// The octets before the info, from the start of `out` on.
fn put_front(mode: Mode, content: FrameContent, out: &mut [u8]) -> usize
    ensures value { result ≡ length (front mode content) }
    ensures out_after { out.new ≡ splice out.old 0 (front mode content) }
{
    let n = content.front_len(mode);
    let octets = content.front(mode);
    // The usual lengths by their own stores: quicker than a copy whose length is not known.
    if n == 2 {
        lent_buffer::put(out, 0, &octets[..2]);
    } else if n == 1 {
        lent_buffer::put(out, 0, &octets[..1]);
    } else {
        lent_buffer::put(out, 0, &octets[..n]);
    }
    n
}

// The content's octets, then the lent info, from the start of `out` on, and how many they are. A refusal writes nothing.
pub fn encode(
    mode: Mode,
    content: FrameContent,
    info: &[u8],
    out: &mut [u8],
) -> Result<usize, EncodeError>
    ensures value { result ≡ encode_of mode content (length info.now) (length out.old) }
    ensures out_after { out.new ≡ splice out.old 0 (encoded mode content info.now (length out.old)) }
{
    judge(
        mode,
        content,
        content.front_len(mode),
        info.len(),
        out.len(),
    )?;
    let n = put_front(mode, content, out);
    lent_buffer::put(out, n, info);
    Ok(n + info.len())
}
