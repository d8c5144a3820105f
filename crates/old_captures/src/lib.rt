// Captures that were taken before a leading null was refused: the nulls before a frame are skipped, and the rest is read as the decoder
// reads it. Nothing else in the box reads so.
#![tactic(auto)]

ghost use Rattle.std.specs.Prelude.{◌≡◌, Result, Ok, Err, ◌+◌, ◌^◌, ◌≤◌, ◌<◌};
ghost use Rattle.decode.specs.Answer.{error_report};
ghost use Rattle.decode.specs.Read.{outcome};
ghost use Rattle.grammar.specs.Moved.{moved_error, moved_info};
ghost use Rattle.old_captures.specs.Old.{decode_old};

use control::Mode;
use decode::{DecodeError, Decoded};

// A refusal of what follows the first `nulls` of `len` octets, with its places in the whole.
fn moved_error(error: DecodeError, nulls: usize, len: usize) -> DecodeError
    requires { (nulls + (error_report error).start ≤ len) × (nulls + (error_report error).end ≤ len) }
    ensures { result ≡ moved_error nulls len error }
{
    match error {
        DecodeError::AddressFieldTooShort { start, end } => DecodeError::AddressFieldTooShort {
            start: nulls + start,
            end: nulls + end,
        },
        DecodeError::FrameTooShort { .. } => DecodeError::FrameTooShort { len },
        _ => error,
    }
}

// Where info starts in the whole; 0 where there is none.
fn moved_info(at: usize, nulls: usize) -> usize
    requires { nulls + at < 2 ^ 64 }
    ensures { result ≡ moved_info nulls at }
{
    if at == 0 {
        return 0;
    }
    nulls + at
}

// The answer alone.
pub fn answer_of(mode: Mode, capture: &[u8]) -> Result<(), DecodeError>
    ensures { result ≡ (decode_old mode capture.now).answer }
{
    let nulls = search::find(capture, 0xFF);
    match decode::outline_of(mode, &capture[nulls..]) {
        Ok(_) => Ok(()),
        Err(error) => Err(moved_error(error, nulls, capture.len())),
    }
}

// The frame after the nulls, and where its info stands in the capture.
pub fn from_bytes(mode: Mode, capture: &[u8]) -> Result<Decoded, DecodeError>
    ensures { result ≡ outcome (decode_old mode capture.now) }
{
    let nulls = search::find(capture, 0xFF);
    match reading::from_bytes(mode, &capture[nulls..]) {
        Ok(decoded) => Ok(Decoded {
            info_start: moved_info(decoded.info_start, nulls),
            ..decoded
        }),
        Err(error) => Err(moved_error(error, nulls, capture.len())),
    }
}
