// What reading a frame gives, and its outline: what is known from the octets before anything is taken apart. The crate `reading` goes on
// from there.
#![tactic(auto)]

ghost use Rattle.std.specs.Prelude.{◌≡◌, ◌≤◌, ◌<◌, length, get_or};
ghost use Rattle.decode.specs.Answer.{error_number};
ghost use Rattle.decode.specs.Outline.{null_error, outline_by, outline_of};
ghost use Rattle.decode.specs.Read.{nonzero, error_of, decode_field};

use answer::Numbered;
use control::Mode;
use frame::Ax25Frame;
use parse::ContentError;

// Why an input is refused.
#[derive(Clone, Copy, Debug, PartialEq, Eq)]
pub enum DecodeError {
    OnlyNullBytes,
    NoEndToAddressField,
    AddressFieldTooShort { start: usize, end: usize },
    FrameTooShort { len: usize },
    MissingPidField,
    UnrecognisedUFieldType,
    WrongSizeFrmrInfo,
    TooManyRepeaters,
    LeadingNullBytes,
    FrameRejectInLongMode,
    MissingControlOctet,
}

// What reading gives of an input that is not refused. The info is `info_len` octets of the input from `info_start` on.
#[derive(Clone, Copy)]
pub struct Decoded {
    pub frame: Ax25Frame,
    pub info_start: usize,
    pub info_len: usize,
}

// What stands for a refused input: the default frame, and no info.
impl Default for Decoded {
    ghost use Rattle.decode.specs.Read.{nothing};

    ghost is_default = { λ decoded. decoded ≡ nothing };

    fn default() -> Decoded {
        Decoded {
            frame: Ax25Frame::default(),
            info_start: 0,
            info_len: 0,
        }
    }
}

// What is known before anything is taken apart: where the address field, which starts with the first octet, ends, and how many repeaters
// it has. The decode number and the canonical check ask for no more.
#[derive(Clone, Copy)]
pub struct Outline {
    pub end: usize,
    pub route_count: usize,
}

impl Numbered for DecodeError {
    ghost number_of = { error_number };

    fn number(self) -> u32 {
        match self {
            DecodeError::OnlyNullBytes => 1,
            DecodeError::NoEndToAddressField => 2,
            DecodeError::AddressFieldTooShort { .. } => 3,
            DecodeError::FrameTooShort { .. } => 4,
            DecodeError::MissingPidField => 5,
            DecodeError::UnrecognisedUFieldType => 7,
            DecodeError::WrongSizeFrmrInfo => 8,
            DecodeError::TooManyRepeaters => 9,
            DecodeError::LeadingNullBytes => 10,
            DecodeError::FrameRejectInLongMode => 11,
            DecodeError::MissingControlOctet => 12,
        }
    }
}

// What the content's refusal is to the frame.
impl From<ContentError> for DecodeError {
    ghost from_gives = { λ error gives. gives ≡ error_of error };

    fn from(error: ContentError) -> DecodeError {
        match error {
            ContentError::ContentZeroLength => DecodeError::FrameTooShort { len: 0 },
            ContentError::MissingPidField => DecodeError::MissingPidField,
            ContentError::UnrecognisedUFieldType => DecodeError::UnrecognisedUFieldType,
            ContentError::WrongSizeFrmrInfo => DecodeError::WrongSizeFrmrInfo,
            ContentError::FrameRejectInLongMode => DecodeError::FrameRejectInLongMode,
            ContentError::MissingControlOctet => DecodeError::MissingControlOctet,
        }
    }
}

// The address field, from the first octet to the end, and what follows.
fn outline_field(mode: Mode, bytes: &[u8], end: usize) -> Result<Outline, DecodeError>
    requires { end < length bytes.now }
    ensures { result ≡ outline_by end (decode_field mode bytes.now 0 end) }
{
    let control = end + 1;
    if control < 14 {
        return Err(DecodeError::AddressFieldTooShort { start: 0, end });
    }
    if control == bytes.len() {
        return Err(DecodeError::FrameTooShort { len: bytes.len() });
    }
    let route_count = (control - 14) / 7;
    if 8 < route_count {
        return Err(DecodeError::TooManyRepeaters);
    }
    parse::judge(mode, &bytes[control..])?;
    Ok(Outline { end, route_count })
}

// Whether there is a first octet, and it is not null.
fn starts(bytes: &[u8]) -> bool
    ensures { result ≡ nonzero (get_or bytes.now 0 0) }
{
    bytes.first().copied().unwrap_or(0) != 0
}

// The refusal where the first octet is not there or null: 1 where all are null, else 10.
fn null_error(bytes: &[u8]) -> DecodeError
    ensures { result ≡ null_error bytes.now }
{
    let nulls = search::find(bytes, 0xFF);
    if nulls == bytes.len() {
        return DecodeError::OnlyNullBytes;
    }
    DecodeError::LeadingNullBytes
}

// All that is known before anything is taken apart. Octets that do not start with a null are searched for the end alone.
pub fn outline_of(mode: Mode, bytes: &[u8]) -> Result<Outline, DecodeError>
    ensures { result ≡ outline_of mode bytes.now }
{
    if !starts(bytes) {
        return Err(null_error(bytes));
    }
    let end = search::find(bytes, 0x01);
    if end == bytes.len() {
        return Err(DecodeError::NoEndToAddressField);
    }
    outline_field(mode, bytes, end)
}
