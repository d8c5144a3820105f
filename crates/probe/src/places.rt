// The places of a decode: the details of a refusal, and where the info stands.
ghost use Rattle.std.specs.Prelude.{◌≡◌, ◌≤◌, [], ◌∷◌, get_or, length};
ghost use Rattle.octets.specs.Splice.{splice};
ghost use Rattle.decode.specs.Answer.{error_report};

use decode::DecodeError;

// The details of a refusal: the start and the end of number 3, the length of number 4.
pub(crate) fn details(error: DecodeError) -> [usize; 3]
    ensures { result ≡ (error_report error).start ∷ (error_report error).end ∷ (error_report error).len ∷ [] }
{
    match error {
        DecodeError::AddressFieldTooShort { start, end } => [start, end, 0],
        DecodeError::FrameTooShort { len } => [0, 0, len],
        _ => [0, 0, 0],
    }
}

// The details, then the place of the info.
pub(crate) fn put_places(
    places: &mut [usize],
    details: [usize; 3],
    info_start: usize,
    info_len: usize,
)
    requires { 5 ≤ length places.old }
    ensures { places.new ≡ splice places.old 0 (get_or details 0 0 ∷ get_or details 1 0 ∷ get_or details 2 0 ∷ info_start ∷ info_len ∷ []) }
{
    places[0] = details[0];
    places[1] = details[1];
    places[2] = details[2];
    places[3] = info_start;
    places[4] = info_len;
}
