// The demands as contracts of the code: each function only calls the product's, and its contract is the demand. Together the
// clauses of a contract fix the result, and what is left in a lent buffer, for every input in either mode.
#![tactic(auto)]

ghost use Rattle.std.specs.Prelude.{◌≡◌, true, false, Ok, Err, ◌↔◌, ◌≤◌, ◌<◌, length};
ghost use Rattle.content.specs.declared.FrameContent.TheVariants.{UnknownContent};
ghost use Rattle.decode.specs.Answer.{number_of, report_of, is_accepted};
ghost use Rattle.decode.specs.Numbers.{reported};
ghost use Rattle.decode.specs.Read.{decode};
ghost use Rattle.octets.specs.Outcome.{length_of};
ghost use Rattle.frame.specs.Frame.{write_number, default_frame};
ghost use Rattle.frame.specs.Spell.{spell};
ghost use Rattle.grammar.specs.Stations.{Reserves};
ghost use Rattle.spelling.specs.Canonical.{again, canonical};
ghost use Rattle.decode.specs.declared.DecodeError.{DecodeError};
ghost use Rattle.respelling.specs.declared.ReencodeError.TheVariants.{Refused, NoRoom};
ghost use Rattle.octets.specs.Table.{FirstRow};
ghost use Rattle.demands.specs.Numbers.{decode_table, write_table};
ghost use Rattle.octets.specs.Lent.{starting};
ghost use Rattle.demands.specs.OneSpelling.{Spelled, Respelled};
ghost use Rattle.demands.specs.Unseen.{NothingUnseen};
ghost use Rattle.demands.specs.Old.{OldCapture};
ghost use Rattle.demand_contracts_frames.specs.Shown.{decoding_of, shown_of};

use control::Mode;
use decode::{DecodeError, Decoded};
use frame::{Ax25Frame, WriteError};
use respelling::ReencodeError;

// Demand 3: yes exactly when some plain frame spells the input.
pub fn canonical(mode: Mode, bytes: &[u8]) -> bool
    ensures { (result ≡ true) ↔ Spelled mode bytes.now }
{
    spelling::is_canonical(mode, bytes)
}

// What a decode shows: the answer, and a frame with the place of its info, for which a refusal has the default of `Decoded`. The
// answer stands beside them, since the demand speaks of a refusal's frame (the clause `frame_value`).
#[derive(Clone, Copy)]
pub struct Shown {
    pub answer: Result<(), DecodeError>,
    pub frame: Ax25Frame,
    pub info_start: usize,
    pub info_len: usize,
}

fn show(decoded: Result<Decoded, DecodeError>) -> Shown
    ensures { decoding_of result ≡ shown_of decoded }
{
    let Decoded {
        frame,
        info_start,
        info_len,
    } = decoded.unwrap_or_default();
    let answer = match decoded {
        Ok(_) => Ok(()),
        Err(error) => Err(error),
    };
    Shown {
        answer,
        frame,
        info_start,
        info_len,
    }
}

// Demand 1: the number is that of the first row of the table that holds; the details are the table's; a refusal is the default
// frame with no info; nothing is read as `UnknownContent`. Document 02, M-106: the stations of an accepted frame have the reserved bits
// of their groups. Demand 2: all else is as the rules read it.
pub fn decoded(mode: Mode, bytes: &[u8]) -> Shown
    ensures first_row { FirstRow (decode_table mode bytes.now) (number_of result.answer) }
    ensures answer_value { report_of result.answer ≡ reported mode bytes.now }
    ensures frame_value { is_accepted result.answer ≡ false → (result.frame ≡ default_frame) × (result.info_start ≡ 0) × (result.info_len ≡ 0) }
    ensures fact { result.frame.content ≡ UnknownContent → ⊥ }
    ensures reserves { is_accepted result.answer ≡ true → Reserves bytes.now result.frame }
    ensures value { decoding_of result ≡ decode mode bytes.now }
{
    show(reading::from_bytes(mode, bytes))
}

// Document 02, M-108: an old capture is read as it was before leading nulls were refused, and 10 is never given.
pub fn old_capture(mode: Mode, capture: &[u8]) -> Shown
    ensures { OldCapture mode capture.now (decoding_of result) }
{
    show(old_captures::from_bytes(mode, capture))
}

// Demand 1: so for the number of writing, and a refusal has length 0 and leaves the buffer as it was. Demand 2: an accepted frame
// stands at the start of the buffer as it spells, with that length, and the octets beyond it stay.
pub fn written(
    mode: Mode,
    frame: Ax25Frame,
    info: &[u8],
    out: &mut [u8],
) -> Result<usize, WriteError>
    ensures first_row { FirstRow (write_table mode frame info.now (length out.old)) (write_number result) }
    ensures length_value { (write_number result ≡ 0 → ⊥) → (length_of result ≡ 0) × (out.new ≡ out.old) }
    ensures length_value_2 { write_number result ≡ 0 → (length_of result ≡ length (spell mode frame info.now))
        × (out.new ≡ starting (spell mode frame info.now) out.old) }
{
    frame.to_bytes(mode, info, out)
}

// Demand 1: a refused input is answered by its decode's number and details, and too little room by 24; both have no length and leave the
// buffer as it was. Demand 3: else the respelling stands at the start of the buffer, with its length, and the octets beyond it stay;
// an accepted input's respelling is canonical, no longer than the input, and means the same.
pub fn respelled(mode: Mode, bytes: &[u8], out: &mut [u8]) -> Result<usize, ReencodeError>
    ensures answer_value { (r : DecodeError) → (decode mode bytes.now).answer ≡ Err r
        → (result ≡ Err (Refused r)) × (out.new ≡ out.old) }
    ensures answer_value_2 { is_accepted (decode mode bytes.now).answer ≡ true → length out.old < length (again mode bytes.now)
        → (result ≡ Err NoRoom) × (out.new ≡ out.old) }
    ensures answer_value_3 { is_accepted (decode mode bytes.now).answer ≡ true → length (again mode bytes.now) ≤ length out.old
        → (result ≡ Ok (length (again mode bytes.now)))
        × (out.new ≡ starting (again mode bytes.now) out.old) }
    ensures respelled { is_accepted (decode mode bytes.now).answer ≡ true → Respelled mode bytes.now (again mode bytes.now) }
{
    respelling::reencode(mode, bytes, out)
}

// What the radio desk has of an input: whether it is canonical, and what is decoded of it.
#[derive(Clone, Copy)]
pub struct Looked {
    pub canonical: bool,
    pub decoded: Shown,
}

#[derive(Clone, Copy)]
pub struct Pair {
    pub one: Looked,
    pub other: Looked,
}

// Document 02, M-107: where the one input is canonical, `NothingUnseen` holds of it and the other. All is as the definitions say.
pub fn compared(mode: Mode, one: &[u8], other: &[u8]) -> Pair
    ensures nothing_unseen { result.one.canonical ≡ true
        → NothingUnseen mode one.now (decoding_of result.one.decoded) other.now (decoding_of result.other.decoded) result.other.canonical }
    ensures canonical_value { (result.one.canonical ≡ canonical mode one.now) × (decoding_of result.one.decoded ≡ decode mode one.now)
        × (result.other.canonical ≡ canonical mode other.now) × (decoding_of result.other.decoded ≡ decode mode other.now) }
{
    Pair {
        one: Looked {
            canonical: spelling::is_canonical(mode, one),
            decoded: decoded(mode, one),
        },
        other: Looked {
            canonical: spelling::is_canonical(mode, other),
            decoded: decoded(mode, other),
        },
    }
}
