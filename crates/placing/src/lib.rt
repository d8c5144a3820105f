// The group of an address written straight into lent octets: from the address, or from the octets of a group that was read.
#![tactic(auto)]

ghost use Rattle.std.specs.Prelude.{◌≡◌, [], ◌∷◌, ◌+◌, leb, length};
ghost use Rattle.octets.specs.Splice.{splice};
ghost use Rattle.placing.specs.Put.{put_number, put_answer, put_octets, respelled};

use address::Address;
use answer::Numbered;

// Why a group is not written.
#[derive(Clone, Copy, Debug, PartialEq, Eq)]
pub enum PutError {
    NotEncodable,
    NoRoom,
}

impl Numbered for PutError {
    ghost number_of = { put_number };

    fn number(self) -> u32 {
        match self {
            PutError::NotEncodable => 22,
            PutError::NoRoom => 24,
        }
    }
}

// Seven octets stored from `at` on, and whether there is room for them. Where there is none, nothing is stored.
fn store(out: &mut [u8], at: usize, a: u8, b: u8, c: u8, d: u8, e: u8, f: u8, last: u8) -> bool
    ensures value { result ≡ leb (at + 7) (length out.old) }
    ensures out_after { out.new ≡ splice out.old at (a ∷ b ∷ c ∷ d ∷ e ∷ f ∷ last ∷ []) }
{
    let room = out.len();
    if room < 7 {
        return false;
    }
    if room - 7 < at {
        return false;
    }
    out[at] = a;
    out[at + 1] = b;
    out[at + 2] = c;
    out[at + 3] = d;
    out[at + 4] = e;
    out[at + 5] = f;
    out[at + 6] = last;
    true
}

// The group of an address, written straight into `out` from `at` on. A refusal writes nothing.
pub fn put(
    out: &mut [u8],
    at: usize,
    address: Address,
    high_bit: bool,
    final_in_address: bool,
) -> Result<(), PutError>
    ensures value { result ≡ put_answer address at (length out.old) }
    ensures out_after { out.new ≡ splice out.old at (put_octets address high_bit final_in_address) }
{
    if !address.is_encodable() {
        return Err(PutError::NotEncodable);
    }
    let c = address.callsign;
    let last = group::ssid_octet(address.ssid, address.reserved, high_bit, final_in_address);
    if !store(
        out,
        at,
        c[0] << 1,
        c[1] << 1,
        c[2] << 1,
        c[3] << 1,
        c[4] << 1,
        c[5] << 1,
        last,
    ) {
        return Err(PutError::NoRoom);
    }
    Ok(())
}

// The group in the seven octets of `bytes` from `from` on, written anew from `at` on: the group of the address that is read there,
// from octet to octet. Where there are not seven octets, here or there, nothing is written.
pub fn respell(
    out: &mut [u8],
    at: usize,
    bytes: &[u8],
    from: usize,
    high_bit: bool,
    final_in_address: bool,
)
    ensures { out.new ≡ splice out.old at (respelled bytes.now from high_bit final_in_address) }
{
    let len = bytes.len();
    if len < 7 {
        return;
    }
    if len - 7 < from {
        return;
    }
    let read = bytes[from + 6];
    let last = group::ssid_octet(read >> 1, read >> 5, high_bit, final_in_address);
    store(
        out,
        at,
        bytes[from] & 0b1111_1110,
        bytes[from + 1] & 0b1111_1110,
        bytes[from + 2] & 0b1111_1110,
        bytes[from + 3] & 0b1111_1110,
        bytes[from + 4] & 0b1111_1110,
        bytes[from + 5] & 0b1111_1110,
        last,
    );
}
