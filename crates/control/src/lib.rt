// The control field: how its numbers are counted, and its octets, put together and taken apart by masks and shifts. So are FRMR's flags and
// its copy of a control field's numbers.
#![tactic(auto)]

ghost use Rattle.std.specs.Prelude.{◌≡◌, cond, [], ◌∷◌, ◌++◌, ◌%◌};
ghost use Rattle.control.specs.Mode.{mode_of, controls};
ghost use Rattle.control.specs.Control.{u_kind, fields_in};
ghost use Rattle.control.specs.Spell.{numbered, received, sent, sequenced, unnumbered, flags, four};

// How the sequence numbers of I and S frames are counted: modulo 8, in one control octet, or modulo 128, in two. A frame does not tell
// which; the caller knows it.
#[derive(Clone, Copy, Debug, PartialEq, Eq)]
pub enum Mode {
    Short,
    Long,
}

// What a control field tells beside its kind: N(R), N(S) and the P/F bit. S frames have no N(S), and nobody asks for theirs.
#[derive(Clone, Copy, Debug, PartialEq, Eq)]
pub struct Fields {
    pub receive: u8,
    pub send: u8,
    pub poll: bool,
}

// The mode by its number: 0 is the short one, any other the long one.
impl From<u32> for Mode {
    ghost from_gives = { λ number mode. mode ≡ mode_of number };

    #[tactic(auto, unfolding(crate::specs::Mode::mode_of))]
    fn from(number: u32) -> Mode {
        if number == 0 { Mode::Short } else { Mode::Long }
    }
}

impl Mode {
    // How many control octets an I or S frame has.
    pub fn controls(self) -> usize
        ensures { result ≡ controls self }
    {
        match self {
            Mode::Short => 1,
            Mode::Long => 2,
        }
    }
}

// The fields of a control octet of the short mode, and of FRMR's copy of one.
pub fn short_fields(c: u8) -> Fields
    ensures { result ≡ fields_in Mode.Short (c ∷ []) }
{
    Fields {
        receive: (c & 0b1110_0000) >> 5,
        send: (c & 0b0000_1110) >> 1,
        poll: (c & 0b0001_0000) != 0,
    }
}

// The fields of the two control octets of the long mode.
pub fn long_fields(first: u8, second: u8) -> Fields
    ensures { result ≡ fields_in Mode.Long (first ∷ second ∷ []) }
{
    Fields {
        receive: second >> 1,
        send: first >> 1,
        poll: (second & 0b0000_0001) != 0,
    }
}

fn bit_if(on: bool, value: u8) -> u8
    ensures { result ≡ cond on value 0 }
{
    if on { value } else { 0 }
}

// N(R) in bits 5 to 7, the bit 4, and the low four bits of `low`.
fn numbered(receive: u8, on: bool, low: u8) -> u8
    ensures { result ≡ numbered receive on (low % 16) }
{
    ((receive & 0b0000_0111) << 5) | bit_if(on, 1 << 4) | (low & 0b0000_1111)
}

// N(R) in bits 1 to 7, the bit 0.
fn received(receive: u8, on: bool) -> u8
    ensures { result ≡ received receive on }
{
    ((receive & 0b0111_1111) << 1) | bit_if(on, 1)
}

// N(S) from bit 1 on.
fn sent(mode: Mode, send: u8) -> u8
    ensures { result ≡ sent mode send }
{
    match mode {
        Mode::Short => (send & 0b0000_0111) << 1,
        Mode::Long => (send & 0b0111_1111) << 1,
    }
}

// The control octet of a short I frame, and FRMR's copy of one.
pub fn i_octet(receive: u8, on: bool, send: u8) -> u8
    ensures { result ≡ numbered receive on (sent Mode.Short send) }
{
    numbered(receive, on, sent(Mode::Short, send))
}

// The octets before the info of an I frame, zeros after them.
pub fn i_front(mode: Mode, receive: u8, on: bool, send: u8, pid: u8) -> [u8; 4]
    ensures { result ≡ four (sequenced mode receive on (sent mode send) ++ (pid ∷ [])) }
{
    match mode {
        Mode::Short => [i_octet(receive, on, send), pid, 0, 0],
        Mode::Long => [sent(Mode::Long, send), received(receive, on), pid, 0],
    }
}

// The control field of an S frame whose type is the low four bits of `kind`, zeros after it.
pub fn s_front(mode: Mode, receive: u8, on: bool, kind: u8) -> [u8; 4]
    ensures { result ≡ four (sequenced mode receive on (kind % 16)) }
{
    match mode {
        Mode::Short => [numbered(receive, on, kind), 0, 0, 0],
        Mode::Long => [kind & 0b0000_1111, received(receive, on), 0, 0],
    }
}

// The kind's bits with the bit 4.
pub fn unnumbered(kind: u8, on: bool) -> u8
    ensures { result ≡ unnumbered (u_kind kind) on }
{
    (kind & 0b1110_1111) | bit_if(on, 1 << 4)
}

// FRMR's octet of Z, Y, X and W.
pub fn flags(z: bool, y: bool, x: bool, w: bool) -> u8
    ensures { result ≡ flags z y x w }
{
    bit_if(z, 1 << 3) | bit_if(y, 1 << 2) | bit_if(x, 1 << 1) | bit_if(w, 1)
}
