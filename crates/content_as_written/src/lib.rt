// Whether content is just as writing gives it: the bits that reading ignores are zero, and there is no tail. Of I, UI, XID and TEST every
// octet is written as it was read.
#![tactic(auto)]

ghost use Rattle.std.specs.Prelude.{◌≡◌, get_or};
ghost use Rattle.parse.specs.Numbers.{is_i, is_s};
ghost use Rattle.content_as_written.specs.AsWritten.{frmr_tidy, s_tidy, is_tidy, u_tail, has_tail};

use control::Mode;

// An octet, or 0 past the end.
fn octet(bytes: &[u8], at: usize) -> u8
    ensures { result ≡ get_or bytes.now at 0 }
{
    bytes.get(at).copied().unwrap_or(0)
}

fn frmr_tidy(flags: u8, sequences: u8) -> bool
    ensures { result ≡ frmr_tidy flags sequences }
{
    flags & 0b1111_0000 == 0 && sequences & 0b0000_0001 == 0
}

fn is_i(control: u8) -> bool
    ensures { result ≡ is_i control }
{
    control & 0b0000_0001 == 0
}

fn is_s(control: u8) -> bool
    ensures { result ≡ is_s control }
{
    control & 0b0000_0011 == 0b0000_0001
}

fn s_tidy(mode: Mode, control: u8) -> bool
    ensures { result ≡ s_tidy mode control }
{
    match mode {
        Mode::Short => true,
        Mode::Long => control < 16,
    }
}

// Whether the bits that reading ignores are zero, in content that it accepts: those of FRMR, and in the long mode those of S. What is missing
// counts as 0 here, and nothing is refused.
pub fn is_tidy(mode: Mode, bytes: &[u8]) -> bool
    ensures { result ≡ is_tidy mode bytes.now }
{
    let control = octet(bytes, 0);
    if is_s(control) {
        return s_tidy(mode, control);
    }
    let kind = control & 0b1110_1111;
    if kind != 0b1000_0111 {
        return true;
    }
    frmr_tidy(octet(bytes, 1), octet(bytes, 2))
}

// So many octets of a U frame: UI, XID, TEST and FRMR have no tail.
fn u_has_tail(control: u8, len: usize) -> bool
    ensures { result ≡ u_tail control len }
{
    match control & 0b1110_1111 {
        0b0000_0011 | 0b1010_1111 | 0b1110_0011 | 0b1000_0111 => false,
        _ => 1 < len,
    }
}

// Whether octets follow a kind without info, in content that reading accepts. Of other content the answer says nothing, and nothing is
// refused.
pub fn has_tail(mode: Mode, bytes: &[u8]) -> bool
    ensures { result ≡ has_tail mode bytes.now }
{
    let control = octet(bytes, 0);
    if is_i(control) {
        return false;
    }
    if is_s(control) {
        return mode.controls() < bytes.len();
    }
    u_has_tail(control, bytes.len())
}
