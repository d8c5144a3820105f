// The canonical check and re-encoding in either mode, for the second model in C and for nothing else: the calls of C for these have the short
// mode alone. A mode is a number: 0 is the short one, any other the long one. They stand apart from `probe` so that its archive is compiled as
// it was: whatever else calls the outline keeps the compiler from making it a part of the decoder there.
#![tactic(auto)]

ghost use Rattle.std.specs.Prelude.{◌≡◌, cond, length as list_length};
ghost use Rattle.octets.specs.Outcome.{number_by, length_of};
ghost use Rattle.octets.specs.Splice.{splice};
ghost use Rattle.control.specs.Mode.{mode_of};
ghost use Rattle.spelling.specs.Canonical.{canonical};
ghost use Rattle.respelling.specs.Reencode.{reencode, reencoded, error_number};

use answer::Numbered;
use control::Mode;

// 1 where the input is canonical, else 0.
#[unsafe(no_mangle)]
pub extern "C" fn probe_canonical(mode: u32, input: &[u8]) -> u32
    ensures { result ≡ cond (canonical (mode_of mode) input.now) 1 0 }
{
    if spelling::is_canonical(Mode::from(mode), input) {
        1
    } else {
        0
    }
}

// Re-encodes: the number, the octets, and their count.
#[unsafe(no_mangle)]
pub extern "C" fn probe_reencode(
    mode: u32,
    input: &[u8],
    output: &mut [u8],
    length: &mut usize,
) -> u32
    ensures value { result ≡ number_by error_number (reencode (mode_of mode) input.now (list_length output.old)) }
    ensures output_after { output.new ≡ splice output.old 0 (reencoded (mode_of mode) input.now (list_length output.old)) }
    ensures length_after { length.new ≡ length_of (reencode (mode_of mode) input.now (list_length output.old)) }
{
    let done = respelling::reencode(Mode::from(mode), input, output);
    *length = done.unwrap_or(0);
    done.number()
}
