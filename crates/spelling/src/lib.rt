// One spelling: the canonical check.
#![tactic(auto)]

ghost use Rattle.std.specs.Prelude.{◌≡◌};
ghost use Rattle.spelling.specs.Canonical.{canonical};

use control::Mode;
use reason::Reason;

// Whether the octets are the one spelling of a frame: whether there is no reason against it.
pub fn is_canonical(mode: Mode, bytes: &[u8]) -> bool
    ensures { result ≡ canonical mode bytes.now }
{
    let reason = reason::reason_of(mode, bytes);
    let Reason::None = reason else {
        return false;
    };
    true
}
