// What document 02, M-100 and M-102, asks of relaying as contracts of the code, as in `demand_contracts_frames`.
#![tactic(auto)]

ghost use Rattle.std.specs.Prelude.{◌≡◌, true, ◌↔◌};
ghost use Rattle.decode.specs.Read.{decode, outcome, info_in};
ghost use Rattle.hops.specs.Hops.{due_place};
ghost use Rattle.relay.specs.Relay.{report_of, relay_answer, relayed};
ghost use Rattle.spelling.specs.Canonical.{canonical};
ghost use Rattle.octets.specs.Table.{FirstRow};
ghost use Rattle.demands.specs.Due.{FirstUnmarked, InOrder};
ghost use Rattle.demands.specs.Relay.{relay_table, frame_marked, Relayed, Again};

use address::Address;
use control::Mode;
use decode::{DecodeError, Decoded};
use frame::Ax25Frame;
use relay::RelayError;

// The number is that of the first row of the table that holds; a refusal leaves the frame as it was; what is relayed has our mark,
// and all else is as it was received.
pub fn relayed(own: Address, frame: &mut [u8]) -> Result<(), RelayError>
    ensures first_row { FirstRow (relay_table own frame.old) (report_of result).number }
    ensures frame_unchanged { ((report_of result).number ≡ 0 → ⊥) → frame.new ≡ frame.old }
    ensures relayed { (report_of result).number ≡ 0 → Relayed frame.old frame.new }
    ensures value { result ≡ relay_answer own frame.old }
    ensures frame_after { frame.new ≡ relayed own frame.old }
{
    relay::relay(own, frame)
}

// A further decode: of a relayed frame the same answer, the same frame with that one mark set, and the same info octets; where the
// relay was refused, what it was before.
pub fn read_again(own: Address, frame: &mut [u8]) -> Result<Decoded, DecodeError>
    ensures answer_value { (report_of (relay_answer own frame.old)).number ≡ 0
        → ((decode Mode.Short frame.new).answer ≡ (decode Mode.Short frame.old).answer)
        × ((decode Mode.Short frame.new).frame ≡ frame_marked (decode Mode.Short frame.old).frame (due_place (decode Mode.Short frame.old).frame))
        × (info_in frame.new (decode Mode.Short frame.new) ≡ info_in frame.old (decode Mode.Short frame.old)) }
    ensures value { ((report_of (relay_answer own frame.old)).number ≡ 0 → ⊥) → result ≡ outcome (decode Mode.Short frame.old) }
    ensures value_2 { result ≡ outcome (decode Mode.Short frame.new) }
    ensures frame_after { frame.new ≡ relayed own frame.old }
{
    let _ = relay::relay(own, frame);
    reading::from_bytes(Mode::Short, frame)
}

// Canonicity stays, whatever the relay answers.
pub fn canonical_again(own: Address, frame: &mut [u8]) -> bool
    ensures value { result ≡ canonical Mode.Short frame.old }
    ensures frame_after { frame.new ≡ relayed own frame.old }
{
    let _ = relay::relay(own, frame);
    spelling::is_canonical(Mode::Short, frame)
}

// A second relay by the same station.
pub fn relayed_twice(own: Address, frame: &mut [u8]) -> Result<(), RelayError>
    ensures again { (report_of (relay_answer own frame.old)).number ≡ 0
        → Again own (decode Mode.Short frame.old).frame (report_of result).number }
    ensures value { result ≡ relay_answer own (relayed own frame.old) }
    ensures frame_after { frame.new ≡ relayed own (relayed own frame.old) }
{
    let _ = relay::relay(own, frame);
    relay::relay(own, frame)
}

// The due place: the first unmarked place below the route count, or the route count if all are marked.
pub fn due(frame: Ax25Frame) -> usize
    ensures { FirstUnmarked frame result }
{
    hops::due_place(frame)
}

// It equals the hops used exactly when no mark follows an unmarked place.
pub fn in_order(frame: Ax25Frame) -> bool
    ensures { (result ≡ true) ↔ InOrder frame }
{
    let used = hops::hops_used(frame) as usize;
    used == hops::due_place(frame)
}
