// The demands on the calls that C links, in the short mode but for the reason's and the one on captures, as contracts of the code, as in
// `demand_contracts_frames`.
#![tactic(auto)]

ghost use Rattle.std.specs.Prelude.{◌≡◌, true, false, ◌↔◌, ◌≤◌, ◌<◌, length};
ghost use Rattle.control.specs.Mode.{mode_of};
ghost use Rattle.control.specs.declared.Mode.TheVariants.{Short};
ghost use Rattle.decode.specs.Answer.{number_of, is_accepted};
ghost use Rattle.decode.specs.Read.{decode};
ghost use Rattle.old_captures.specs.Old.{former};
ghost use Rattle.reason.specs.Reason.{why_of, code_of};
ghost use Rattle.spelling.specs.Canonical.{again};
ghost use Rattle.octets.specs.Table.{FirstRow};
ghost use Rattle.demands.specs.Numbers.{decode_table};
ghost use Rattle.octets.specs.Lent.{starting};
ghost use Rattle.demands.specs.OneSpelling.{Spelled, Respelled};
ghost use Rattle.demands.specs.Captures.{Ended};
ghost use Rattle.demands_link.specs.Link.{Offered};
ghost use Rattle.link.specs.Step.{step_of};
ghost use Rattle.demands.specs.Relay.{relay_rows, bad_station, Relayed};
ghost use Rattle.relay.specs.Relay.{station_of, relayed_as};

use captures::CaptureRecord;
use control::Mode;
use link::Stepped;
use link_record::Link;

// Demand 1: the number is that of the first row of the table that holds. Document 02, M-109: 6 is no longer given, and 11 and 12 are the
// long mode's.
pub fn decoded(input: &[u8]) -> u32
    ensures first_row { FirstRow (decode_table Short input.now) result }
    ensures fact { (result ≡ 6 → ⊥) × (result ≡ 11 → ⊥) × (result ≡ 12 → ⊥) }
{
    loader::ax25_decode(input)
}

// Document 02, M-108: the number that the decoder gave before leading nulls were refused, and still gives wherever that is not 10.
pub fn decoded_old_capture(input: &[u8]) -> u32
    ensures value { result ≡ number_of (former Short input.now).answer }
    ensures value_2 { (number_of (decode Short input.now).answer ≡ 10 → ⊥) → result ≡ number_of (decode Short input.now).answer }
    ensures fact { result ≡ 10 → ⊥ }
{
    loader::ax25_decode_old_capture(input)
}

// Demand 3: 1 exactly when some plain frame spells the input, else 0.
pub fn canonical(input: &[u8]) -> u32
    ensures variant { (result ≡ 1) ↔ Spelled Short input.now }
    ensures value { (Spelled Short input.now → ⊥) → result ≡ 0 }
{
    loader::ax25_canonical(input)
}

// Document 02, M-110: 0 exactly when some plain frame spells the input in that mode; a number below 5, and no number and no place beside it,
// where the input is accepted; else 5, with the number of the first row of the table that holds. Which of the numbers below 5, and which place,
// is as `why_of` says.
pub fn told(input: &[u8], mode: u32, number: &mut u32, place: &mut usize) -> u32
    ensures variant { (result ≡ 0) ↔ Spelled (mode_of mode) input.now }
    ensures upper_bound { is_accepted (decode (mode_of mode) input.now).answer ≡ true → (result < 5) × (number.new ≡ 0) × (place.new ≡ 0) }
    ensures value { is_accepted (decode (mode_of mode) input.now).answer ≡ false → result ≡ 5 }
    ensures first_row { FirstRow (decode_table (mode_of mode) input.now) number.new }
    ensures value_2 { (result ≡ code_of (why_of (mode_of mode) input.now).reason) × (place.new ≡ (why_of (mode_of mode) input.now).place) }
{
    loader::ax25_reason(input, mode, number, place)
}

// Document 02, M-111: how one record ends. `ax25_captures` promises the list of its records, each so.
pub fn captured(mode: Mode, input: &[u8], capture: CaptureRecord) -> CaptureRecord
    ensures { Ended mode input.now capture result }
{
    captures::filled(mode, input, capture)
}

// Document 02, M-112: what offering a frame to the record of a link gives. `ax25_link_offer` promises the same of a record that is lent.
pub fn offered(link: Link, frame: &[u8]) -> Stepped
    ensures offered { Offered link frame.now result }
    ensures value { result ≡ step_of link frame.now }
{
    link::step(link, frame)
}

// How many octets the respelling has; 0 where the input is refused.
pub fn respelled_length(input: &[u8]) -> usize
    ensures value { is_accepted (decode Short input.now).answer ≡ false → result ≡ 0 }
    ensures value_2 { is_accepted (decode Short input.now).answer ≡ true → result ≡ length (again Short input.now) }
{
    loader::ax25_reencoded_length(input)
}

// Demand 1: a refused input is answered by the number of its decode, and too little room by 24; both leave the output as it was.
// Demand 3: else the respelling stands at the start of the output, and the octets beyond it stay; an accepted input's respelling is
// canonical, no longer than the input, and means the same.
pub fn respelled(input: &[u8], output: &mut [u8]) -> u32
    ensures first_row { is_accepted (decode Short input.now).answer ≡ false
        → FirstRow (decode_table Short input.now) result × (output.new ≡ output.old) }
    ensures value { is_accepted (decode Short input.now).answer ≡ true → length output.old < length (again Short input.now)
        → (result ≡ 24) × (output.new ≡ output.old) }
    ensures value_2 { is_accepted (decode Short input.now).answer ≡ true → length (again Short input.now) ≤ length output.old
        → (result ≡ 0) × (output.new ≡ starting (again Short input.now) output.old) }
    ensures respelled { is_accepted (decode Short input.now).answer ≡ true → Respelled Short input.now (again Short input.now) }
{
    loader::ax25_reencode(input, output)
}

// Document 02, M-100 and M-102: the number is that of the first row of the table that holds, our own address being refused for more than six
// octets, an octet of 128 or more or an SSID over 15; a refusal leaves the frame as it was; what is relayed has our mark, and all else
// is as it was received.
pub fn relayed(callsign: &[u8], ssid: u8, frame: &mut [u8]) -> u32
    ensures first_row { FirstRow (relay_rows (bad_station callsign.now ssid) (station_of callsign.now ssid) frame.old) result }
    ensures frame_unchanged { (result ≡ 0 → ⊥) → frame.new ≡ frame.old }
    ensures relayed { result ≡ 0 → Relayed frame.old frame.new }
    ensures frame_after { frame.new ≡ relayed_as callsign.now ssid frame.old }
{
    loader::ax25_relay(callsign, ssid, frame)
}
