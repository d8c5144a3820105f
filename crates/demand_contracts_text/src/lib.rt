// The demands on the text of addresses as contracts of the code, as in `demand_contracts_frames`.
#![tactic(auto)]

ghost use Rattle.std.specs.Prelude.{◌≡◌, ◌≤◌, IsOk, length, take};
ghost use Rattle.address.specs.Address.{with_ones, no_call};
ghost use Rattle.printing.specs.Print.{text_of, print_number_of, printed, printed_into};
ghost use Rattle.text.specs.Text.{address_number_of, address_read, read_parts, read_text, TextAddress};
ghost use Rattle.octets.specs.Table.{FirstRow};
ghost use Rattle.octets.specs.Outcome.{number_by, length_of, giving};
ghost use Rattle.demands.specs.Numbers.{print_table, parts_table, text_table};
ghost use Rattle.octets.specs.Lent.{starting};

use address::Address;
use printing::PrintError;
use text::AddressError;

// What reading a text shows: the answer, and an address, for which a refusal has the default of `Address`. The answer stands beside it,
// since the demand speaks of a refusal's address (the clause `address_value`).
#[derive(Clone, Copy)]
pub struct Shown {
    pub answer: Result<(), AddressError>,
    pub address: Address,
}

fn show(read: Result<Address, AddressError>) -> Shown
    ensures read { giving result.answer result.address ≡ read }
    ensures address { result.address ≡ address_read read }
{
    Shown {
        answer: read.map(|_| ()),
        address: read.unwrap_or_default(),
    }
}

// Demand 1: the number is that of the first row of the table that holds; a refusal is NOCALL, SSID 0. An accepted text's address
// prints as a text that reads as the same. Demand 2: all else is as the rules read it.
pub fn read_text(text: &[u8]) -> Shown
    ensures first_row { FirstRow (text_table text.now) (number_by address_number_of result.answer) }
    ensures address_value { (IsOk result.answer → ⊥) → result.address ≡ no_call }
    ensures address_value_2 { IsOk result.answer → read_text (text_of result.address) ≡ giving result.answer result.address }
    ensures value { giving result.answer result.address ≡ read_text text.now }
{
    show(text::from_str(text))
}

// Demand 1 and 2: so for a callsign and an SSID.
pub fn read_parts(callsign: &[u8], ssid: u8) -> Shown
    ensures first_row { FirstRow (parts_table callsign.now ssid) (number_by address_number_of result.answer) }
    ensures address_value { (IsOk result.answer → ⊥) → result.address ≡ no_call }
    ensures value { giving result.answer result.address ≡ read_parts callsign.now ssid }
{
    show(text::from_parts(callsign, ssid))
}

// Demand 1: so for the number of printing, and a refusal has length 0 and leaves the buffer as it was. Demand 2: else the text stands at
// the start of the buffer, with its length, and the octets beyond it stay.
pub fn printed(address: Address, out: &mut [u8]) -> Result<usize, PrintError>
    ensures first_row { FirstRow (print_table address (length out.old)) (number_by print_number_of result) }
    ensures length_value { (number_by print_number_of result ≡ 0 → ⊥) → (length_of result ≡ 0) × (out.new ≡ out.old) }
    ensures length_value_2 { number_by print_number_of result ≡ 0 → (length_of result ≡ length (text_of address))
        × (out.new ≡ starting (text_of address) out.old) }
{
    printing::print(address, out)
}

// Document 01, Text: an address of 1 to 6 upper-case letters and digits with an SSID up to 15 and reserved bits up to 3, printed where
// there is room for its text, reads back with its callsign and SSID; the reserved bits, which no text shows, are ones. Of any other, and
// with less room, what was printed is read.
pub fn read_back(address: Address, out: &mut [u8]) -> Result<Address, AddressError>
    ensures answer_value { TextAddress address → length (text_of address) ≤ length out.old → IsOk result × (address_read result ≡ with_ones address.callsign address.ssid) }
    ensures value { result ≡ read_text (take (length_of (printed address (length out.old))) (printed_into address out.old)) }
    ensures out_after { out.new ≡ printed_into address out.old }
{
    let length = printing::print(address, out).unwrap_or(0);
    text::from_str(&out[..length])
}
