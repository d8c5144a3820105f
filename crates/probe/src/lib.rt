// Calls on flat octets, for the program that runs the Rust beside the port and for nothing else. The crate
// `flat` has the layout of a flat address, content and frame. A call that is lent too little answers 24 and touches nothing; no other
// refusal touches lent octets. A mode is a number: 0 is the short one, any other the long one.
#![tactic(auto)]

ghost use Rattle.std.specs.Prelude.{◌≡◌, cond, ◌||◌, [], ◌∷◌, length};
ghost use Rattle.octets.specs.Outcome.{number_by, length_of};
ghost use Rattle.text.specs.Text.{address_number_of, address_read, read_parts, read_text};
ghost use Rattle.printing.specs.Print.{print_number_of, printed, printed_into};
ghost use Rattle.octets.specs.Outcome.{number_by};
ghost use Rattle.decode.specs.Answer.{error_number, number_of};
ghost use Rattle.frame.specs.Frame.{write_number, simple_ui, default_frame};
ghost use Rattle.decode.specs.Read.{decode};
ghost use Rattle.old_captures.specs.Old.{decode_old};
ghost use Rattle.frame.specs.Write.{written, octets_written};
ghost use Rattle.octets.specs.Outcome.{length_of};
ghost use Rattle.parse.specs.Content.{content_of};
ghost use Rattle.parse.specs.Content.{number_of as content_number};
ghost use Rattle.control.specs.Mode.{mode_of};
ghost use Rattle.encoding.specs.Encode.{encode_number, encode_of, encoded};
ghost use Rattle.hops.specs.Station.{same_station};
ghost use Rattle.octets.specs.Splice.{splice};
ghost use Rattle.flat.specs.Laid.{address_flat, flat_of};
ghost use Rattle.flat.specs.Given.{address_at, content_at, frame_from};
ghost use Rattle.probe.specs.Places.{places_of, places_in, shown};
ghost use Rattle.probe.specs.Calls.{lacks, answers, leaves, leaves_by, read_flat, hops_of};

use address::Address;
use answer::Numbered;
use control::Mode;
use decode::{DecodeError, Decoded};
use frame::Ax25Frame;
use text::AddressError;

mod places; // places.rt: the places of a decode

// How many octets a flat frame, address and content have, how many places a decode reports, and how many numbers the hops are.
const FRAME: usize = 102;

const ADDRESS: usize = 8;

const CONTENT: usize = 12;

const PLACES: usize = 5;

const HOPS: usize = 3;

// The number of a call that refuses nothing, and of one that is lent too little.
const ACCEPTED: u32 = 0;

const NO_ROOM: u32 = 24;

// What was decoded: the number, the frame, and its places, which a refusal's details are among.
fn put_decoded(decoded: Result<Decoded, DecodeError>, flat: &mut [u8], places: &mut [usize]) -> u32
    ensures value { result ≡ answers (lacks flat.old 102 || lacks places.old 5) (number_by error_number decoded) }
    ensures flat_after { flat.new ≡ leaves_by (lacks flat.old 102 || lacks places.old 5) (number_by error_number decoded) flat.old (flat_of (shown decoded).frame) }
    ensures places_after { places.new ≡ leaves (lacks flat.old 102 || lacks places.old 5) places.old (places_in decoded) }
{
    if flat.len() < FRAME {
        return NO_ROOM;
    }
    if places.len() < PLACES {
        return NO_ROOM;
    }
    match decoded {
        Ok(read) => {
            places::put_places(places, [0, 0, 0], read.info_start, read.info_len);
            flat::laid::put_frame(flat, read.frame);
            ACCEPTED
        }
        Err(error) => {
            places::put_places(places, places::details(error), 0, 0);
            error.number()
        }
    }
}

// Decodes.
#[unsafe(no_mangle)]
pub extern "C" fn probe_decode(
    mode: u32,
    input: &[u8],
    flat: &mut [u8],
    places: &mut [usize],
) -> u32
    ensures value { result ≡ answers (lacks flat.old 102 || lacks places.old 5) (number_of (decode (mode_of mode) input.now).answer) }
    ensures flat_after { flat.new ≡ leaves_by (lacks flat.old 102 || lacks places.old 5) (number_of (decode (mode_of mode) input.now).answer) flat.old (flat_of (decode (mode_of mode) input.now).frame) }
    ensures places_after { places.new ≡ leaves (lacks flat.old 102 || lacks places.old 5) places.old (places_of (decode (mode_of mode) input.now)) }
{
    put_decoded(reading::from_bytes(Mode::from(mode), input), flat, places)
}

// Decodes an old capture.
#[unsafe(no_mangle)]
pub extern "C" fn probe_decode_old(
    mode: u32,
    input: &[u8],
    flat: &mut [u8],
    places: &mut [usize],
) -> u32
    ensures value { result ≡ answers (lacks flat.old 102 || lacks places.old 5) (number_of (decode_old (mode_of mode) input.now).answer) }
    ensures flat_after { flat.new ≡ leaves_by (lacks flat.old 102 || lacks places.old 5) (number_of (decode_old (mode_of mode) input.now).answer) flat.old (flat_of (decode_old (mode_of mode) input.now).frame) }
    ensures places_after { places.new ≡ leaves (lacks flat.old 102 || lacks places.old 5) places.old (places_of (decode_old (mode_of mode) input.now)) }
{
    put_decoded(
        old_captures::from_bytes(Mode::from(mode), input),
        flat,
        places,
    )
}

// Writes the frame of a flat record: the number, the octets, and their count.
#[unsafe(no_mangle)]
pub extern "C" fn probe_encode(
    mode: u32,
    flat: &[u8],
    info: &[u8],
    out: &mut [u8],
    len: &mut [usize],
) -> u32
    ensures value { result ≡ answers (lacks len.old 1) (write_number (written (mode_of mode) (frame_from flat.now) info.now (length out.old))) }
    ensures out_after { out.new ≡ leaves (lacks len.old 1) out.old (octets_written (mode_of mode) (frame_from flat.now) info.now (length out.old)) }
    ensures len_after { len.new ≡ leaves (lacks len.old 1) len.old (length_of (written (mode_of mode) (frame_from flat.now) info.now (length out.old)) ∷ []) }
{
    if len.len() < 1 {
        return NO_ROOM;
    }
    let frame = flat::given::frame_from(flat);
    let written = frame.to_bytes(Mode::from(mode), info, out);
    len[0] = written.unwrap_or(0);
    written.number()
}

// The frame of a flat record, as a flat record again.
#[unsafe(no_mangle)]
pub extern "C" fn probe_again(given: &[u8], flat: &mut [u8]) -> u32
    ensures value { result ≡ answers (lacks flat.old 102) 0 }
    ensures flat_after { flat.new ≡ leaves (lacks flat.old 102) flat.old (flat_of (frame_from given.now)) }
{
    if flat.len() < FRAME {
        return NO_ROOM;
    }
    let frame = flat::given::frame_from(given);
    flat::laid::put_frame(flat, frame);
    0
}

// What was read: the number and the address.
fn put_read(read: Result<Address, AddressError>, flat: &mut [u8]) -> u32
    ensures value { result ≡ answers (lacks flat.old 8) (number_by address_number_of read) }
    ensures flat_after { flat.new ≡ leaves_by (lacks flat.old 8) (number_by address_number_of read) flat.old (address_flat (address_read read)) }
{
    if flat.len() < ADDRESS {
        return NO_ROOM;
    }
    match read {
        Ok(address) => {
            flat::laid::put_address(flat, 0, address);
            ACCEPTED
        }
        Err(refusal) => refusal.number(),
    }
}

// Reads a callsign and an SSID: the number and the address.
#[unsafe(no_mangle)]
pub extern "C" fn probe_from_parts(callsign: &[u8], ssid: u8, flat: &mut [u8]) -> u32
    ensures value { result ≡ answers (lacks flat.old 8) (number_by address_number_of (read_parts callsign.now ssid)) }
    ensures flat_after { flat.new ≡ leaves_by (lacks flat.old 8) (number_by address_number_of (read_parts callsign.now ssid)) flat.old (address_flat (address_read (read_parts callsign.now ssid))) }
{
    put_read(text::from_parts(callsign, ssid), flat)
}

// Reads a text: the number and the address.
#[unsafe(no_mangle)]
pub extern "C" fn probe_from_str(text: &[u8], flat: &mut [u8]) -> u32
    ensures value { result ≡ answers (lacks flat.old 8) (number_by address_number_of (read_text text.now)) }
    ensures flat_after { flat.new ≡ leaves_by (lacks flat.old 8) (number_by address_number_of (read_text text.now)) flat.old (address_flat (address_read (read_text text.now))) }
{
    put_read(text::from_str(text), flat)
}

// Prints a flat address: the number, the text, and how long it is.
#[unsafe(no_mangle)]
pub extern "C" fn probe_print(flat: &[u8], out: &mut [u8], len: &mut [usize]) -> u32
    ensures value { result ≡ answers (lacks len.old 1) (number_by print_number_of (printed (address_at flat.now 0) (length out.old))) }
    ensures out_after { out.new ≡ cond (lacks len.old 1) out.old (printed_into (address_at flat.now 0) out.old) }
    ensures len_after { len.new ≡ leaves (lacks len.old 1) len.old (length_of (printed (address_at flat.now 0) (length out.old)) ∷ []) }
{
    if len.len() < 1 {
        return NO_ROOM;
    }
    let address = flat::given::address_from(flat);
    let printed = printing::print(address, out);
    len[0] = printed.unwrap_or(0);
    printed.number()
}

// The simple UI frame of two flat addresses.
#[unsafe(no_mangle)]
pub extern "C" fn probe_simple_ui(source: &[u8], destination: &[u8], flat: &mut [u8]) -> u32
    ensures value { result ≡ answers (lacks flat.old 102) 0 }
    ensures flat_after { flat.new ≡ leaves (lacks flat.old 102) flat.old (flat_of (simple_ui (address_at source.now 0) (address_at destination.now 0))) }
{
    if flat.len() < FRAME {
        return NO_ROOM;
    }
    let from = flat::given::address_from(source);
    let to = flat::given::address_from(destination);
    let frame = Ax25Frame::new_simple_ui_frame(from, to);
    flat::laid::put_frame(flat, frame);
    0
}

// The default frame.
#[unsafe(no_mangle)]
pub extern "C" fn probe_default(flat: &mut [u8]) -> u32
    ensures value { result ≡ answers (lacks flat.old 102) 0 }
    ensures flat_after { flat.new ≡ leaves (lacks flat.old 102) flat.old (flat_of default_frame) }
{
    if flat.len() < FRAME {
        return NO_ROOM;
    }
    let frame = Ax25Frame::default();
    flat::laid::put_frame(flat, frame);
    0
}

// Content alone: the number, and the content that was read.
#[unsafe(no_mangle)]
pub extern "C" fn probe_content(mode: u32, input: &[u8], flat: &mut [u8]) -> u32
    ensures value { result ≡ answers (lacks flat.old 12) (content_number (content_of (mode_of mode) input.now)) }
    ensures flat_after { flat.new ≡ leaves (lacks flat.old 12) flat.old (read_flat (content_of (mode_of mode) input.now)) }
{
    if flat.len() < CONTENT {
        return NO_ROOM;
    }
    match parse::parse_content(Mode::from(mode), input) {
        Ok(content) => {
            flat::laid::put_content(flat, content);
            0
        }
        Err(error) => error.number(),
    }
}

// Writes flat content alone: the number, the octets, and their count.
#[unsafe(no_mangle)]
pub extern "C" fn probe_content_encode(
    mode: u32,
    content: &[u8],
    info: &[u8],
    out: &mut [u8],
    len: &mut [usize],
) -> u32
    ensures value { result ≡ answers (lacks len.old 1) (encode_number (encode_of (mode_of mode) (content_at content.now 0) (length info.now) (length out.old))) }
    ensures out_after { out.new ≡ leaves (lacks len.old 1) out.old (encoded (mode_of mode) (content_at content.now 0) info.now (length out.old)) }
    ensures len_after { len.new ≡ leaves (lacks len.old 1) len.old (length_of (encode_of (mode_of mode) (content_at content.now 0) (length info.now) (length out.old)) ∷ []) }
{
    if len.len() < 1 {
        return NO_ROOM;
    }
    let given = flat::given::content_from(content);
    let written = encoding::encode(Mode::from(mode), given, info, out);
    len[0] = written.unwrap_or(0);
    written.number()
}

// The hop set, the hops used and the due place of the frame of a flat record.
#[unsafe(no_mangle)]
pub extern "C" fn probe_hops(flat: &[u8], numbers: &mut [usize]) -> u32
    ensures value { result ≡ answers (lacks numbers.old 3) 0 }
    ensures numbers_after { numbers.new ≡ leaves (lacks numbers.old 3) numbers.old (hops_of (frame_from flat.now)) }
{
    if numbers.len() < HOPS {
        return NO_ROOM;
    }
    let frame = flat::given::frame_from(flat);
    let set = hops::hop_set(frame);
    let used = hops::hops_used(frame);
    let due = hops::due_place(frame);
    numbers[0] = set as usize;
    numbers[1] = used as usize;
    numbers[2] = due;
    0
}

// 1 where two flat addresses are of the same station, else 0.
#[unsafe(no_mangle)]
pub extern "C" fn probe_same_station(one: &[u8], other: &[u8]) -> u32
    ensures { result ≡ cond (same_station (address_at one.now 0) (address_at other.now 0)) 1 0 }
{
    let a = flat::given::address_from(one);
    let b = flat::given::address_from(other);
    if hops::same_station(a, b) { 1 } else { 0 }
}
