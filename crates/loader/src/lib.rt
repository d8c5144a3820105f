// The calls that C links, all in the short mode but for `ax25_reason` and `ax25_captures`, which take the mode. A slice is a pointer and a
// length there; include/ax25.h says what the caller owes.
#![tactic(auto)]

ghost use Rattle.std.specs.Prelude.{◌≡◌, cond, length, length as list_length};
ghost use Rattle.octets.specs.Splice.{splice};
ghost use Rattle.octets.specs.Outcome.{number_by};
ghost use Rattle.decode.specs.Answer.{number_of};
ghost use Rattle.decode.specs.Read.{decode};
ghost use Rattle.old_captures.specs.Old.{decode_old};
ghost use Rattle.control.specs.Mode.{mode_of};
ghost use Rattle.reason.specs.Reason.{why_of, code_of};
ghost use Rattle.spelling.specs.Canonical.{canonical};
ghost use Rattle.captures.specs.Capture.{filled_all};
ghost use Rattle.respelling.specs.Reencode.{due, reencode, reencoded, error_number as reencode_number};
ghost use Rattle.relay.specs.Relay.{relay_answer_as, relayed_as, error_number as relay_number};
ghost use Rattle.kiss.specs.Write.{number_of as write_number, written, octets_written};
ghost use Rattle.kiss_reading.specs.Answer.{number_of as read_number, port_given, octets_given};
ghost use Rattle.kiss_reading.specs.Read.{read_into};
ghost use Rattle.kiss_stream.specs.Feed.{feed_of};
ghost use Rattle.link_record.specs.Record.{number_of as link_number};
ghost use Rattle.link.specs.Step.{step_of};

use answer::Numbered;
use captures::CaptureRecord;
use control::Mode;
use kiss_reading::KissRead;
use kiss_state::Stream;
use kiss_stream::Packet;
use link_record::Link;

// The decode number.
#[unsafe(no_mangle)]
pub extern "C" fn ax25_decode(input: &[u8]) -> u32
    ensures { result ≡ number_of (decode Mode.Short input.now).answer }
{
    let outline = decode::outline_of(Mode::Short, input);
    outline.number()
}

// The decode number of a capture that was taken while leading nulls were skipped: that of what follows them.
#[unsafe(no_mangle)]
pub extern "C" fn ax25_decode_old_capture(input: &[u8]) -> u32
    ensures { result ≡ number_of (decode_old Mode.Short input.now).answer }
{
    old_captures::answer_of(Mode::Short, input).number()
}

// 1 where the input is canonical, else 0.
#[unsafe(no_mangle)]
pub extern "C" fn ax25_canonical(input: &[u8]) -> u32
    ensures { result ≡ cond (canonical Mode.Short input.now) 1 0 }
{
    if spelling::is_canonical(Mode::Short, input) {
        1
    } else {
        0
    }
}

// Why the input is not canonical in that mode, where 0 is the short one and any other the long one: 0 where it is, 1 to 4 for the first reason
// that holds, and 5 where it is refused. The decode number and the place in the input that it is about go to where they are lent; both are 0
// unless it is refused.
#[unsafe(no_mangle)]
pub extern "C" fn ax25_reason(input: &[u8], mode: u32, number: &mut u32, place: &mut usize) -> u32
    ensures value { result ≡ code_of (why_of (mode_of mode) input.now).reason }
    ensures number_after { number.new ≡ (why_of (mode_of mode) input.now).number }
    ensures place_after { place.new ≡ (why_of (mode_of mode) input.now).place }
{
    let why = reason::why_of(Mode::from(mode), input);
    *number = why.number;
    *place = why.place;
    let reason = why.reason;
    reason.code()
}

// Each record filled as the calls above answer for its part of the input, in the mode of that number: the decode number, or 61 where the part
// is not inside the input; 1 where it is canonical, else 0; the number of its kind.
#[unsafe(no_mangle)]
pub extern "C" fn ax25_captures(input: &[u8], mode: u32, records: &mut [CaptureRecord])
    ensures { records.new ≡ filled_all (mode_of mode) input.now records.old }
{
    captures::fill(Mode::from(mode), input, records)
}

// How many octets re-encoding gives; 0 where the input is refused.
#[unsafe(no_mangle)]
pub extern "C" fn ax25_reencoded_length(input: &[u8]) -> usize
    ensures { result ≡ length (due Mode.Short input.now) }
{
    respelling::reencoded_length(Mode::Short, input)
}

// The input re-encoded at the start of the output: the decode number, or 24, or 0. A refusal leaves the output alone.
#[unsafe(no_mangle)]
pub extern "C" fn ax25_reencode(input: &[u8], output: &mut [u8]) -> u32
    ensures value { result ≡ number_by reencode_number (reencode Mode.Short input.now (length output.old)) }
    ensures output_after { output.new ≡ splice output.old 0 (reencoded Mode.Short input.now (length output.old)) }
{
    respelling::reencode(Mode::Short, input, output).number()
}

// Our mark set in the lent frame, where the repeater that is due is ours: 22, or the decode number, or 41, 43, 42 or 0. A refusal leaves
// the frame alone.
#[unsafe(no_mangle)]
pub extern "C" fn ax25_relay(callsign: &[u8], ssid: u8, frame: &mut [u8]) -> u32
    ensures value { result ≡ number_by relay_number (relay_answer_as callsign.now ssid frame.old) }
    ensures frame_after { frame.new ≡ relayed_as callsign.now ssid frame.old }
{
    relay::relay_as(callsign, ssid, frame).number()
}

// One whole KISS packet read: its data to the start of the output, its port and the data's length to where they are lent. A refusal
// leaves the output alone and gives port 0 and length 0.
#[unsafe(no_mangle)]
pub extern "C" fn ax25_kiss_read(
    input: &[u8],
    output: &mut [u8],
    port: &mut u8,
    length: &mut usize,
) -> u32
    ensures value { result ≡ number_by read_number (read_into input.now (list_length output.old)) }
    ensures output_after { output.new ≡ splice output.old 0 (octets_given (read_into input.now (list_length output.old))) }
    ensures port_after { port.new ≡ port_given (read_into input.now (list_length output.old)) }
    ensures length_after { length.new ≡ list_length (octets_given (read_into input.now (list_length output.old))) }
{
    let done = kiss_reading::read(input, output);
    let read = done.unwrap_or(KissRead { port: 0, length: 0 });
    *port = read.port;
    *length = read.length;
    done.number()
}

// One whole KISS packet written to the start of the output, and its length. A refusal leaves the output alone and gives length 0.
#[unsafe(no_mangle)]
pub extern "C" fn ax25_kiss_write(
    port: u8,
    input: &[u8],
    output: &mut [u8],
    length: &mut usize,
) -> u32
    ensures value { result ≡ number_by write_number (written port input.now (list_length output.old)) }
    ensures output_after { output.new ≡ splice output.old 0 (octets_written port input.now (list_length output.old)) }
    ensures length_after { length.new ≡ list_length (octets_written port input.now (list_length output.old)) }
{
    let written = kiss::write(port, input, output);
    *length = written.unwrap_or(0);
    written.number()
}

// A piece of a serial line taken through the first octet that completes a packet, else the whole: how many octets were taken, and the
// packet or zeros to where it is lent. The data stays in the state, and nothing is copied.
#[unsafe(no_mangle)]
pub extern "C" fn ax25_kiss_feed(stream: &mut Stream, piece: &[u8], packet: &mut Packet) -> usize
    ensures { (stream.new ≡ (feed_of stream.old piece.now).stream)
        × (packet.new ≡ (feed_of stream.old piece.now).packet)
        × (result ≡ (feed_of stream.old piece.now).taken) }
{
    let fed = kiss_stream::feed(&mut stream.octets, stream.head, piece);
    stream.head = fed.head;
    *packet = fed.packet;
    fed.taken
}

// A frame of a recording offered to the record of a link between two stations: 22, 72, 73 or 71, which leave the record as it was, or the
// decode number, or 0.
#[unsafe(no_mangle)]
pub extern "C" fn ax25_link_offer(link: &mut Link, frame: &[u8]) -> u32
    ensures { (link.new ≡ (step_of link.old frame.now).link)
        × (result ≡ link_number (step_of link.old frame.now).answer) }
{
    let answer = link::offer(link, frame);
    answer.number()
}
