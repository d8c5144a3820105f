// The archive that C links: each call is the one of the crate `loader` that has its name, with the same contract. A crate is a library, on which
// others can rest, or an archive, so the archive is a crate of its own. include/ax25.h says what the caller owes.
#![tactic(auto)]

ghost use Rattle.std.specs.Prelude.{◌≡◌, cond, length, length as list_length};
ghost use Rattle.octets.specs.Splice.{splice};
ghost use Rattle.octets.specs.Outcome.{number_by};
ghost use Rattle.decode.specs.Answer.{number_of};
ghost use Rattle.decode.specs.Read.{decode};
ghost use Rattle.old_captures.specs.Old.{decode_old};
ghost use Rattle.control.specs.Mode.{mode_of};
ghost use Rattle.reason.specs.Reason.{why_of, code_of};
ghost use Rattle.spelling.specs.Canonical.{canonical};
ghost use Rattle.captures.specs.Capture.{filled_all};
ghost use Rattle.respelling.specs.Reencode.{due, reencode, reencoded, error_number as reencode_number};
ghost use Rattle.relay.specs.Relay.{relay_answer_as, relayed_as, error_number as relay_number};
ghost use Rattle.kiss.specs.Write.{number_of as write_number, written, octets_written};
ghost use Rattle.kiss_reading.specs.Answer.{number_of as read_number, port_given, octets_given};
ghost use Rattle.kiss_reading.specs.Read.{read_into};
ghost use Rattle.kiss_stream.specs.Feed.{feed_of};
ghost use Rattle.link_record.specs.Record.{number_of as link_number};
ghost use Rattle.link.specs.Step.{step_of};

use captures::CaptureRecord;
use control::Mode;
use kiss_state::Stream;
use kiss_stream::Packet;
use link_record::Link;

#[unsafe(no_mangle)]
pub extern "C" fn ax25_decode(input: &[u8]) -> u32
    ensures { result ≡ number_of (decode Mode.Short input.now).answer }
{
    loader::ax25_decode(input)
}

#[unsafe(no_mangle)]
pub extern "C" fn ax25_decode_old_capture(input: &[u8]) -> u32
    ensures { result ≡ number_of (decode_old Mode.Short input.now).answer }
{
    loader::ax25_decode_old_capture(input)
}

#[unsafe(no_mangle)]
pub extern "C" fn ax25_canonical(input: &[u8]) -> u32
    ensures { result ≡ cond (canonical Mode.Short input.now) 1 0 }
{
    loader::ax25_canonical(input)
}

#[unsafe(no_mangle)]
pub extern "C" fn ax25_reason(input: &[u8], mode: u32, number: &mut u32, place: &mut usize) -> u32
    ensures value { result ≡ code_of (why_of (mode_of mode) input.now).reason }
    ensures number_after { number.new ≡ (why_of (mode_of mode) input.now).number }
    ensures place_after { place.new ≡ (why_of (mode_of mode) input.now).place }
{
    loader::ax25_reason(input, mode, number, place)
}

#[unsafe(no_mangle)]
pub extern "C" fn ax25_captures(input: &[u8], mode: u32, records: &mut [CaptureRecord])
    ensures { records.new ≡ filled_all (mode_of mode) input.now records.old }
{
    loader::ax25_captures(input, mode, records)
}

#[unsafe(no_mangle)]
pub extern "C" fn ax25_reencoded_length(input: &[u8]) -> usize
    ensures { result ≡ length (due Mode.Short input.now) }
{
    loader::ax25_reencoded_length(input)
}

#[unsafe(no_mangle)]
pub extern "C" fn ax25_reencode(input: &[u8], output: &mut [u8]) -> u32
    ensures value { result ≡ number_by reencode_number (reencode Mode.Short input.now (length output.old)) }
    ensures output_after { output.new ≡ splice output.old 0 (reencoded Mode.Short input.now (length output.old)) }
{
    loader::ax25_reencode(input, output)
}

#[unsafe(no_mangle)]
pub extern "C" fn ax25_relay(callsign: &[u8], ssid: u8, frame: &mut [u8]) -> u32
    ensures value { result ≡ number_by relay_number (relay_answer_as callsign.now ssid frame.old) }
    ensures frame_after { frame.new ≡ relayed_as callsign.now ssid frame.old }
{
    loader::ax25_relay(callsign, ssid, frame)
}

#[unsafe(no_mangle)]
pub extern "C" fn ax25_kiss_read(
    input: &[u8],
    output: &mut [u8],
    port: &mut u8,
    length: &mut usize,
) -> u32
    ensures value { result ≡ number_by read_number (read_into input.now (list_length output.old)) }
    ensures output_after { output.new ≡ splice output.old 0 (octets_given (read_into input.now (list_length output.old))) }
    ensures port_after { port.new ≡ port_given (read_into input.now (list_length output.old)) }
    ensures length_after { length.new ≡ list_length (octets_given (read_into input.now (list_length output.old))) }
{
    loader::ax25_kiss_read(input, output, port, length)
}

#[unsafe(no_mangle)]
pub extern "C" fn ax25_kiss_write(
    port: u8,
    input: &[u8],
    output: &mut [u8],
    length: &mut usize,
) -> u32
    ensures value { result ≡ number_by write_number (written port input.now (list_length output.old)) }
    ensures output_after { output.new ≡ splice output.old 0 (octets_written port input.now (list_length output.old)) }
    ensures length_after { length.new ≡ list_length (octets_written port input.now (list_length output.old)) }
{
    loader::ax25_kiss_write(port, input, output, length)
}

#[unsafe(no_mangle)]
pub extern "C" fn ax25_kiss_feed(stream: &mut Stream, piece: &[u8], packet: &mut Packet) -> usize
    ensures { (stream.new ≡ (feed_of stream.old piece.now).stream)
        × (packet.new ≡ (feed_of stream.old piece.now).packet)
        × (result ≡ (feed_of stream.old piece.now).taken) }
{
    loader::ax25_kiss_feed(stream, piece, packet)
}

#[unsafe(no_mangle)]
pub extern "C" fn ax25_link_offer(link: &mut Link, frame: &[u8]) -> u32
    ensures { (link.new ≡ (step_of link.old frame.now).link)
        × (result ≡ link_number (step_of link.old frame.now).answer) }
{
    loader::ax25_link_offer(link, frame)
}
