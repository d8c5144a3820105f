// The archive that the program links which runs the Rust beside the port: each call is the one of the crate `probe` that has its name, with
// the same contract. A crate is a library, on which others can rest, or an archive, so the archive is a crate of its own.
#![tactic(auto)]

ghost use Rattle.std.specs.Prelude.{◌≡◌, cond, ◌||◌, [], ◌∷◌, length};
ghost use Rattle.octets.specs.Outcome.{number_by, length_of};
ghost use Rattle.text.specs.Text.{address_number_of, address_read, read_parts, read_text};
ghost use Rattle.printing.specs.Print.{print_number_of, printed, printed_into};
ghost use Rattle.decode.specs.Answer.{number_of};
ghost use Rattle.frame.specs.Frame.{write_number, simple_ui, default_frame};
ghost use Rattle.decode.specs.Read.{decode};
ghost use Rattle.old_captures.specs.Old.{decode_old};
ghost use Rattle.frame.specs.Write.{written, octets_written};
ghost use Rattle.octets.specs.Outcome.{length_of};
ghost use Rattle.parse.specs.Content.{content_of};
ghost use Rattle.parse.specs.Content.{number_of as content_number};
ghost use Rattle.control.specs.Mode.{mode_of};
ghost use Rattle.encoding.specs.Encode.{encode_number, encode_of, encoded};
ghost use Rattle.hops.specs.Station.{same_station};
ghost use Rattle.flat.specs.Laid.{address_flat, flat_of};
ghost use Rattle.flat.specs.Given.{address_at, content_at, frame_from};
ghost use Rattle.probe.specs.Places.{places_of};
ghost use Rattle.probe.specs.Calls.{lacks, answers, leaves, leaves_by, read_flat, hops_of};

#[unsafe(no_mangle)]
pub extern "C" fn probe_decode(
    mode: u32,
    input: &[u8],
    flat: &mut [u8],
    places: &mut [usize],
) -> u32
    ensures value { result ≡ answers (lacks flat.old 102 || lacks places.old 5) (number_of (decode (mode_of mode) input.now).answer) }
    ensures flat_after { flat.new ≡ leaves_by (lacks flat.old 102 || lacks places.old 5) (number_of (decode (mode_of mode) input.now).answer) flat.old (flat_of (decode (mode_of mode) input.now).frame) }
    ensures places_after { places.new ≡ leaves (lacks flat.old 102 || lacks places.old 5) places.old (places_of (decode (mode_of mode) input.now)) }
{
    probe::probe_decode(mode, input, flat, places)
}

#[unsafe(no_mangle)]
pub extern "C" fn probe_decode_old(
    mode: u32,
    input: &[u8],
    flat: &mut [u8],
    places: &mut [usize],
) -> u32
    ensures value { result ≡ answers (lacks flat.old 102 || lacks places.old 5) (number_of (decode_old (mode_of mode) input.now).answer) }
    ensures flat_after { flat.new ≡ leaves_by (lacks flat.old 102 || lacks places.old 5) (number_of (decode_old (mode_of mode) input.now).answer) flat.old (flat_of (decode_old (mode_of mode) input.now).frame) }
    ensures places_after { places.new ≡ leaves (lacks flat.old 102 || lacks places.old 5) places.old (places_of (decode_old (mode_of mode) input.now)) }
{
    probe::probe_decode_old(mode, input, flat, places)
}

#[unsafe(no_mangle)]
pub extern "C" fn probe_encode(
    mode: u32,
    flat: &[u8],
    info: &[u8],
    out: &mut [u8],
    len: &mut [usize],
) -> u32
    ensures value { result ≡ answers (lacks len.old 1) (write_number (written (mode_of mode) (frame_from flat.now) info.now (length out.old))) }
    ensures out_after { out.new ≡ leaves (lacks len.old 1) out.old (octets_written (mode_of mode) (frame_from flat.now) info.now (length out.old)) }
    ensures len_after { len.new ≡ leaves (lacks len.old 1) len.old (length_of (written (mode_of mode) (frame_from flat.now) info.now (length out.old)) ∷ []) }
{
    probe::probe_encode(mode, flat, info, out, len)
}

#[unsafe(no_mangle)]
pub extern "C" fn probe_again(given: &[u8], flat: &mut [u8]) -> u32
    ensures value { result ≡ answers (lacks flat.old 102) 0 }
    ensures flat_after { flat.new ≡ leaves (lacks flat.old 102) flat.old (flat_of (frame_from given.now)) }
{
    probe::probe_again(given, flat)
}

#[unsafe(no_mangle)]
pub extern "C" fn probe_from_parts(callsign: &[u8], ssid: u8, flat: &mut [u8]) -> u32
    ensures value { result ≡ answers (lacks flat.old 8) (number_by address_number_of (read_parts callsign.now ssid)) }
    ensures flat_after { flat.new ≡ leaves_by (lacks flat.old 8) (number_by address_number_of (read_parts callsign.now ssid)) flat.old (address_flat (address_read (read_parts callsign.now ssid))) }
{
    probe::probe_from_parts(callsign, ssid, flat)
}

#[unsafe(no_mangle)]
pub extern "C" fn probe_from_str(text: &[u8], flat: &mut [u8]) -> u32
    ensures value { result ≡ answers (lacks flat.old 8) (number_by address_number_of (read_text text.now)) }
    ensures flat_after { flat.new ≡ leaves_by (lacks flat.old 8) (number_by address_number_of (read_text text.now)) flat.old (address_flat (address_read (read_text text.now))) }
{
    probe::probe_from_str(text, flat)
}

#[unsafe(no_mangle)]
pub extern "C" fn probe_print(flat: &[u8], out: &mut [u8], len: &mut [usize]) -> u32
    ensures value { result ≡ answers (lacks len.old 1) (number_by print_number_of (printed (address_at flat.now 0) (length out.old))) }
    ensures out_after { out.new ≡ cond (lacks len.old 1) out.old (printed_into (address_at flat.now 0) out.old) }
    ensures len_after { len.new ≡ leaves (lacks len.old 1) len.old (length_of (printed (address_at flat.now 0) (length out.old)) ∷ []) }
{
    probe::probe_print(flat, out, len)
}

#[unsafe(no_mangle)]
pub extern "C" fn probe_simple_ui(source: &[u8], destination: &[u8], flat: &mut [u8]) -> u32
    ensures value { result ≡ answers (lacks flat.old 102) 0 }
    ensures flat_after { flat.new ≡ leaves (lacks flat.old 102) flat.old (flat_of (simple_ui (address_at source.now 0) (address_at destination.now 0))) }
{
    probe::probe_simple_ui(source, destination, flat)
}

#[unsafe(no_mangle)]
pub extern "C" fn probe_default(flat: &mut [u8]) -> u32
    ensures value { result ≡ answers (lacks flat.old 102) 0 }
    ensures flat_after { flat.new ≡ leaves (lacks flat.old 102) flat.old (flat_of default_frame) }
{
    probe::probe_default(flat)
}

#[unsafe(no_mangle)]
pub extern "C" fn probe_content(mode: u32, input: &[u8], flat: &mut [u8]) -> u32
    ensures value { result ≡ answers (lacks flat.old 12) (content_number (content_of (mode_of mode) input.now)) }
    ensures flat_after { flat.new ≡ leaves (lacks flat.old 12) flat.old (read_flat (content_of (mode_of mode) input.now)) }
{
    probe::probe_content(mode, input, flat)
}

#[unsafe(no_mangle)]
pub extern "C" fn probe_content_encode(
    mode: u32,
    content: &[u8],
    info: &[u8],
    out: &mut [u8],
    len: &mut [usize],
) -> u32
    ensures value { result ≡ answers (lacks len.old 1) (encode_number (encode_of (mode_of mode) (content_at content.now 0) (length info.now) (length out.old))) }
    ensures out_after { out.new ≡ leaves (lacks len.old 1) out.old (encoded (mode_of mode) (content_at content.now 0) info.now (length out.old)) }
    ensures len_after { len.new ≡ leaves (lacks len.old 1) len.old (length_of (encode_of (mode_of mode) (content_at content.now 0) (length info.now) (length out.old)) ∷ []) }
{
    probe::probe_content_encode(mode, content, info, out, len)
}

#[unsafe(no_mangle)]
pub extern "C" fn probe_hops(flat: &[u8], numbers: &mut [usize]) -> u32
    ensures value { result ≡ answers (lacks numbers.old 3) 0 }
    ensures numbers_after { numbers.new ≡ leaves (lacks numbers.old 3) numbers.old (hops_of (frame_from flat.now)) }
{
    probe::probe_hops(flat, numbers)
}

#[unsafe(no_mangle)]
pub extern "C" fn probe_same_station(one: &[u8], other: &[u8]) -> u32
    ensures { result ≡ cond (same_station (address_at one.now 0) (address_at other.now 0)) 1 0 }
{
    probe::probe_same_station(one, other)
}
