// The code's answer to one line, printed as the list has it. Lent octets are EE before a call, or a frame that is relayed; what stands
// behind those that a call may write, EE too, is shown as well, three octets of it.
ghost use Rattle.std.specs.Prelude.{◌≤◌, length};

use crate::words::{first, show_lent, show_number};
use address::Address;
use answer::Numbered;
use std::io::Stdout;

// The list is of the short mode, the Rust's.
const SHORT: u32 = 0;

// How many octets a flat address, content and frame have.
const ADDRESS: usize = 8;

const CONTENT: usize = 12;

const FRAME: usize = 102;

// Room and the three octets after it, within the buffers here.
fn shown(room: usize) -> usize {
    room.min(512) + 3
}

fn show_answer(output: Stdout, answer: u32) {
    show_number(output, answer as usize);
}

fn show_numbers(output: Stdout, numbers: &[usize]) {
    for n in numbers {
        show_number(output, *n);
    }
}

fn show_written(output: Stdout, answer: u32, length: usize, lent: &[u8]) {
    show_answer(output, answer);
    show_number(output, length);
    show_lent(output, lent);
}

// What a decoder answers, the places that it reports and the flat frame that it leaves.
fn decode<F: FnOnce(&mut [u8], &mut [usize]) -> u32>(output: Stdout, decoder: F)
    requires { F.IsAlwaysCallable decoder }
{
    let mut flat = [0xEEu8; 105];
    let mut places: [usize; 5] = [0; 5];
    show_answer(output, decoder(&mut flat, &mut places));
    show_numbers(output, &places);
    show_lent(output, &flat);
}

fn reason(output: Stdout, input: &[u8]) {
    let mut number = 0xEEEE_EEEE;
    let mut place = 0xEEEE_EEEE;
    show_answer(
        output,
        loader::ax25_reason(input, SHORT, &mut number, &mut place),
    );
    show_answer(output, number);
    show_number(output, place);
}

fn reencode(output: Stdout, input: &[u8]) {
    let mut out = [0xEEu8; 515];
    show_answer(output, loader::ax25_decode(input));
    show_answer(output, loader::ax25_canonical(input));
    reason(output, input);
    let length = loader::ax25_reencoded_length(input);
    let answer = loader::ax25_reencode(input, &mut out);
    show_written(output, answer, length, first(&out, shown(length)));
}

// What a writer answers, the length that it gives and the octets that it leaves, with so much room; nothing where the buffer has less.
fn write<F: FnOnce(&mut [u8], &mut [usize]) -> u32>(output: Stdout, room: usize, writer: F)
    requires { F.IsAlwaysCallable writer }
{
    let mut out = [0xEEu8; 515];
    if 515 < room {
        return;
    }
    let mut length: [usize; 1] = [0];
    let answer = writer(&mut out[..room], &mut length);
    show_written(output, answer, length[0], first(&out, shown(room)));
}

// What a call answers that leaves a record of so many octets, and the record.
fn leave<F: FnOnce(&mut [u8]) -> u32>(output: Stdout, size: usize, call: F)
    requires { F.IsAlwaysCallable call }
{
    let mut out = [0xEEu8; 105];
    show_answer(output, call(&mut out));
    show_lent(output, first(&out, shown(size)));
}

fn hops(output: Stdout, record: &[u8]) {
    let mut numbers: [usize; 3] = [0; 3];
    show_answer(output, probe::probe_hops(record, &mut numbers));
    show_numbers(output, &numbers);
}

// The frame to be relayed is the first octets of the buffer.
fn relay_in(output: Stdout, callsign: &[u8], ssid: u8, out: &mut [u8], length: usize) {
    if out.len() < length {
        return;
    }
    show_answer(
        output,
        loader::ax25_relay(callsign, ssid, &mut out[..length]),
    );
    show_lent(output, first(out, shown(length)));
}

fn relay(output: Stdout, callsign: &[u8], frame: &[u8], ssid: u8) {
    let mut out = [0xEEu8; 515];
    lent_buffer::put(&mut out, 0, frame);
    relay_in(output, callsign, ssid, &mut out, frame.len());
}

// The first nine octets have the room.
fn put_in(output: Stdout, out: &mut [u8; 12], at: usize, address: Address, mark: bool, end: bool) {
    let answer = placing::put(&mut out[..9], at, address, mark, end);
    show_answer(output, answer.number());
    show_lent(output, out);
}

// A group, as a value and written into lent octets. The number is four times the place there, twice the end bit, and the mark.
fn group(output: Stdout, flat: &[u8], n: usize) {
    let address = flat::given::address_from(flat);
    let mark = n % 2 == 1;
    let end = n / 2 % 2 == 1;
    let written = group::to_bytes(address, mark, end);
    show_answer(output, written.number());
    show_lent(output, &written.unwrap_or([0; 7]));
    let mut out = [0xEEu8; 12];
    put_in(output, &mut out, n / 4, address, mark, end);
}

// What a line has: its letter, which names the call, two words of octets and a number, each none or 0 where it lacks it.
// The one match on a letter: the stored list names the calls by letters, and each case hands its call on.
pub(crate) fn answer(output: Stdout, letter: u8, one: &[u8], other: &[u8], n: usize) {
    let ssid = (n % 256) as u8;
    match letter {
        b'#' => (),
        b'D' => {
            decode(
                output,
                |flat, places| probe::probe_decode(SHORT, one, flat, places),
            );
            reencode(output, one)
        }
        b'O' => {
            decode(
                output,
                |flat, places| probe::probe_decode_old(SHORT, one, flat, places),
            );
            show_answer(output, loader::ax25_decode_old_capture(one))
        }
        b'W' => write(
            output,
            n,
            |out, length| probe::probe_encode(SHORT, one, other, out, length),
        ),
        b'E' => write(output, n, |out, length| {
            probe::probe_content_encode(SHORT, one, other, out, length)
        }),
        b'S' => write(
            output,
            n,
            |out, length| probe::probe_print(one, out, length),
        ),
        b'H' => hops(output, one),
        b'Q' => show_answer(output, probe::probe_same_station(one, other)),
        b'R' => relay(output, one, other, ssid),
        b'G' => group(output, one, n),
        b'K' => leave(output, CONTENT, |out| probe::probe_content(SHORT, one, out)),
        b'T' => leave(output, ADDRESS, |out| probe::probe_from_str(one, out)),
        b'P' => leave(
            output,
            ADDRESS,
            |out| probe::probe_from_parts(one, ssid, out),
        ),
        b'A' => leave(output, FRAME, |out| probe::probe_again(one, out)),
        b'U' => leave(output, FRAME, |out| probe::probe_simple_ui(one, other, out)),
        _ => leave(output, FRAME, |out| probe::probe_default(out)),
    }
}
