// Follows a recorded link between two stations, `follow A B <STREAM`: says where data was lost, and counts at the end.
#![tactic(auto)]

ghost use Rattle.std.specs.Prelude.{◌<◌, ◌≤◌, length};

use kiss_state::Head;
use link_record::Link;
use std::env::FillError;
use std::io::{Print, Read, Stdin, Stdout};
use std::rt::Env;

// Where the following stands: the numbers of the stream, the record of the link, whether no further frame is offered, and whether all that
// was printed could be written.
#[derive(Clone, Copy)]
struct Place {
    head: Head,
    link: Link,
    stopped: bool,
    written: bool,
}

// A place, and how far in a piece of the stream it is.
#[derive(Clone, Copy)]
struct Reached {
    place: Place,
    at: usize,
}

fn start(link: Link) -> Place {
    Place {
        head: Head {
            length: 0,
            port: 0,
            phase: kiss_state::OUTSIDE,
            dropped: 0,
        },
        link,
        stopped: false,
        written: true,
    }
}

// A packet that the stream gave out: its data is a frame.
fn follow_frame(output: Stdout, place: Place, frame: &[u8]) -> Place {
    // All that is printed of a frame fits.
    let mut text = [0u8; 32];
    let followed = following::follow(place.link, place.stopped, frame, &mut text);
    let printed = followed.length;
    let written = output.write_all(&text[..printed]).is_ok();
    Place {
        link: followed.link,
        stopped: followed.stopped,
        written: written && place.written,
        ..place
    }
}

// What stands in a piece from `at` on, through the first packet that is given out.
fn follow_packet(
    output: Stdout,
    octets: &mut [u8; 1024],
    place: Place,
    piece: &[u8],
    at: usize,
) -> Reached
    requires { at < length piece.now }
    ensures { (at < result.at) × (result.at ≤ length piece.now) }
{
    let fed = kiss_stream::feed(octets, place.head, &piece[at..]);
    let packet = fed.packet;
    let next = at + fed.taken;
    let place = Place {
        head: fed.head,
        ..place
    };
    if packet.ready == 0 {
        return Reached { place, at: next };
    }
    let given: &[u8] = octets;
    Reached {
        place: follow_frame(output, place, &given[..packet.length]),
        at: next,
    }
}

// All of a piece.
fn follow_piece(output: Stdout, octets: &mut [u8; 1024], place: Place, piece: &[u8]) -> Place {
    let mut reached = Reached { place, at: 0 };
    // A while loop: each turn goes as far as one packet, so that no iterator over the piece has these steps.
    while reached.at < piece.len() {
        let place = reached.place;
        reached = follow_packet(output, octets, place, piece, reached.at);
    }
    reached.place
}

// Reads once; nothing is left to read where what it gives is empty. A read that fails is taken for the end.
fn read_some(mut input: Stdin, piece: &mut [u8]) -> usize
    ensures { result ≤ length piece.new }
{
    input.read(piece).unwrap_or(0)
}

// Room for what is read at once.
fn piece_buffer() -> [u8; 65536] {
    [0; 65536]
}

// The whole stream. A loop has to end, and nothing says that a stream does, so it has as many turns as no run uses up. It ends early where
// nobody reads what it prints.
fn follow_all(input: Stdin, output: Stdout, link: Link) -> Place {
    let mut octets = [0u8; 1024];
    let mut piece = piece_buffer();
    let mut place = start(link);
    for _ in 0..u64::MAX {
        let n = read_some(input, &mut piece);
        if n == 0 {
            break;
        }
        place = follow_piece(output, &mut octets, place, &piece[..n]);
        if !place.written {
            break;
        }
    }
    place
}

fn follow_link(input: Stdin, output: Stdout, link: Link) {
    let place = follow_all(input, output, link);
    if !place.written {
        return;
    }
    let mut text = [0u8; 96];
    let length = following::totals(place.link, place.head.dropped, &mut text);
    let _ = output.write_all(&text[..length]);
}

// Room for the longest argument that Linux passes, 131,071 octets, whatever number of zeros lead its SSID.
fn argument_buffer() -> [u8; 131072] {
    [0; 131072]
}

// Whether an argument was found, even one that is longer than the buffer that it was read into.
fn is_found(read: Result<usize, FillError>) -> bool {
    !matches!(read, Err(FillError::NotPresent))
}

fn main(rt: HostRuntime) {
    let output = rt.stdout();
    if !is_found(rt.arg(2, &mut [])) || is_found(rt.arg(3, &mut [])) {
        let _ = rt.stderr().write_all(b"usage: follow A B <STREAM\n");
    }
    let mut a = argument_buffer();
    let mut b = argument_buffer();
    // An argument that is not there is an empty text.
    let n = rt.arg(1, &mut a).unwrap_or(0);
    let m = rt.arg(2, &mut b).unwrap_or(0);
    let mut text = [0u8; 32];
    let begun = following::begin(&a[..n], &b[..m], &mut text);
    let length = begun.length;
    let _ = output.write_all(&text[..length]);
    if let Ok(link) = begun.link {
        follow_link(rt.stdin(), output, link);
    }
}
