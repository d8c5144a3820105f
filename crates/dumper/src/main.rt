// Prints what the one frame on standard input is.
#![tactic(auto)]

ghost use Rattle.std.specs.Prelude.{◌≤◌, length};

use std::io::{Print, Read, Stdin};

// Reads until the buffer is full or nothing is left to read, and gives how many octets stand at its start. A read that fails is taken for
// the end.
fn read_full(mut input: Stdin, octets: &mut [u8]) -> usize
    ensures { result ≤ length octets.new }
{
    let mut done = 0;
    // A while loop: each turn goes as far as a read goes.
    while done < octets.len() {
        let n = input.read(&mut octets[done..]).unwrap_or(0);
        if n == 0 {
            break;
        }
        done += n;
    }
    done
}

fn main(rt: HostRuntime) {
    // One octet more than a frame may have tells that it is too long.
    let mut input = [0u8; 4097];
    let n = read_full(rt.stdin(), &mut input);
    // All that is ever printed fits.
    let mut text = [0u8; 512];
    if let Ok(length) = dump::dump(&input[..n], &mut text) {
        let _ = rt.stdout().write_all(&text[..length]);
    }
}
