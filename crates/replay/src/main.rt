// The stored list of answers, replayed: from each line's input the proved code makes the whole line again, which must be the stored
// one. compare/README.md says how the list is made; its first lines say how to read it.
#![tactic(auto)]

ghost use Rattle.std.specs.Prelude.{◌≤◌, length};

use crate::words::{number, octets, show};
use std::io::{Read, Stdin, Stdout};

mod words; // words.rt: hex and decimal
mod answers; // answers.rt: the code's answer to one line

// What stands after the letter: octets, octets and a number. A word that is not there is an empty one.
fn input(output: Stdout, letter: u8, l: &[u8]) {
    let mut words = l.split(|c| *c == b' ').skip(1);
    let mut one = [0u8; 512];
    let mut other = [0u8; 512];
    let one = octets(words.next().unwrap_or(b""), &mut one);
    let other = octets(words.next().unwrap_or(b""), &mut other);
    let n = number(words.next().unwrap_or(b""));
    answers::answer(output, letter, one, other, n);
}

// A line without its end: a heading stands as it is, any other is a letter and the input.
fn line(output: Stdout, l: &[u8]) {
    let Some(letter) = l.first() else {
        return;
    };
    show(output, l);
    input(output, *letter, l);
    show(output, b"\n");
}

// Reads until the buffer is full or nothing is left to read, and gives how many octets stand at its start. A read that fails is taken for
// the end.
fn read_full(mut stdin: Stdin, octets: &mut [u8]) -> usize
    ensures { result ≤ length octets.new }
{
    let mut done = 0;
    // A while loop: each turn goes as far as a read goes.
    while done < octets.len() {
        let n = stdin.read(&mut octets[done..]).unwrap_or(0);
        if n == 0 {
            break;
        }
        done += n;
    }
    done
}

fn replay(stdin: Stdin, output: Stdout, list: &mut [u8]) {
    let n = read_full(stdin, list);
    for l in list[..n].split(|c| *c == b'\n') {
        line(output, l);
    }
}

fn main(rt: HostRuntime) {
    let mut list = [0u8; 524288];
    replay(rt.stdin(), rt.stdout(), &mut list);
}
