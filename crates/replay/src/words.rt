// The words of a line, separated by single spaces: octets in hex, `-` for none; numbers in decimal.
ghost use Rattle.std.specs.Prelude.{◌≤◌, ◌<◌, length};

use std::io::{Print, Stdout};

// The first n octets; all where there are fewer.
pub(crate) fn first(s: &[u8], n: usize) -> &[u8] {
    s.get(..n).unwrap_or(s)
}

// A hex digit's value; 0 for anything else.
fn value(c: u8) -> u8
    ensures { result < 16 }
{
    match c {
        b'0'..=b'9' => c - b'0',
        b'A'..=b'F' => c - b'A' + 10,
        _ => 0,
    }
}

fn octet(high: u8, low: u8) -> u8 {
    value(high) * 16 + value(low)
}

// The octets of a word, as many as there is room for; gives those.
pub(crate) fn octets<'a>(w: &[u8], out: &'a mut [u8]) -> &'a [u8] {
    let n = out.len().min(w.len() / 2);
    for (place, digits) in out.iter_mut().zip(w.chunks_exact(2)) {
        *place = octet(digits[0], digits[1]);
    }
    &out[..n]
}

// A number of up to four digits.
pub(crate) fn number(w: &[u8]) -> usize
    ensures { result ≤ 9999 }
{
    let mut n: usize = 0;
    for c in w {
        n = (n % 1000) * 10 + value(*c) as usize % 10;
    }
    n
}

fn digit(d: u8) -> u8
    requires { d < 16 }
{
    if d < 10 { b'0' + d } else { b'A' - 10 + d }
}

pub(crate) fn show(output: Stdout, text: &[u8]) {
    let _ = output.write_all(text);
}

// A space, then the number.
pub(crate) fn show_number(output: Stdout, n: usize) {
    show(output, b" ");
    let _ = output.print(n);
}

// A space, then octets in hex, as many as there is room for here.
fn show_hex(output: Stdout, s: &[u8]) {
    let mut digits = [0u8; 1030];
    let n = 2 * s.len().min(515);
    for (pair, b) in digits.chunks_exact_mut(2).zip(s) {
        pair[0] = digit(*b / 16);
        pair[1] = digit(*b % 16);
    }
    show(output, b" ");
    show(output, &digits[..n]);
}

// A space, then octets that were lent: a dot where none of them was touched, which is where each is EE, as before a call.
pub(crate) fn show_lent(output: Stdout, s: &[u8]) {
    if s.iter().all(|b| *b == 0xEE) {
        show(output, b" .");
        return;
    }
    show_hex(output, s);
}
