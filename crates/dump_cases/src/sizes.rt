// Long inputs, and buffers that are short, exactly full and longer.
use super::{show, shown};
use answer::Numbered;
use dump::DumpError;
use std::io::{Print, Stdout};

fn show_field(output: Stdout, name: &[u8], n: usize) {
    show(output, name);
    let _ = output.print(n);
}

// The example frame, with as much info of nulls as the input has room for.
fn frame_of(input: &mut [u8]) {
    lent_buffer::put(
        input,
        0,
        b"\x8E\x82\xAA\x8E\x8A\x40\xE0\x84\x9E\xB0\x62\x64\x40\x67\x03\xF0",
    );
}

// 4,096 octets are read, 4,097 are not, whatever they hold.
fn long(output: Stdout) {
    let mut most = [0u8; 4096];
    frame_of(&mut most);
    shown(output, &most);
    let mut over = [0u8; 4097];
    shown_over(output, &mut over);
}

fn shown_over(output: Stdout, over: &mut [u8]) {
    frame_of(over);
    shown(output, over);
    let nulls = [0u8; 4097];
    shown(output, &nulls);
}

// A short field behind 4,000 nulls; and a length of four digits: nothing after an end that is the last of 4,096 octets.
fn far(output: Stdout) {
    let mut short = [0u8; 4096];
    lent_buffer::put(
        &mut short,
        4000,
        b"\x8E\x82\xAA\x8E\x8A\x40\xE0\x84\x9E\xB0\x62\x64\x41",
    );
    shown(output, &short);
    let mut bare = [0u8; 4096];
    lent_buffer::put(&mut bare, 0, b"\x8E");
    lent_buffer::put(&mut bare, 4095, b"\x67");
    shown(output, &bare);
}

// Whether what lies beyond the text is as it was: 0xAA.
fn show_rest(output: Stdout, n: usize, rest: &[u8]) {
    if rest.iter().any(|b| *b != 0xAA) {
        show(output, b"\n");
        return;
    }
    if n == 0 {
        show(output, b" untouched\n");
        return;
    }
    show(output, b" untouched after it\n");
}

fn told(output: Stdout, dumped: Result<usize, DumpError>, out: &[u8]) {
    let n = dumped.unwrap_or(0);
    show_field(output, b" answer=", dumped.number() as usize);
    show_field(output, b" length=", n);
    if n <= out.len() {
        show_rest(output, n, &out[n..]);
    }
}

fn into(output: Stdout, input: &[u8], out: &mut [u8]) {
    show_field(output, b"room=", out.len());
    let dumped = dump::dump(input, out);
    told(output, dumped, out);
}

fn rooms(output: Stdout, frame: &[u8]) {
    let mut none = [0xAAu8; 0];
    into(output, frame, &mut none);
    let mut short = [0xAAu8; 127];
    into(output, frame, &mut short);
    let mut full = [0xAAu8; 128];
    into(output, frame, &mut full);
    let mut longer = [0xAAu8; 512];
    into(output, frame, &mut longer);
}

fn refusal_rooms(output: Stdout) {
    show(output, b"refusal ");
    let mut short = [0xAAu8; 8];
    into(output, b"", &mut short);
    show(output, b"refusal ");
    let mut full = [0xAAu8; 9];
    into(output, b"", &mut full);
}

pub(crate) fn all(output: Stdout) {
    long(output);
    far(output);
    rooms(
        output,
        b"\x8E\x82\xAA\x8E\x8A\x40\xE0\x84\x9E\xB0\x62\x64\x40\x67\x03\xF0OK",
    );
    refusal_rooms(output);
}
