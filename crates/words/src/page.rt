// A page: the text that a program puts together before it writes it.
ghost use Rattle.std.specs.Prelude.{◌≡◌, ℕ, ◌+◌, ◌<◌, ◌≤◌, ◌%◌, List, [], ◌++◌, ◌-◌, length, take, drop, replicate};
ghost use Rattle.octets.specs.Splice.{splice};
ghost use Rattle.words.specs.Words.{five_digits, leading, decimal, character, pid_text};
ghost use Rattle.words.specs.Room.{cut, fitting};

use crate::{has_pid, hex};
use content::FrameContent;
use control::Mode;
use std::marker::Model;

// A text of up to N octets. What is put on it beyond these is cut off.
#[derive(Drop)]
pub struct Page<const N: usize> {
    letters: [u8; N],
    length: usize,
}

// Clauses see the text.
impl<const N: usize> Model for Page<N> {
    ghost Value = { List ℕ };

    ghost view = { λ p. take p.length p.letters };

    // Behind the text there are zeros, so that pages with the same text are the same in all.
    ghost invariant = { λ p. (p.length ≤ N) × (drop p.length p.letters ≡ replicate (N - p.length) 0) };
}

impl<const N: usize> Page<N> {
    pub fn new() -> Self
        ensures { result ≡ [] }
    {
        Page {
            letters: [0; N],
            length: 0,
        }
    }

    pub fn put(&mut self, part: &[u8])
        ensures { self.new ≡ cut N (self.old ++ part.now) }
    {
        let taken = (N - self.length).min(part.len());
        lent_buffer::put(&mut self.letters, self.length, &part[..taken]);
        self.length += taken;
    }

    // A number of up to five digits; of a longer one, its last five.
    pub fn put_decimal(&mut self, n: usize)
        ensures { self.new ≡ cut N (self.old ++ decimal n) }
    {
        let digits = five_digits(n);
        self.put(&digits[leading(n)..]);
    }

    // A key, a number and what follows it.
    pub fn put_number(&mut self, key: &[u8], n: usize, end: &[u8])
        ensures { self.new ≡ cut N (self.old ++ (key.now ++ (decimal n ++ end.now))) }
    {
        self.put(key);
        self.put_decimal(n);
        self.put(end);
    }

    // An address character: a letter or digit as itself, any other as % and two hex digits.
    pub fn put_character(&mut self, c: u8)
        ensures { self.new ≡ cut N (self.old ++ character c) }
    {
        if text::is_alphanumeric(c) {
            self.put(&[c]);
        } else {
            self.put(b"%");
            self.put(&hex(c));
        }
    }

    // The PID as re-encoded; a hyphen where there is none.
    pub fn put_pid(&mut self, content: FrameContent)
        ensures { self.new ≡ cut N (self.old ++ pid_text content) }
    {
        if has_pid(content) {
            let front = content.front(Mode::Short);
            self.put(&hex(front[1]));
        } else {
            self.put(b"-");
        }
    }

    // The text, written at the start of `out`: its length, or nothing where there is no room for all of it, and `out` is left alone.
    #[tactic(auto, unfolding(crate::specs::Room::fitting))]
    pub fn write_to(&self, out: &mut [u8]) -> Option<usize>
        ensures value { result ≡ fitting (length out.old) self.now }
        ensures out_after { out.new ≡ splice out.old 0 self.now }
        ensures room { length self.now ≤ N }
    {
        if out.len() < self.length {
            return None;
        }
        lent_buffer::put(out, 0, &self.letters[..self.length]);
        Some(self.length)
    }
}

fn digit(n: usize) -> u8
    ensures { result ≡ 48 + n % 10 }
{
    b'0' + (n % 10) as u8
}

// The last five digits of a number.
pub(crate) fn five_digits(n: usize) -> [u8; 5]
    ensures { result ≡ five_digits n }
{
    [
        digit(n / 10000),
        digit(n / 1000),
        digit(n / 100),
        digit(n / 10),
        digit(n),
    ]
}

// How many of the last five digits of a number are zeros that nothing stands before.
#[tactic(auto, unfolding(crate::specs::Words::leading))]
pub(crate) fn leading(n: usize) -> usize
    ensures value { result ≡ leading n }
    ensures upper_bound { result ≤ 4 }
{
    match n {
        0..10 => 4,
        10..100 => 3,
        100..1000 => 2,
        1000..10000 => 1,
        _ => 0,
    }
}
