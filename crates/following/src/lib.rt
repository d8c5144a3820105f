// What `follow` prints of a recorded link, as octets in a lent buffer: of the texts that name its two stations, of each frame, and at the end.
#![tactic(auto)]

ghost use Rattle.std.specs.Prelude.{◌≡◌, ◌≤◌, length};
ghost use Rattle.octets.specs.Splice.{splice};
ghost use Rattle.words.specs.Room.{behind};
ghost use Rattle.following.specs.Following.{answer_text, between, begin_text, begun, stops, from_text, gap_line, gap_text, offered_text, follow_text, followed, totals_text};

use answer::Numbered;
use link_frame::Side;
use link_record::{Link, LinkError};
use text::AddressError;
use words::page::Page;

// What the two texts come to: the record of the link between their stations, or why one is not read, and how many octets are printed.
#[derive(Clone, Copy)]
pub struct Begun {
    pub link: Result<Link, AddressError>,
    pub length: usize,
}

// What a frame comes to: the record behind it, whether no further frame is offered, and how many octets are printed. A flag beside the
// record: the totals of a link that has stopped are printed of it too.
#[derive(Clone, Copy)]
pub struct Followed {
    pub link: Link,
    pub stopped: bool,
    pub length: usize,
}

fn put_answer(out: &mut [u8], number: u32) -> usize
    ensures out_after { out.new ≡ splice out.old 0 (answer_text number) }
    ensures value { result ≡ behind (length out.old) 0 (answer_text number) }
{
    let mut page: Page<32> = Page::new();
    if number != 0 {
        page.put_number(b"answer=", number as usize, b"\n");
    }
    page.write_to(out).unwrap_or(0)
}

// A fresh record of the link between the stations that two texts name; the first is looked at first.
fn between(a: &[u8], b: &[u8]) -> Result<Link, AddressError>
    ensures { result ≡ between a.now b.now }
{
    let station = text::from_str(a)?;
    let partner = text::from_str(b)?;
    Ok(link_record::fresh(station, partner))
}

// The stations that two texts name; the first is looked at first.
pub fn begin(a: &[u8], b: &[u8], out: &mut [u8]) -> Begun
    ensures value { result ≡ begun a.now b.now (length out.old) }
    ensures out_after { out.new ≡ splice out.old 0 (begin_text a.now b.now) }
    ensures length_in_bounds { result.length ≤ length out.new }
{
    let link = between(a, b);
    Begun {
        link,
        length: put_answer(out, link.number()),
    }
}

fn stops(answer: Result<(), LinkError>) -> bool
    ensures { result ≡ stops answer }
{
    !matches!(answer, Ok(()) | Err(LinkError::Refused(_)))
}

// Whose frame a gap is, behind its place.
fn from(sender: Option<Side>) -> &'static [u8]
    ensures { result.now ≡ from_text sender }
{
    match sender {
        Some(Side::A) => b" from=A\n",
        Some(Side::B) => b" from=B\n",
        None => b"\n",
    }
}

fn put_gap_line(out: &mut [u8], place: u32, sender: Option<Side>) -> usize
    ensures out_after { out.new ≡ splice out.old 0 (gap_line place sender) }
    ensures value { result ≡ behind (length out.old) 0 (gap_line place sender) }
{
    let mut page: Page<32> = Page::new();
    page.put_number(b"gap=", place as usize, from(sender));
    page.write_to(out).unwrap_or(0)
}

fn put_gap(out: &mut [u8], before: Link, after: Link, frame: &[u8]) -> usize
    ensures out_after { out.new ≡ splice out.old 0 (gap_text before after frame.now) }
    ensures value { result ≡ behind (length out.old) 0 (gap_text before after frame.now) }
{
    if after.gaps <= before.gaps {
        return 0;
    }
    put_gap_line(out, after.offered, link::sender_of(before, frame))
}

// One frame: it is offered unless it has stopped.
pub fn follow(link: Link, stopped: bool, frame: &[u8], out: &mut [u8]) -> Followed
    ensures value { result ≡ followed link stopped frame.now (length out.old) }
    ensures out_after { out.new ≡ splice out.old 0 (follow_text link stopped frame.now) }
    ensures length_in_bounds { result.length ≤ length out.new }
{
    if stopped {
        return Followed {
            link,
            stopped: true,
            length: 0,
        };
    }
    let stepped = link::step(link, frame);
    let answer = stepped.answer;
    let next = stepped.link;
    if stops(answer) {
        let length = put_answer(out, answer.number());
        return Followed {
            link: next,
            stopped: true,
            length,
        };
    }
    let length = put_gap(out, link, next, frame);
    Followed {
        link: next,
        stopped: false,
        length,
    }
}

// The totals, written at the start of `out`; gives their length. Where there is no room for all of them, `out` is left alone.
pub fn totals(link: Link, dropped: u16, out: &mut [u8]) -> usize
    ensures value { result ≡ behind (length out.old) 0 (totals_text link dropped) }
    ensures out_after { out.new ≡ splice out.old 0 (totals_text link dropped) }
    ensures upper_bound { result ≤ length out.new }
{
    let mut page: Page<96> = Page::new();
    page.put_number(b"offered=", link.offered as usize, b"\n");
    page.put_number(b"in_order=", link.in_order as usize, b"\n");
    page.put_number(b"repeated=", link.repeated as usize, b"\n");
    page.put_number(b"gaps=", link.gaps as usize, b"\n");
    page.put_number(b"outside=", link.outside as usize, b"\n");
    page.put_number(b"dropped=", dropped as usize, b"\n");
    page.write_to(out).unwrap_or(0)
}
