// A recorded link, followed frame by frame: what was lost, and where.
#![tactic(auto)]

ghost use Rattle.std.specs.Prelude.{◌≡◌, ◌<◌};
ghost use Rattle.link_record.specs.Record.{counted};
ghost use Rattle.decode.specs.Read.{decode};
ghost use Rattle.link.specs.Step.{is_from_to, sender_in, sender_of, counted_as, followed, offered_to, step_of};

use address::Address;
use control::Mode;
use frame::Ax25Frame;
use link_frame::{Side, Verdict};
use link_record::{Link, LinkError};

// What offering a frame gives: the answer, and the record behind it, which stands beside the answer because a refused frame was offered too.
#[derive(Clone, Copy)]
pub struct Stepped {
    pub answer: Result<(), LinkError>,
    pub link: Link,
}

// A record that takes one more frame, so that no count overflows: together the four are at most as many as were offered.
#[derive(Clone, Copy)]
struct Open {
    link: Link,
    ghost counts: { counted link < 65535 },
    ghost room: { link.offered < 65535 },
}

// Whether a frame goes from one station to another.
fn is_from_to(from: Address, to: Address, frame: Ax25Frame) -> bool
    ensures { result ≡ is_from_to from to frame }
{
    hops::same_station(from, frame.source) && hops::same_station(to, frame.destination)
}

// Which of the two stations sent a frame to the other, if either did.
#[tactic(auto, unfolding(crate::specs::Step::sender_in))]
fn sender_in(link: Link, frame: Ax25Frame) -> Option<Side>
    ensures { result ≡ sender_in link frame }
{
    if is_from_to(link.a, link.b, frame) {
        return Some(Side::A);
    }
    if is_from_to(link.b, link.a, frame) {
        return Some(Side::B);
    }
    None
}

// Who sent a frame, told from its octets. What is refused is of neither.
pub fn sender_of(link: Link, frame: &[u8]) -> Option<Side>
    ensures { result ≡ sender_of link frame.now }
{
    let Ok(decoded) = reading::from_bytes(Mode::Short, frame) else {
        return None;
    };
    sender_in(link, decoded.frame)
}

// One more was offered, and the count of its verdict is one more too.
fn counted_as(verdict: Option<Verdict>, open: Open) -> Link
    ensures { result ≡ counted_as verdict open.link }
{
    let link = Link {
        offered: open.link.offered + 1,
        ..open.link
    };
    match verdict {
        None => link,
        Some(Verdict::InOrder) => Link {
            in_order: link.in_order + 1,
            ..link
        },
        Some(Verdict::Repeated) => Link {
            repeated: link.repeated + 1,
            ..link
        },
        Some(Verdict::Gap) => Link {
            gaps: link.gaps + 1,
            ..link
        },
        Some(Verdict::Outside) => Link {
            outside: link.outside + 1,
            ..link
        },
    }
}

// A frame heard and counted. One of others changes only the number offered.
fn followed(open: Open, frame: Ax25Frame) -> Link
    ensures { result ≡ followed open.link frame }
{
    let Some(from) = sender_in(open.link, frame) else {
        return counted_as(None, open);
    };
    let heard = link_frame::hear(from, frame.content, open.link);
    counted_as(heard.verdict, Open { link: heard.link })
}

// A frame offered to a record that takes one more.
fn offered_to(open: Open, frame: &[u8]) -> Stepped
    ensures { result ≡ offered_to open.link (decode Mode.Short frame.now) }
{
    match reading::from_bytes(Mode::Short, frame) {
        Ok(decoded) => Stepped {
            answer: Ok(()),
            link: followed(open, decoded.frame),
        },
        Err(error) => Stepped {
            answer: Err(LinkError::Refused(error)),
            link: counted_as(None, open),
        },
    }
}

// One frame offered, by value: what the record refuses leaves it as it was.
pub fn step(link: Link, frame: &[u8]) -> Stepped
    ensures { result ≡ step_of link frame.now }
{
    match link_record::refusal(link) {
        Ok(()) => offered_to(Open { link }, frame),
        Err(error) => Stepped {
            answer: Err(error),
            link,
        },
    }
}

// The same to a record that is lent.
pub fn offer(link: &mut Link, frame: &[u8]) -> Result<(), LinkError>
    ensures { (link.new ≡ (step_of link.old frame.now).link)
        × (result ≡ (step_of link.old frame.now).answer) }
{
    let stepped = step(*link, frame);
    *link = stepped.link;
    stepped.answer
}
