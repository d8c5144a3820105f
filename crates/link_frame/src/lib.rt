// What one frame between two stations does to the record of their link, but for the counts.
#![tactic(auto)]

ghost use Rattle.std.specs.Prelude.{◌≡◌};
ghost use Rattle.link_frame.specs.Frame.{asked_by, other, expected_from, moved_from, acknowledged, moved_on, verdict_of, moves, numbered, quiet, event_of, heard_of};

use content::FrameContent;
use link_record::{ASKED_BY_A, ASKED_BY_B, IDLE, Link, UP};

// Which of the two stations sent a frame.
#[derive(Clone, Copy)]
pub enum Side {
    A,
    B,
}

// What a frame between the two is to their link, of the kinds that are something to it.
#[derive(Clone, Copy)]
pub enum Event {
    Asks,
    Acknowledges,
    Ends,
    Numbered(u8),
}

// What an I frame is counted as.
#[derive(Clone, Copy)]
pub enum Verdict {
    InOrder,
    Repeated,
    Gap,
    Outside,
}

// What a frame is counted as, if it is an I frame, and the record behind it, in which it is not counted yet.
#[derive(Clone, Copy)]
pub struct Heard {
    pub verdict: Option<Verdict>,
    pub link: Link,
}

fn asked_by(from: Side) -> u32
    ensures { result ≡ asked_by from }
{
    match from {
        Side::A => ASKED_BY_A,
        Side::B => ASKED_BY_B,
    }
}

fn other(from: Side) -> Side
    ensures { result ≡ other from }
{
    match from {
        Side::A => Side::B,
        Side::B => Side::A,
    }
}

fn expected_from(from: Side, link: Link) -> u32
    ensures { result ≡ expected_from from link }
{
    match from {
        Side::A => link.expected_from_a,
        Side::B => link.expected_from_b,
    }
}

fn moved_from(from: Side, link: Link) -> bool
    ensures { result ≡ moved_from from link }
{
    match from {
        Side::A => link.moved_from_a != 0,
        Side::B => link.moved_from_b != 0,
    }
}

// UA: only the other side's asking is answered by it.
#[tactic(auto, unfolding(crate::specs::Frame::acknowledged))]
fn acknowledged(from: Side, link: Link) -> Link
    ensures { result ≡ acknowledged from link }
{
    if link.state != asked_by(other(from)) {
        return link;
    }
    Link {
        state: UP,
        expected_from_a: 0,
        expected_from_b: 0,
        moved_from_a: 0,
        moved_from_b: 0,
        ..link
    }
}

// That direction one on.
fn moved_on(from: Side, link: Link) -> Link
    ensures { result ≡ moved_on from link }
{
    let next = (expected_from(from, link) % 8 + 1) % 8;
    match from {
        Side::A => Link {
            expected_from_a: next,
            moved_from_a: 1,
            ..link
        },
        Side::B => Link {
            expected_from_b: next,
            moved_from_b: 1,
            ..link
        },
    }
}

#[tactic(auto, unfolding(crate::specs::Frame::verdict_of))]
fn verdict_of(from: Side, sent: u8, link: Link) -> Verdict
    ensures { result ≡ verdict_of from sent link }
{
    if link.state != UP {
        return Verdict::Outside;
    }
    let expected = expected_from(from, link);
    if sent as u32 == expected {
        return Verdict::InOrder;
    }
    if moved_from(from, link) && (sent as u32 + 1) % 8 == expected {
        return Verdict::Repeated;
    }
    Verdict::Gap
}

// Whether such a frame moves its direction.
fn moves(verdict: Verdict) -> bool
    ensures { result ≡ moves verdict }
{
    matches!(verdict, Verdict::InOrder)
}

// An I frame with this N(S).
fn numbered(from: Side, sent: u8, link: Link) -> Heard
    ensures { result ≡ numbered from sent link }
{
    let verdict = verdict_of(from, sent, link);
    Heard {
        verdict: Some(verdict),
        link: if moves(verdict) {
            moved_on(from, link)
        } else {
            link
        },
    }
}

// A frame that is not counted.
fn quiet(link: Link) -> Heard
    ensures { result ≡ quiet link }
{
    Heard {
        verdict: None,
        link,
    }
}

// What a frame is to the link, by its kind: most are nothing to it.
fn event_of(content: FrameContent) -> Option<Event>
    ensures { result ≡ event_of content }
{
    match content {
        FrameContent::Information(i) => Some(Event::Numbered(i.send_sequence)),
        FrameContent::SetAsynchronousBalancedMode(_) => Some(Event::Asks),
        FrameContent::UnnumberedAcknowledge(_) => Some(Event::Acknowledges),
        FrameContent::SetAsynchronousBalancedModeExtended(_)
        | FrameContent::Disconnect(_)
        | FrameContent::DisconnectedMode(_) => Some(Event::Ends),
        _ => None,
    }
}

// A frame with this content from that side.
#[tactic(auto, unfolding(crate::specs::Frame::heard_of))]
pub fn hear(from: Side, content: FrameContent, link: Link) -> Heard
    ensures { result ≡ heard_of from content link }
{
    match event_of(content) {
        None => quiet(link),
        Some(Event::Asks) => quiet(Link {
            state: asked_by(from),
            ..link
        }),
        Some(Event::Acknowledges) => quiet(acknowledged(from, link)),
        Some(Event::Ends) => quiet(Link {
            state: IDLE,
            ..link
        }),
        Some(Event::Numbered(sent)) => numbered(from, sent, link),
    }
}
