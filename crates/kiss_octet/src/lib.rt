// One octet of a serial line of KISS packets: what it does to the state. The data of a packet is written where the state has it; the
// numbers of the state go by value.
#![tactic(auto, unfolding(crate::specs::Step::counted_of, crate::specs::Step::drop_of, crate::specs::Step::put_of, crate::specs::Step::typed_of, crate::specs::Step::stray_of, crate::specs::Step::unescaped, crate::specs::Step::outside_of, crate::specs::Step::opened_of, crate::specs::Step::data_of, crate::specs::Step::move_of, crate::specs::Step::stored_by))]

ghost use Rattle.std.specs.Prelude.{◌≡◌, true, None};
ghost use Rattle.kiss_state.specs.State.{opened, phased};
ghost use Rattle.kiss_octet.specs.Step.{drop_of, quiet_of, put_of, typed_of, stray_of, unescaped, outside_of, opened_of, data_of, move_of, stored_by};

use escapes::{FEND, FESC, TFEND, TFESC};
use kiss::LAST_PORT;
use kiss_state::{DROPPING, Head, IN_DATA, IN_ESCAPE, IN_TYPE, OPENED, ROOM};

// What one octet does: the numbers after it, the octet of data to store, if there is one, and whether a packet is given out. That is a flag:
// the packet is what the state holds then, and nothing beside it.
#[derive(Clone, Copy)]
pub struct Move {
    pub head: Head,
    pub octet: Option<u8>,
    pub ready: bool,
}

// Nothing but the numbers changes.
fn quiet(head: Head) -> Move
    ensures { result ≡ quiet_of head }
{
    Move {
        head,
        octet: None,
        ready: false,
    }
}

// The packet is dropped and counted, as far as the count goes.
fn drop(h: Head, phase: u8) -> Move
    ensures { result ≡ quiet_of (drop_of h phase) }
{
    quiet(Head {
        length: 0,
        port: 0,
        phase,
        dropped: h.dropped.saturating_add(1),
    })
}

// An octet of data, its escape removed.
fn put(h: Head, octet: u8) -> Move
    ensures { result ≡ put_of h octet }
{
    if h.length >= ROOM {
        return drop(h, DROPPING);
    }
    Move {
        head: Head {
            length: h.length + 1,
            phase: IN_DATA,
            ..h
        },
        octet: Some(octet),
        ready: false,
    }
}

// The type octet.
fn typed(h: Head, octet: u8) -> Move
    ensures { result ≡ typed_of h octet }
{
    let command = octet & 0b0000_1111;
    let port = octet >> 4;
    if command != 0 || port > LAST_PORT {
        return drop(h, DROPPING);
    }
    quiet(Head {
        length: 0,
        port,
        phase: IN_DATA,
        ..h
    })
}

// An octet behind a DB that is no escape.
fn stray(h: Head, octet: u8) -> Move
    ensures { result ≡ stray_of h octet }
{
    match octet {
        FEND => drop(h, OPENED),
        _ => drop(h, DROPPING),
    }
}

// An octet behind a DB in the data.
fn escaped(h: Head, octet: u8) -> Move
    ensures { result ≡ unescaped (put_of h) h octet }
{
    match octet {
        TFEND => put(h, FEND),
        TFESC => put(h, FESC),
        _ => stray(h, octet),
    }
}

// An octet before the first C0, or of a packet that is dropped.
fn skip(h: Head, octet: u8) -> Move
    ensures { result ≡ outside_of h octet }
{
    match octet {
        FEND => quiet(kiss_state::none_in(h, OPENED)),
        _ => quiet(h),
    }
}

// An octet behind a C0.
fn start(h: Head, octet: u8) -> Move
    ensures { result ≡ opened_of h octet }
{
    match octet {
        FEND => quiet(h),
        FESC => quiet(Head {
            phase: IN_TYPE,
            ..h
        }),
        _ => typed(h, octet),
    }
}

// The C0 that closes a packet opens the next.
fn close(h: Head) -> Move
    ensures { result ≡ record { head = phased h opened; octet = None; ready = true } }
{
    Move {
        ready: true,
        ..quiet(Head { phase: OPENED, ..h })
    }
}

// An octet behind the type octet.
fn in_data(h: Head, octet: u8) -> Move
    ensures { result ≡ data_of h octet }
{
    match octet {
        FEND => close(h),
        FESC => quiet(Head {
            phase: IN_ESCAPE,
            ..h
        }),
        _ => put(h, octet),
    }
}

// What an octet does. A type octet that is escaped is C0, of port 12, or DB, whose command is not 0: so whatever follows DB in its place,
// the packet is dropped.
fn move_of(h: Head, octet: u8) -> Move
    ensures { result ≡ move_of h octet }
{
    match h.phase {
        IN_DATA => in_data(h, octet),
        OPENED => start(h, octet),
        IN_ESCAPE => escaped(h, octet),
        IN_TYPE => stray(h, octet),
        _ => skip(h, octet),
    }
}

// One octet: where it completes an octet of data, that is stored, and nothing else of the array changes.
pub fn step(octets: &mut [u8; 1024], h: Head, octet: u8) -> Move
    ensures value { result ≡ move_of h octet }
    ensures octets_after { octets.new ≡ stored_by (move_of h octet) h.length octets.old }
{
    let m = move_of(h, octet);
    let at = h.length as usize;
    if let Some(stored) = m.octet {
        octets[at] = stored;
    }
    m
}
