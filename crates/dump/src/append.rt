// Addresses and a route, put on the page behind a key.
ghost use Rattle.std.specs.Prelude.{◌≡◌, ◌++◌, length};
ghost use Rattle.words.specs.Room.{cut};
ghost use Rattle.dump.specs.Text.{characters, address_text, entry_text, route_text};

use address::Address;
use frame::RouteEntry;
use words::page::Page;

fn put_characters(page: &mut Page<512>, key: &[u8], text: &[u8])
    ensures { page.new ≡ cut 512 (page.old ++ (key.now ++ characters text.now)) }
{
    page.put(key);
    for &c in text {
        page.put_character(c);
    }
}

// The callsign without its padding, then - and the SSID, unless it is 0.
pub(crate) fn put_address(page: &mut Page<512>, key: &[u8], address: Address)
    ensures { page.new ≡ cut 512 (page.old ++ (key.now ++ address_text address)) }
{
    let callsign = address.callsign;
    let n = printing::callsign_length(&callsign);
    put_characters(page, key, &callsign[..n]);
    if address.ssid != 0 {
        page.put_number(b"-", address.ssid as usize, b"");
    }
}

fn put_entry(page: &mut Page<512>, key: &[u8], entry: RouteEntry)
    ensures { page.new ≡ cut 512 (page.old ++ (key.now ++ entry_text entry)) }
{
    put_address(page, key, entry.repeater);
    if entry.has_repeated {
        page.put(b"*");
    }
}

pub(crate) fn put_route(page: &mut Page<512>, key: &[u8], route: &[RouteEntry])
    ensures { page.new ≡ cut 512 (page.old ++ (key.now ++ route_text route.now (length route.now))) }
{
    page.put(key);
    for (i, entry) in route.iter().enumerate() {
        let comma: &[u8] = if i == 0 { b"" } else { b"," };
        put_entry(page, comma, *entry);
    }
}
