// What `group_of` gives, held to octets that come from document 01 or were worked out by hand. A group that is not as owed is shown.
use crate::group_of;
use address::Address;

fn address(callsign: [u8; 6], ssid: u8, reserved: u8) -> Address {
    Address {
        callsign,
        ssid,
        reserved,
    }
}

fn owed(group: [u8; 7], expected: [u8; 7]) -> Result<(), [u8; 7]> {
    if group != expected {
        return Err(group);
    }
    Ok(())
}

// The two groups of a frame in document 01; and by hand that of an address which can't be written.
#[test]
fn groups() -> Result<(), [u8; 7]> {
    let to = group_of(address(*b"GAUGE ", 0, 3), true, false);
    owed(to, [0x8E, 0x82, 0xAA, 0x8E, 0x8A, 0x40, 0xE0])?;
    let from = group_of(address(*b"BOX12 ", 3, 3), false, true);
    owed(from, [0x84, 0x9E, 0xB0, 0x62, 0x64, 0x40, 0x67])?;
    let cut = group_of(address(*b"\xFF\x80\x7F\x01\x00 ", 0x13, 6), false, true);
    owed(cut, [0xFE, 0x00, 0xFE, 0x02, 0x00, 0x40, 0x47])
}
