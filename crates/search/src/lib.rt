// Searching octets: for the first that is not null, and for the end of the address field.
#![tactic(auto)]

ghost use Rattle.std.specs.Prelude.{◌≡◌, ◌≤◌, leb, length, position};
ghost use Rattle.octets.specs.First.{first};
ghost use Rattle.search.specs.Search.{masked};

// Whether a bit of the mask is set in none of eight octets. A `for` and not `any`, which stops at the first and so looks at one at a time.
fn is_clear(eight: &[u8; 8], mask: u8) -> bool
    ensures { result ≡ leb 8 (first (masked mask) eight.now) }
{
    let mut found = false;
    for octet in eight {
        found |= *octet & mask != 0;
    }
    !found
}

// The place of the first octet in which a bit of the mask is set, if there is one.
fn place(bytes: &[u8], mask: u8) -> Option<usize>
    ensures { result ≡ position (masked mask) bytes.now }
{
    bytes.iter().position(|octet| *octet & mask != 0)
}

// The place of the first octet in which a bit of the mask is set, or the length: with FF hex the first that is not null, with 01 hex
// the end.
// Every octet is looked at, not every seventh. Eight octets a turn, since most of a search is the turning.
pub fn find(bytes: &[u8], mask: u8) -> usize
    ensures value { result ≡ first (masked mask) bytes.now }
    ensures upper_bound { result ≤ length bytes.now }
{
    let mut passed = 0;
    let mut rest = bytes;
    while let Some((eight, after)) = rest.split_first_chunk::<8>() {
        if !is_clear(eight, mask) {
            break;
        }
        passed += 8;
        rest = after;
    }
    passed + place(rest, mask).unwrap_or(rest.len())
}
