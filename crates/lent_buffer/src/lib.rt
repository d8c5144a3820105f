// Writing into a lent buffer.
#![tactic(auto)]

ghost use Rattle.std.specs.Prelude.{◌≡◌, ◌+◌, ltb};
ghost use Rattle.octets.specs.Splice.{splice};

// Whether `head` octets and `rest` more want over `room`. Their sum might not fit a usize, so none is made.
pub fn lacks_room(head: usize, rest: usize, room: usize) -> bool
    ensures { result ≡ ltb room (head + rest) }
{
    room < head || room - head < rest
}

// `part` written into `out` from `at` on. Where it does not fit there whole, nothing is written.
#[tactic(auto, unfolding(octets::specs::Splice::splice))]
pub fn put(out: &mut [u8], at: usize, part: &[u8])
    ensures { out.new ≡ splice out.old at part.now }
{
    let n = part.len();
    if lacks_room(at, n, out.len()) {
        return;
    }
    // Not `copy_from_slice`: it asks whoever links the archive for memmove, and include/ax25.h says that memcpy is all that is asked for.
    for (i, octet) in part.iter().enumerate() {
        out[at + i] = *octet;
    }
}
