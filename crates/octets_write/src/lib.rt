// Writing octets into lent runs: numbers, the high octet first, and a part of one run copied into another run. Every
// function is total: what has no room is not written at all.
#![tactic(auto)]

ghost use Rattle.std.specs.Prelude.{◌≡◌, ◌+◌, ◌≤◌, length};
ghost use Rattle.octets.specs.Numbers.{octets_of};
ghost use Rattle.octets.specs.Runs.{octets_at, put};

use octets::Number;

// Writes the octets of a number from an offset on.
pub fn put_number<N: Number>(to: &mut [u8], at: usize, number: N)
    ensures { to.new ≡ put to.old at (octets_of N.OCTETS (N.value number)) }
{
    let width = N::OCTETS;
    if octets::has_room(to.len(), at, width) {
        number.spell(&mut to[at..at + width]);
    }
}

// Fills a run with octets that are all inside another run, from `at` on, with no test for each octet.
fn copy_whole(from: &[u8], at: usize, to: &mut [u8])
    requires { at + length to.old ≤ length from.now }
    ensures { to.new ≡ octets_at (length to.old) from.now at }
{
    for (i, octet) in to.iter_mut().enumerate() {
        *octet = from[at + i];
    }
}

// Fills a run with the octets of another run from `at` on, of which some are past the end, and so 0.
fn copy_padded(from: &[u8], at: usize, to: &mut [u8])
    ensures { to.new ≡ octets_at (length to.old) from.now at }
{
    let start = at.min(from.len());
    for (i, octet) in to.iter_mut().enumerate() {
        *octet = octets::octet_at(from, start + i);
    }
}

// Copies `size` octets of a run from `at` on to an offset in another run; an octet past the end is copied as 0.
pub fn copy(from: &[u8], at: usize, size: usize, to: &mut [u8], offset: usize)
    ensures { to.new ≡ put to.old offset (octets_at size from.now at) }
{
    if !octets::has_room(to.len(), offset, size) {
        return;
    }
    if octets::has_room(from.len(), at, size) {
        copy_whole(from, at, &mut to[offset..offset + size]);
    } else {
        copy_padded(from, at, &mut to[offset..offset + size]);
    }
}
