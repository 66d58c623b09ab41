// Octets and the numbers that octets spell, the high octet first: numbers of 2, 4 and 8 octets read and spelled, and
// whether a run has room for another. Every function is total: an octet past the end reads as 0.
#![tactic(auto)]

ghost use Rattle.std.specs.Prelude.{◌≡◌, ℕ, ◌+◌, get_or, leb};
ghost use Rattle.octets.specs.Numbers.{number_at, octets_of};
ghost use Rattle.octets.specs.Runs.{put};

// A number that is spelled in octets, the high octet first: `u16`, `u32` and `u64`.
pub trait Number: Copy {
    // The octets that spell it.
    const OCTETS: usize;

    ghost OCTETS: { ℕ };

    ghost value: { Self → ℕ };

    // The number that the first octets spell; a missing octet counts as 0.
    fn of_octets(octets: &[u8]) -> Self
        ensures { value result ≡ number_at OCTETS octets.now 0 };

    // Spells the number into the first octets; too few are left as they are.
    fn spell(self, octets: &mut [u8])
        ensures { octets.new ≡ put octets.old 0 (octets_of OCTETS (value self)) };
}

impl Number for u16 {
    const OCTETS: usize = 2;

    ghost OCTETS = { 2 };

    ghost value = { λ number. number };

    #[tactic(auto, unfolding(crate::specs::Numbers::number_at))]
    fn of_octets(octets: &[u8]) -> u16 {
        let at = |i| octet_at(octets, i);
        u16::from_be_bytes([at(0), at(1)])
    }

    #[tactic(auto, using(crate::proofs::Numbers::octets_high))]
    fn spell(self, octets: &mut [u8]) {
        put_front(octets, &u16::to_be_bytes(self));
    }
}

impl Number for u32 {
    const OCTETS: usize = 4;

    ghost OCTETS = { 4 };

    ghost value = { λ number. number };

    #[tactic(auto, unfolding(crate::specs::Numbers::number_at))]
    fn of_octets(octets: &[u8]) -> u32 {
        let at = |i| octet_at(octets, i);
        u32::from_be_bytes([at(0), at(1), at(2), at(3)])
    }

    #[tactic(auto, using(crate::proofs::Numbers::octets_high))]
    fn spell(self, octets: &mut [u8]) {
        put_front(octets, &u32::to_be_bytes(self));
    }
}

impl Number for u64 {
    const OCTETS: usize = 8;

    ghost OCTETS = { 8 };

    ghost value = { λ number. number };

    #[tactic(auto, unfolding(crate::specs::Numbers::number_at))]
    fn of_octets(octets: &[u8]) -> u64 {
        let at = |i| octet_at(octets, i);
        u64::from_be_bytes([at(0), at(1), at(2), at(3), at(4), at(5), at(6), at(7)])
    }

    #[tactic(auto, using(crate::proofs::Numbers::octets_high))]
    fn spell(self, octets: &mut [u8]) {
        put_front(octets, &u64::to_be_bytes(self));
    }
}

// Writes a run to the front of another, where it fits.
#[tactic(auto, using(crate::proofs::Runs::put_start, crate::proofs::Runs::put_no_room))]
fn put_front(to: &mut [u8], run: &[u8])
    ensures { to.new ≡ put to.old 0 run.now }
{
    if run.len() <= to.len() {
        to[..run.len()].copy_from_slice(run);
    }
}

// Whether `size` octets fit at an offset in a run of `len` octets.
pub fn has_room(len: usize, at: usize, size: usize) -> bool
    ensures { result ≡ leb (at + size) len }
{
    size <= len && at <= len - size
}

// The octet at an offset; 0 past the end.
pub fn octet_at(s: &[u8], at: usize) -> u8
    ensures { result ≡ get_or s.now at 0 }
{
    s.get(at).copied().unwrap_or(0)
}

// The number that the octets from an offset on spell; a missing octet counts as 0.
#[tactic(auto, using(crate::proofs::Parts::number_within))]
pub fn number_at<N: Number>(s: &[u8], at: usize) -> N
    ensures { N.value result ≡ number_at N.OCTETS s.now at }
{
    let width = N::OCTETS;
    if has_room(s.len(), at, width) {
        return N::of_octets(&s[at..at + width]);
    }
    N::of_octets(&s[at.min(s.len())..])
}
