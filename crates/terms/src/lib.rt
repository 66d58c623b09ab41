// The configured values of a bandwidth account (ARINC 664P7): their limits, and what follows from them alone. Credit is
// counted in octets times the microseconds of the BAG, so no product is ever rounded.
#![tactic(auto)]

ghost use Rattle.std.specs.Prelude.{◌≡◌, ◌≤◌};
ghost use Rattle.terms.specs.Terms.{largest_k, bag, terms_good, charge, rate, by_octets, charged, checked_capacity, checked_cost};

// The BAG of k 0, in microseconds.
const SHORTEST_BAG: u32 = 1000;

// The largest k, and the largest jitter in microseconds; the limits of Smax are a frame's.
const LARGEST_K: u8 = 7;

const LARGEST_JITTER: u16 = 10000;

// The modes. In byte mode a frame costs by its own octets, in frame mode, 1, by Smax; from `LINE_BYTE_MODE` on, line
// octets are counted too. No mode is above `LINE_FRAME_MODE`.
const BYTE_MODE: u8 = 0;

const LINE_BYTE_MODE: u8 = 2;

const LINE_FRAME_MODE: u8 = 3;

// What the line takes beside a frame's octets: preamble, start delimiter, and the gap between frames.
const LINE_OCTETS: u32 = 20;

// The values of an account: Smax in octets, k of a BAG of 2^k milliseconds, jitter in microseconds, mode.
#[derive(Clone, Copy)]
pub struct Terms {
    pub smax: u16,
    pub jitter: u16,
    pub k: u8,
    pub mode: u8,
}

// The bandwidth allocation gap in microseconds.
#[tactic(auto, unfolding(crate::specs::Terms::bag))]
fn bag_of(k: u8) -> u32
    requires { k ≤ largest_k }
    ensures { result ≡ bag k }
{
    SHORTEST_BAG << k
}

// The octets charged for a number of octets, by mode.
#[tactic(auto, unfolding(crate::specs::Terms::charge, crate::specs::Terms::added))]
fn charge(mode: u8, octets: u16) -> u32
    ensures { result ≡ charge mode octets }
{
    if mode < LINE_BYTE_MODE {
        octets as u32
    } else {
        octets as u32 + LINE_OCTETS
    }
}

// Whether the mode charges a frame by its own octets.
#[tactic(auto, unfolding(crate::specs::Terms::by_octets))]
fn by_octets(mode: u8) -> bool
    ensures { result ≡ by_octets mode }
{
    matches!(mode, BYTE_MODE | LINE_BYTE_MODE)
}

impl Terms {
    // Whether the values keep their limits.
    #[tactic(auto, unfolding(crate::specs::Terms::terms_good))]
    pub fn are_good(self) -> bool
        ensures { result ≡ terms_good self }
    {
        frame::SMALLEST_FRAME <= self.smax as usize
            && self.smax as usize <= frame::LARGEST_FRAME
            && self.k <= LARGEST_K
            && self.jitter <= LARGEST_JITTER
            && self.mode <= LINE_FRAME_MODE
    }

    // What a microsecond adds to the credit: the charge of Smax.
    #[tactic(auto, unfolding(crate::specs::Terms::rate))]
    pub fn rate(self) -> u32
        ensures { result ≡ rate self }
    {
        charge(self.mode, self.smax)
    }

    // The octets charged for a frame: its own octets, or Smax.
    #[tactic(auto, unfolding(crate::specs::Terms::charged, crate::specs::Terms::rate))]
    fn charged(self, octets: u16) -> u32
        ensures { result ≡ charged self octets }
    {
        if by_octets(self.mode) {
            charge(self.mode, octets)
        } else {
            self.rate()
        }
    }

    // The capacity; 0 where the values break a limit. Values within limits have 64 x 1,000 or more, so 0 always means a
    // broken limit.
    pub fn capacity(self) -> u32
        ensures { result ≡ checked_capacity self }
    {
        if !self.are_good() {
            return 0;
        }
        self.rate() * (bag_of(self.k) + self.jitter as u32)
    }

    // The cost of a frame; 0 where the values break a limit or no frame has so many octets.
    pub fn cost(self, octets: usize) -> u32
        ensures { result ≡ checked_cost self octets }
    {
        if !self.are_good() {
            return 0;
        }
        if !frame::is_frame_size(octets) {
            return 0;
        }
        self.charged(octets as u16) * bag_of(self.k)
    }
}
