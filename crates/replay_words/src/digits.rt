// Numbers in decimal digits.
ghost use Rattle.std.specs.Prelude.{◌≡◌};
ghost use Rattle.octets.specs.Runs.{put};
ghost use Rattle.replay_words.specs.Digits.{digits_of, width_of};

// The character 0.
const ZERO: u8 = b'0';

// How many digits a number has.
#[tactic(auto, using(crate::proofs::Decimal::width_found))]
pub(crate) fn width(x: u64) -> usize
    ensures { result ≡ width_of x }
{
    x.checked_ilog10().unwrap_or(0) as usize + 1
}

// The last w digits of a number written from an offset on.
pub(crate) fn put_digits(to: &mut [u8], at: usize, w: usize, x: u64)
    ensures { to.new ≡ put to.old at (digits_of w x) }
{
    if !octets::has_room(to.len(), at, w) {
        return;
    }
    let mut rest = x;
    for i in (0..w).rev() {
        to[at + i] = ZERO + (rest % 10) as u8;
        rest /= 10;
    }
}
