// Sequence numbers of frames: which number follows a number, and whether a number passes after the last. Every function
// is total.
#![tactic(auto)]

ghost use Rattle.std.specs.Prelude.{◌≡◌};
ghost use Rattle.receive_sequence.specs.Sequence.{next, passes};

// The number after the greatest: 1, since 0 comes only after a reset.
const AFTER_GREATEST: u8 = 1;

// The number one step on.
#[tactic(auto, unfolding(crate::specs::Sequence::next))]
fn next(number: u8) -> u8
    ensures { result ≡ next number }
{
    number.checked_add(1).unwrap_or(AFTER_GREATEST)
}

// Whether a number passes after the last number, if there is one. After one that is no octet only 0 passes.
#[tactic(auto, using(crate::proofs::Passing::passes_forged), unfolding(crate::specs::Sequence::passes))]
pub fn passes(last: Option<u64>, number: u8) -> bool
    ensures { result ≡ passes last number }
{
    let Some(last) = last else {
        return true;
    };
    if number == 0 {
        return true;
    }
    let Ok(last) = u8::try_from(last) else {
        return false;
    };
    let one = next(last);
    number == one || number == next(one)
}
