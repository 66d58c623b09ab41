// The policing step on an account that this crate owns: the account is lent to `police_in_place`. A caller has plain values
// and needs no reference to an account.
#![tactic(auto)]

ghost use Rattle.std.specs.Prelude.{◌≡◌};
ghost use Rattle.account.specs.Step.{stepped_of, policed};

use account::{Account, Policed};

// The policing step as `police_in_place` does it: the answer, and the account that the step leaves.
pub fn police_lent(mut account: Account, octets: usize, time: u64) -> Policed
    ensures { stepped_of result ≡ policed account octets time }
{
    let outcome = account::police_in_place(&mut account, octets, time);
    Policed { outcome, account }
}
