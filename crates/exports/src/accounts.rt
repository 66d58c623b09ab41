// Account calls. An account is passed value by value: Smax, k, jitter, mode, credit and last time.
ghost use Rattle.std.specs.Prelude.{◌≡◌};
ghost use Rattle.account.specs.Account.{capacity_of, cost_of, topped_up};
ghost use Rattle.account.specs.Step.{step_reported, policed};
ghost use Rattle.exports.specs.Numbers.{account_with, step_numbers, step_says, step_done, step_done_of};

use account::{Account, Policed};
use terms::Terms;

// The account with these values.
fn account_of(smax: u16, k: u8, jitter: u16, mode: u8, credit: u32, last: u64) -> Account
    ensures { result ≡ account_with smax k jitter mode credit last }
{
    Account {
        terms: Terms {
            smax,
            k,
            jitter,
            mode,
        },
        credit,
        last,
    }
}

// Writes what a policing step left and reported to the caller's places; returns the code.
fn report(step: Policed, credit: &mut u32, last: &mut u64, reported: &mut u32) -> u8
    ensures says { step_numbers result reported.new ≡ step_says (step_reported step.outcome) }
    ensures credit { credit.new ≡ step.account.credit }
    ensures last { last.new ≡ step.account.last }
{
    *credit = step.account.credit;
    *last = step.account.last;
    *reported = step.outcome.credit().unwrap_or(0);
    step.outcome.code()
}

// The capacity of an account; 0 where a policing step would refuse the account.
#[unsafe(no_mangle)]
pub extern "C" fn ashthulgo_capacity(smax: u16, k: u8, jitter: u16, mode: u8, credit: u32) -> u32
    ensures { result ≡ capacity_of (account_with smax k jitter mode credit 0) }
{
    account_of(smax, k, jitter, mode, credit, 0)
        .capacity()
        .units
}

// The cost of a frame; 0 where a policing step would refuse the account or the octets.
#[unsafe(no_mangle)]
pub extern "C" fn ashthulgo_cost(
    smax: u16,
    k: u8,
    jitter: u16,
    mode: u8,
    credit: u32,
    octets: usize,
) -> u32
    ensures { result ≡ cost_of (account_with smax k jitter mode credit 0) octets }
{
    account_of(smax, k, jitter, mode, credit, 0)
        .cost(octets)
        .units
}

// Brings an account to a time; the account's credit and last time are changed in place.
#[tactic(auto, using(crate::proofs::Answers::topped_keeps))]
#[unsafe(no_mangle)]
pub extern "C" fn ashthulgo_top_up(
    smax: u16,
    k: u8,
    jitter: u16,
    mode: u8,
    credit: &mut u32,
    last: &mut u64,
    time: u64,
)
    ensures { account_with smax k jitter mode credit.new last.new
        ≡ topped_up (account_with smax k jitter mode credit.old last.old) time }
{
    let next = account_of(smax, k, jitter, mode, *credit, *last).top_up(time);
    *credit = next.credit;
    *last = next.last;
}

// The policing step: returns the code; the account's credit and last time are changed in place, and `reported` is the
// credit that the answer carries.
#[tactic(auto, using(account::proofs::Step::policed_keeps))]
#[unsafe(no_mangle)]
pub extern "C" fn ashthulgo_police(
    smax: u16,
    k: u8,
    jitter: u16,
    mode: u8,
    credit: &mut u32,
    last: &mut u64,
    octets: usize,
    time: u64,
    reported: &mut u32,
) -> u8
    ensures { step_done (step_numbers result reported.new) (account_with smax k jitter mode credit.new last.new)
        ≡ step_done_of (policed (account_with smax k jitter mode credit.old last.old) octets time) }
{
    let account = account_of(smax, k, jitter, mode, *credit, *last);
    report(account.police(octets, time), credit, last, reported)
}

// The policing step by way of an account that is lent to `account::police_in_place`: returns and writes the same
// numbers as `ashthulgo_police`.
#[tactic(auto, using(account::proofs::Step::policed_keeps))]
#[unsafe(no_mangle)]
pub extern "C" fn ashthulgo_police_in_place(
    smax: u16,
    k: u8,
    jitter: u16,
    mode: u8,
    credit: &mut u32,
    last: &mut u64,
    octets: usize,
    time: u64,
    reported: &mut u32,
) -> u8
    ensures { step_done (step_numbers result reported.new)
        (account_with smax k jitter mode credit.new last.new)
        ≡ step_done_of (policed (account_with smax k jitter mode credit.old last.old) octets time) }
{
    let account = account_of(smax, k, jitter, mode, *credit, *last);
    let step = account_lent::police_lent(account, octets, time);
    report(step, credit, last, reported)
}
