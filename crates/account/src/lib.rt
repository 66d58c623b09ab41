// A bandwidth account and its policing step (ARINC 664P7 traffic policing). Credit is counted in octets times the
// microseconds of the BAG, so no sum is ever rounded. Accounts are taken and given by value; `police_in_place` alone
// changes an account that is lent.
#![tactic(auto)]

ghost use Rattle.std.specs.Prelude.{◌≡◌, ◌+◌, ◌*◌, ◌≤◌, min};
ghost use Rattle.account.specs.Account.{holding, credit_up_to, capacity_of, sound_capacity, cost_of, measured, topped_up, debited};
ghost use Rattle.account.specs.Step.{stepped, stepped_of, step_of, judged_at, policed, outcome_code, outcome_credit};

use codes::Refusal;
use terms::Terms;

// An elapsed time in which any rate but 0 adds more than a credit can hold.
const LONG_ELAPSED: u64 = 1 << 32;

// The configured values, the credit, and the time of the last frame that reached the account.
#[derive(Clone, Copy)]
pub struct Account {
    pub terms: Terms,
    pub credit: u32,
    pub last: u64,
}

// What capacity and cost hand back: a number of credit units, and the account that was asked, unchanged.
#[derive(Clone, Copy)]
pub struct Measured {
    pub units: u32,
    pub account: Account,
}

// The answer of a policing step: forwarded with the credit left, short or late with the credit held, or refused
// with its code.
#[derive(Clone, Copy, Debug, PartialEq, Eq)]
pub enum Outcome {
    Forwarded(u32),
    Short(u32),
    Late(u32),
    Refused(u8),
}

impl Outcome {
    // The answer's code.
    pub fn code(self) -> u8
        ensures { result ≡ outcome_code self }
    {
        match self {
            Self::Forwarded(_) => codes::SUCCESS,
            Self::Short(_) => codes::SHORT,
            Self::Late(_) => codes::LATE,
            Self::Refused(code) => code,
        }
    }

    // The credit that the answer carries, if it carries one.
    pub fn credit(self) -> Option<u32>
        ensures { result ≡ outcome_credit self }
    {
        match self {
            Self::Forwarded(credit) | Self::Short(credit) | Self::Late(credit) => Some(credit),
            Self::Refused(_) => None,
        }
    }
}

// What is decided of a frame: the answer, and the account's credit and last time after the frame. The account's terms
// stay.
#[derive(Clone, Copy)]
pub struct Ruling {
    pub outcome: Outcome,
    pub credit: u32,
    pub last: u64,
}

// What a policing step gives: its answer, and the account after it.
#[derive(Clone, Copy)]
pub struct Policed {
    pub outcome: Outcome,
    pub account: Account,
}

// The credit after an elapsed time, at most the capacity. The elapsed time is cut to one that is long enough to fill
// any account before the product is taken, so that nothing wraps.
fn refilled(capacity: u32, credit: u32, rate: u32, elapsed: u64) -> u32
    ensures { result ≡ min capacity (credit + rate * elapsed) }
{
    let held = credit as u64 + rate as u64 * elapsed.min(LONG_ELAPSED);
    held.min(capacity as u64) as u32
}

impl Account {
    // The credit topped up to a time that is not before the last, at most `full`.
    #[tactic(auto, unfolding(crate::specs::Account::credit_up_to))]
    fn credit_at(self, full: u32, time: u64) -> u32
        requires { self.last ≤ time }
        ensures { result ≡ credit_up_to self full time }
    {
        refilled(full, self.credit, self.terms.rate(), time - self.last)
    }

    // The account with another credit and last time.
    fn holding(self, credit: u32, last: u64) -> Account
        ensures { result ≡ holding self credit last }
    {
        Account {
            credit,
            last,
            ..self
        }
    }

    // The account brought to a time that is not before the last, with a credit of at most `full`. An account at
    // capacity has no room for a refill: the account keeps its credit, and the time is stored.
    #[tactic(auto, unfolding(crate::specs::Account::credit_up_to))]
    fn brought_to(self, full: u32, time: u64) -> Account
        requires { self.last ≤ time }
        ensures { result ≡ holding self (credit_up_to self full time) time }
    {
        if full <= self.credit {
            return self.holding(full, time);
        }
        self.holding(self.credit_at(full, time), time)
    }

    // The capacity of a sound account; one that is not is refused.
    #[tactic(auto, using(crate::proofs::Methods::by_values))]
    pub fn sound_capacity(self) -> Result<u32, Refusal>
        ensures { result ≡ sound_capacity self }
    {
        let full = self.terms.capacity();
        if full == 0 || full < self.credit {
            return Err(Refusal::Unsound);
        }
        Ok(full)
    }

    // The capacity, with the account; 0 where the policing step refuses the account. A sound account has 64 x 1,000 or
    // more, so 0 always means refused.
    #[tactic(auto, unfolding(crate::specs::Account::sound_capacity, crate::specs::Account::capacity_of))]
    pub fn capacity(self) -> Measured
        ensures { result ≡ measured (capacity_of self) self }
    {
        Measured {
            units: self.sound_capacity().unwrap_or(0),
            account: self,
        }
    }

    // The cost of a frame, with the account; 0 where the policing step refuses the octets or the account.
    #[tactic(auto, using(crate::proofs::Methods::by_soundness), unfolding(crate::specs::Account::sound_capacity))]
    pub fn cost(self, octets: usize) -> Measured
        ensures { result ≡ measured (cost_of self octets) self }
    {
        let units = match self.sound_capacity() {
            Ok(_) => self.terms.cost(octets),
            Err(_) => 0,
        };
        Measured {
            units,
            account: self,
        }
    }

    // The account brought to a time; unchanged where the policing step refuses the account or the time.
    #[tactic(auto, unfolding(crate::specs::Account::sound_capacity, crate::specs::Account::topped_up))]
    pub fn top_up(self, time: u64) -> Account
        ensures { result ≡ topped_up self time }
    {
        match self.sound_capacity() {
            Ok(full) if self.last <= time => self.brought_to(full, time),
            _ => self,
        }
    }

    // The account less a frame's cost; unchanged where the credit is short.
    #[tactic(auto, unfolding(crate::specs::Account::debited))]
    pub fn debit(self, octets: usize) -> Account
        ensures { result ≡ debited self octets }
    {
        match self.credit.checked_sub(self.cost(octets).units) {
            Some(left) => self.holding(left, self.last),
            None => self,
        }
    }

    // What is decided of a frame with a cost and a time, for a capacity in hand: late, short or forwarded.
    #[tactic(auto, unfolding(crate::specs::Step::judged_at, crate::specs::Step::judged))]
    pub fn judge(self, full: u32, cost: u32, time: u64) -> Ruling
        ensures { stepped result.outcome (holding self result.credit result.last) ≡ judged_at self full cost time }
    {
        if time < self.last {
            return Ruling {
                outcome: Outcome::Late(self.credit),
                credit: self.credit,
                last: self.last,
            };
        }
        let held = self.brought_to(full, time).credit;
        if held < cost {
            return Ruling {
                outcome: Outcome::Short(held),
                credit: held,
                last: time,
            };
        }
        let left = held - cost;
        Ruling {
            outcome: Outcome::Forwarded(left),
            credit: left,
            last: time,
        }
    }

    // What is decided of a frame of a length and a time, unless the frame or the account is refused.
    #[tactic(auto, using(crate::proofs::Step::refused_or_judged), unfolding(crate::specs::Account::sound_capacity, crate::specs::Step::policed))]
    fn rule(self, octets: usize, time: u64) -> Result<Ruling, Refusal>
        ensures { step_of self result ≡ policed self octets time }
    {
        frame::check_length(octets)?;
        let capacity = self.sound_capacity()?;
        Ok(self.judge(capacity, self.terms.cost(octets), time))
    }

    // The policing step: the answer for a frame of a length and a time, and the account after the step.
    pub fn police(self, octets: usize, time: u64) -> Policed
        ensures { stepped_of result ≡ policed self octets time }
    {
        match self.rule(octets, time) {
            Ok(ruling) => Policed {
                outcome: ruling.outcome,
                account: self.holding(ruling.credit, ruling.last),
            },
            Err(refusal) => Policed {
                outcome: Outcome::Refused(refusal.into()),
                account: self,
            },
        }
    }
}

// The policing step on an account that is lent; the new credit and last time are stored in that account.
pub fn police_in_place(a: &mut Account, octets: usize, time: u64) -> Outcome
    ensures { stepped result a.new ≡ policed a.old octets time }
{
    let Policed { outcome, account } = a.police(octets, time);
    *a = account;
    outcome
}
