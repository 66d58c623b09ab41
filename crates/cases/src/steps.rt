// Policing steps and methods, on an account. The first letter of a line says what the line is:
//   # ..                                        a heading
//   account Smax k jitter mode credit last      sets the account
//   step octets time                            a policing step: code and credit, `-` for none
//   debit octets                                the account less a frame's cost: the credit left
//   top up credit time                          the account with a credit, topped up: credit and last time; the account stays
//   capacity                                    the account's capacity
//   cost mode octets                            a frame's cost in a mode
//   last                                        the account's last time
// A remainder keeps each number within its width; no case needs the remainder.
use super::say;
use super::script::Numbers;
use account::Account;
use std::io::Stdout;
use terms::Terms;

fn account_of(n: Numbers) -> Account {
    let terms = Terms {
        smax: (n.a % 65536) as u16,
        k: (n.b % 256) as u8,
        jitter: (n.c % 65536) as u16,
        mode: (n.d % 256) as u8,
    };
    Account {
        terms,
        credit: (n.e % 0x0001_0000_0000) as u32,
        last: n.f,
    }
}

// Takes a policing step, and prints its code and credit, `-` for no credit.
fn step(out: Stdout, account: Account, octets: usize, time: u64) -> Account {
    let policed = account.police(octets, time);
    say::arrow(out);
    say::number(out, policed.outcome.code() as u64);
    say::optional(out, policed.outcome.credit());
    policed.account
}

fn debit(out: Stdout, account: Account, octets: usize) -> Account {
    let after = account.debit(octets);
    say::number(out, after.credit as u64);
    after
}

fn top_up(out: Stdout, account: Account, credit: u64, time: u64) {
    let credit = (credit % 0x0001_0000_0000) as u32;
    let after = Account { credit, ..account }.top_up(time);
    say::arrow(out);
    say::numbers(out, &[after.credit as u64, after.last]);
}

fn cost(out: Stdout, mut account: Account, mode: u64, octets: usize) {
    account.terms.mode = (mode % 256) as u8;
    say::arrow(out);
    say::number(out, account.cost(octets).units as u64);
}

// Prints the capacity or, for a line with octets, the cost of these octets.
fn figure(out: Stdout, account: Account, mode: u64, octets: u64) {
    if octets == 0 {
        say::number(out, account.capacity().units as u64);
    } else {
        cost(out, account, mode, octets as usize);
    }
}

// Answers a line; returns the account after it.
pub(crate) fn line(out: Stdout, account: Account, n: Numbers) -> Account {
    match n.verb {
        b'a' => return account_of(n),
        b's' => return step(out, account, n.a as usize, n.b),
        b'd' => return debit(out, account, n.a as usize),
        b't' => top_up(out, account, n.b, n.c),
        b'c' => figure(out, account, n.a, n.b),
        b'l' => say::number(out, account.last),
        _ => (),
    }
    account
}
