// The frame call: the filter by the tables that the caller lends, then the policing step on the link's account.
#![tactic(auto)]

ghost use Rattle.std.specs.Prelude.{◌≡◌, ◌+◌, ◌*◌, ◌≤◌, ◌<◌, length};
ghost use Rattle.frame.specs.Frame.{length_code};
ghost use Rattle.tables.specs.Rows.{account_octets};
ghost use Rattle.tables.specs.Lent.{config_in};
ghost use Rattle.switch_verdict.specs.Verdict.{reported};
ghost use Rattle.switch.specs.Call.{in_use_by, account_held, decision_of, decided, state_of, call_of, after_of, call_after, called};

use account::{Account, Ruling};
use codes::Refusal;
use switch_verdict::Verdict;
use tables::{LentTables, Link, Row};
use terms::Terms;

// How a frame came in: the port, and the time in microseconds.
#[derive(Clone, Copy)]
pub struct Ingress {
    pub port: u32,
    pub time: u64,
}

// What is decided of a frame for its link and account, `used` accounts being in use, unless it is refused: by 10, then 5,
// 6 and 7, then the last part of the policing step, `judge`. The capacity is asked once and handed on to `judge`.
#[tactic(auto, using(crate::proofs::Call::decided_account, crate::proofs::Call::decided_port), unfolding(crate::specs::Call::decided))]
fn decide(
    link: Link,
    used: usize,
    account: Account,
    octets: usize,
    ingress: Ingress,
) -> Result<Ruling, Refusal>
    requires { length_code octets ≡ 0 }
    ensures { decision_of link account result ≡ decided link used account octets ingress.port ingress.time }
{
    if !tables_rules::link_sound(link, used, account.terms.smax) {
        return Err(Refusal::Unsound);
    }
    let capacity = account.sound_capacity()?;
    filter::check_port(link, octets, ingress.port)?;
    Ok(account.judge(capacity, account.terms.cost(octets), ingress.time))
}

// Accounts in use: the count, or the number of rows in the shortest run lent where that is less.
#[tactic(auto, unfolding(crate::specs::Call::in_use_by))]
fn accounts_in_use(tables: LentTables, credits: usize, lasts: usize) -> usize
    ensures { result ≡ in_use_by tables.entry.settings.accounts (length tables.entry.accounts.now) credits lasts }
{
    let rows = tables.accounts.len() / tables::ACCOUNT_OCTETS;
    tables.settings.accounts.min(rows.min(credits.min(lasts)))
}

// Account a, which is in use, with its credit and last time.
fn account_held(accounts: &[u8], credits: &[u32], lasts: &[u64], a: u16) -> Account
    requires row_inside { account_octets * a + account_octets ≤ length accounts.now }
    requires credit_inside { a < length credits.now }
    requires last_inside { a < length lasts.now }
    ensures { result ≡ account_held accounts.now (state_of credits.now lasts.now) a }
{
    let i = a as usize;
    let row = tables::ACCOUNT_OCTETS * i;
    Account {
        terms: Terms::of_octets(&accounts[row..row + tables::ACCOUNT_OCTETS]),
        credit: credits[i],
        last: lasts[i],
    }
}

// The verdict on a frame that is not refused; the credit and the last time of the frame's account are stored.
#[tactic(auto, using(crate::proofs::Call::link_sized), unfolding(crate::specs::Call::in_use_by))]
fn verdict_on(
    frame: &[u8],
    ingress: Ingress,
    tables: LentTables,
    credits: &mut [u32],
    lasts: &mut [u64],
) -> Result<Verdict, Refusal>
    ensures { call_after result (state_of credits.new lasts.new)
        ≡ called (config_in tables.entry) (state_of credits.old lasts.old) (call_of frame.now ingress.port ingress.time) }
{
    let settings = tables.settings;
    let link = filter::find_link(frame, settings.constant, tables.links, settings.links)?;
    let used = accounts_in_use(tables, credits.len(), lasts.len());
    let a = link.account as usize;
    if used <= a {
        return Err(Refusal::Unsound);
    }
    let account = account_held(tables.accounts, credits, lasts, link.account);
    let ruling = decide(link, used, account, frame.len(), ingress)?;
    credits[a] = ruling.credit;
    lasts[a] = ruling.last;
    Ok(Verdict::of_outcome(ruling.outcome, link.mask))
}

// The frame call: returns the verdict on a frame, and stores the credit and the last time of the frame's account. Any
// tables, settings and octets get an answer; no row beyond the counts is looked at.
pub fn frame_call(
    frame: &[u8],
    ingress: Ingress,
    tables: LentTables,
    credits: &mut [u32],
    lasts: &mut [u64],
) -> Verdict
    ensures { after_of (reported result) (state_of credits.new lasts.new)
        ≡ called (config_in tables.entry) (state_of credits.old lasts.old) (call_of frame.now ingress.port ingress.time) }
{
    let verdict = verdict_on(frame, ingress, tables, credits, lasts);
    verdict.unwrap_or_else(|refusal| Verdict::Refused(refusal.into()))
}
