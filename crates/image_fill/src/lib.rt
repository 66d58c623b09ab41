// Filling the lent runs from an image. A run that is too short is left as it is. Every function is total.
#![tactic(auto)]

ghost use Rattle.std.specs.Prelude.{◌≡◌, ◌∷◌, [], replicate};
ghost use Rattle.octets.specs.Runs.{joined, put};
ghost use Rattle.terms.specs.Terms.{checked_capacity};
ghost use Rattle.rows.specs.Rows.{row_octets};
ghost use Rattle.rows.specs.Spaced.{rows_of};
ghost use Rattle.tables.specs.Rows.{account_in};
ghost use Rattle.image_fill.specs.Filling.{long_enough, checked_filled};
ghost use Rattle.image_fill.specs.Lent.{runs_in, SameRuns};

use rows::SpacedRows;
use tables::{Link, Row};
use terms::Terms;

// The runs that loading is lent: rows of accounts, credits, last times, rows of links.
#[derive(Drop)]
pub struct LentRuns<'a> {
    pub accounts: &'a mut [u8],
    pub credits: &'a mut [u32],
    pub lasts: &'a mut [u64],
    pub links: &'a mut [u8],
}

impl LentRuns<'_> {
    // Whether the runs are long enough for so many accounts and links.
    #[tactic(auto, unfolding(crate::specs::Filling::runs_hold))]
    pub fn holds(&self, accounts: u16, links: u16) -> bool
        ensures { result ≡ long_enough accounts links (runs_in self.now) }
    {
        tables::ACCOUNT_OCTETS * accounts as usize <= self.accounts.len()
            && accounts as usize <= self.credits.len()
            && accounts as usize <= self.lasts.len()
            && tables::LINK_OCTETS * links as usize <= self.links.len()
    }
}

// Writes the data of the first n rows side by side into `to`.
fn copy_rows<R: Row>(from: SpacedRows, n: u16, to: &mut [u8])
    ensures { to.new ≡ put to.old 0 (joined (row_octets R.OCTETS (rows_of from.entry)) n) }
{
    let width = R::OCTETS;
    if to.len() < width * n as usize {
        return;
    }
    for i in 0..n {
        octets_write::copy(from.octets, from.offset(i), width, to, width * i as usize);
    }
}

// Writes the capacities of the first n accounts into `credits`.
fn fill_credits(accounts: SpacedRows, n: u16, credits: &mut [u32])
    ensures { credits.new ≡ put credits.old 0 (joined (λ i. checked_capacity (account_in (rows_of accounts.entry) i) ∷ []) n) }
{
    if credits.len() < n as usize {
        return;
    }
    for i in 0..n {
        let terms: Terms = tables::row_at(accounts.octets, accounts.offset(i));
        credits[i as usize] = terms.capacity();
    }
}

// Writes zeros for the first n last times.
fn clear_lasts(n: u16, lasts: &mut [u64])
    ensures { lasts.new ≡ put lasts.old 0 (replicate n 0) }
{
    if lasts.len() < n as usize {
        return;
    }
    lasts[..n as usize].fill(0);
}

// Fills the four runs: the rows of n accounts with their credits and last times, and the rows of m links.
#[tactic(auto, unfolding(crate::specs::Filling::checked_filled, crate::specs::Filling::account_rows, crate::specs::Filling::link_rows))]
pub fn fill_runs(image: &[u8], n: u16, m: u16, runs: &mut LentRuns)
    ensures filled { runs_in runs.new ≡ checked_filled image.now n m (runs_in runs.old) }
    ensures same_runs { SameRuns runs.old runs.new }
{
    let accounts = image_layout::account_fields(image);
    copy_rows::<Terms>(accounts, n, runs.accounts);
    fill_credits(accounts, n, runs.credits);
    clear_lasts(n, runs.lasts);
    copy_rows::<Link>(image_layout::link_fields(image, n), m, runs.links);
}
