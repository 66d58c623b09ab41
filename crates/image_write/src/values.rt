// The checks of the values that an image is written from.
ghost use Rattle.std.specs.Prelude.{◌≡◌};
ghost use Rattle.rows.specs.Rows.{table_of};
ghost use Rattle.rows.specs.Spaced.{rows_of};
ghost use Rattle.tables.specs.Rows.{config_of};
ghost use Rattle.tables_rules.specs.Rules.{account_good, link_good};
ghost use Rattle.lists.specs.Leading.{leading};
ghost use Rattle.image_write.specs.Writing.{written_by, value_answer};

use codes::Fault;
use image_read::ImageError;
use lists::Test;
use rows::SpacedRows;
use tables::LentTables;

// Rows of `step` octets that touch.
fn touching(octets: &[u8], step: u8) -> SpacedRows
    ensures { rows_of result ≡ table_of step octets.now }
{
    SpacedRows {
        octets,
        first: 0,
        step,
    }
}

// Whether an account row has no bad value.
#[derive(Drop)]
struct GoodAccounts<'a> {
    accounts: SpacedRows<'a>,
}

impl Test for GoodAccounts<'_> {
    ghost passes = { λ test i. account_good (rows_of test.accounts) i };

    fn passes(&self, i: u16) -> bool {
        tables_rules::account_good(self.accounts, i)
    }
}

// Whether a link row has no bad value and names one of the first n accounts.
#[derive(Drop)]
struct GoodLinks<'a> {
    accounts: SpacedRows<'a>,
    n: u16,
    links: SpacedRows<'a>,
}

impl Test for GoodLinks<'_> {
    ghost passes = { λ test j. link_good (rows_of test.accounts) (rows_of test.links) test.n j };

    fn passes(&self, j: u16) -> bool {
        tables_rules::link_good(self.accounts, self.n, self.links, j)
    }
}

// The first of n account rows with a bad value, n where no row has one.
fn bad_account(accounts: SpacedRows, n: u16) -> u16
    ensures { result ≡ leading (account_good (rows_of accounts.entry)) n }
{
    lists::count_leading(n, &GoodAccounts { accounts })
}

// The first of m link rows with a bad value, m where no row has one.
fn bad_link(accounts: SpacedRows, n: u16, links: SpacedRows, m: u16) -> u16
    ensures { result ≡ leading (link_good (rows_of accounts.entry) (rows_of links.entry) n) m }
{
    lists::count_leading(m, &GoodLinks { accounts, n, links })
}

// The length of the image, if no value is bad; otherwise the fault's offset is the one that the first bad field would have.
#[tactic(auto, using(crate::proofs::Writing::constant_bad))]
pub(crate) fn image_size(source: LentTables, n: u16, m: u16) -> Result<usize, ImageError>
    ensures { written_by result
        ≡ value_answer (config_of source.entry.settings.constant source.entry.accounts.now n source.entry.links.now m) }
{
    if !image_layout::constant_good(source.settings.constant) {
        return Err(ImageError {
            fault: Fault::BadValue,
            offset: 0,
        });
    }
    let accounts = touching(source.accounts, tables::ACCOUNT_OCTETS as u8);
    let account = bad_account(accounts, n);
    if account < n {
        return Err(ImageError {
            fault: Fault::BadValue,
            offset: image_layout::field_offset(account, 0),
        });
    }
    let links = touching(source.links, tables::LINK_OCTETS as u8);
    let link = bad_link(accounts, n, links, m);
    if link < m {
        return Err(ImageError {
            fault: Fault::BadValue,
            offset: image_layout::field_offset(n, link),
        });
    }
    Ok(image_layout::data_offset(n, m))
}
