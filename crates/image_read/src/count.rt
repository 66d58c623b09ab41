// The counts of accounts and links in an image, and what reading the image answers.
ghost use Rattle.std.specs.Prelude.{◌≡◌, ◌≤◌, length};
ghost use Rattle.image_layout.specs.Layout.{account_tag, link_tag};
ghost use Rattle.image_read.specs.Read.{answered, good_field, good_accounts, good_links, read_end};

use super::{ImageError, field};
use codes::Fault;
use lists::Test;
use tables::Settings;

// Whether the field after so many accounts is a good account, one within the limit.
#[derive(Drop)]
struct GoodAccounts<'a> {
    image: &'a [u8],
}

impl Test for GoodAccounts<'_> {
    ghost passes = { λ test i. good_field test.image.now account_tag i 0 };

    #[tactic(auto, using(crate::proofs::Passing::account_over))]
    fn passes(&self, i: u16) -> bool {
        i < image_layout::MAX_ACCOUNTS && field::good_account(self.image, i)
    }
}

// Whether the field after these accounts and so many links is a good link, one within the limit.
#[derive(Drop)]
struct GoodLinks<'a> {
    image: &'a [u8],
    accounts: u16,
    ghost some_account: { 1 ≤ accounts },
}

impl Test for GoodLinks<'_> {
    ghost passes = { λ test j. good_field test.image.now link_tag test.accounts j };

    #[tactic(auto, using(crate::proofs::Passing::link_over))]
    fn passes(&self, j: u16) -> bool {
        j < image_layout::MAX_LINKS && field::good_link(self.image, self.accounts, j)
    }
}

// The number of good accounts after the head, up to the first field that is no account or is refused.
#[tactic(auto, unfolding(crate::specs::Read::good_accounts))]
pub(crate) fn count_accounts(image: &[u8]) -> u16
    ensures { result ≡ good_accounts image.now }
{
    lists::count_leading(image_layout::MAX_ACCOUNTS, &GoodAccounts { image })
}

// The number of good links after the accounts, up to the first field that is no link or is refused; 0 without accounts.
#[tactic(auto, using(crate::proofs::Passing::links_none), unfolding(crate::specs::Read::good_links))]
pub(crate) fn count_links(image: &[u8], accounts: u16) -> u16
    ensures { result ≡ good_links image.now accounts }
{
    if accounts == 0 {
        return 0;
    }
    lists::count_leading(image_layout::MAX_LINKS, &GoodLinks { image, accounts })
}

// The settings that the image names, if the field after so many accounts and links is a good end and the image ends with
// it.
#[tactic(auto, unfolding(crate::specs::Read::read_end))]
pub(crate) fn read_end(image: &[u8], accounts: u16, links: u16) -> Result<Settings, ImageError>
    ensures { answered (length image.now) result ≡ read_end image.now accounts links }
{
    image_field::check_next(image, accounts, links).map_err(|fault| ImageError {
        fault,
        offset: image_layout::field_offset(accounts, links),
    })?;
    let end = image_layout::data_offset(accounts, links);
    if end < image.len() {
        return Err(ImageError {
            fault: Fault::Surplus,
            offset: end,
        });
    }
    Ok(Settings {
        constant: octets::number_at(image, image_layout::CONSTANT_OFFSET),
        accounts: accounts as usize,
        links: links as usize,
    })
}
