// Accounts and links that pass every check, found with fewer tests than their exact codes take.
ghost use Rattle.std.specs.Prelude.{◌≡◌, ◌≤◌, ◌<◌};
ghost use Rattle.image_layout.specs.Layout.{account_tag, link_tag, max_accounts, max_links};
ghost use Rattle.tables.specs.Rows.{account_in, link_in};
ghost use Rattle.tables_rules.specs.Rules.{number_rises};
ghost use Rattle.image_read.specs.Read.{good_field};
ghost use Rattle.image_field.specs.Checks.{account_fields, link_fields};

use tables::{Link, Row};
use terms::Terms;

// The lengths of an account's data and of a link's data, as a field names a length.
const ACCOUNT_LENGTH: u16 = tables::ACCOUNT_OCTETS as u16;

const LINK_LENGTH: u16 = tables::LINK_OCTETS as u16;

// Whether the field after i accounts is an account that passes every check: the field stands whole and its values keep
// their limits.
pub(crate) fn good_account(image: &[u8], i: u16) -> bool
    requires { i < max_accounts }
    ensures { result ≡ good_field image.now account_tag i 0 }
{
    let at = image_layout::field_offset(i, 0);
    if !fields::stands(image, at, image_layout::ACCOUNT_TAG, ACCOUNT_LENGTH) {
        return false;
    }
    let row = at + fields::TAG_AND_LENGTH;
    Terms::of_octets(&image[row..row + tables::ACCOUNT_OCTETS]).are_good()
}

// Whether the number of link j is above that of the link before it; true for the first link.
#[tactic(auto, using(tables_rules::proofs::Rules::rises_first, crate::proofs::Values::rises_above))]
fn number_rises(image: &[u8], accounts: u16, j: u16, number: u16) -> bool
    requires { number ≡ (link_in (link_fields image.now accounts) j).number }
    ensures { result ≡ number_rises (link_fields image.now accounts) j }
{
    if j == 0 {
        return true;
    }
    octets::number_at::<u16>(image, image_layout::data_offset(accounts, j - 1)) < number
}

// Smax of an account of the image.
#[tactic(auto, using(crate::proofs::Values::account_smax))]
fn smax_of(image: &[u8], account: u16) -> u16
    ensures { result ≡ (account_in (account_fields image.now) account).smax }
{
    octets::number_at(image, image_layout::data_offset(account, 0))
}

// Whether the field after so many accounts and j links is a link that passes every check.
pub(crate) fn good_link(image: &[u8], accounts: u16, j: u16) -> bool
    requires some_account { 1 ≤ accounts }
    requires link_allowed { j < max_links }
    ensures { result ≡ good_field image.now link_tag accounts j }
{
    let at = image_layout::field_offset(accounts, j);
    if !fields::stands(image, at, image_layout::LINK_TAG, LINK_LENGTH) {
        return false;
    }
    let row = at + fields::TAG_AND_LENGTH;
    let link = Link::of_octets(&image[row..row + tables::LINK_OCTETS]);
    if !number_rises(image, accounts, j, link.number) {
        return false;
    }
    tables_rules::link_sound(link, accounts as usize, smax_of(image, link.account))
}
