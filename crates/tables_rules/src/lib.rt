// The value rules of rows: those of an account's values, and those of a link among the accounts. Reading and writing an
// image answer 23 by these rules, and a frame call answers 10. Every function is total.
#![tactic(auto)]

ghost use Rattle.std.specs.Prelude.{◌≡◌};
ghost use Rattle.rows.specs.Spaced.{rows_of};
ghost use Rattle.tables.specs.Rows.{account_in};
ghost use Rattle.tables_rules.specs.Rules.{ports_sound, sizes_sound, link_sound, account_good, number_rises, link_good};

use rows::SpacedRows;
use tables::Link;
use terms::Terms;

// Ports of a switch.
const PORT_COUNT: u8 = 32;

// Whether a port is an input port, and a mask names some output port but not the input port.
#[tactic(auto, unfolding(crate::specs::Rules::ports_sound))]
fn ports_sound(port: u8, mask: u32) -> bool
    ensures { result ≡ ports_sound port mask }
{
    port < PORT_COUNT && mask != 0 && (mask >> port) & 1 == 0
}

// Whether frame sizes rise from the smallest frame to Smax.
#[tactic(auto, unfolding(crate::specs::Rules::sizes_sound))]
fn sizes_sound(smallest: u16, largest: u16, smax: u16) -> bool
    ensures { result ≡ sizes_sound smallest largest smax }
{
    frame::SMALLEST_FRAME <= smallest as usize && smallest <= largest && largest <= smax
}

// Whether a link's values keep their rules among so many accounts; `smax` is the Smax of the link's account.
#[tactic(auto, unfolding(crate::specs::Rules::link_sound))]
pub fn link_sound(link: Link, accounts: usize, smax: u16) -> bool
    ensures { result ≡ link_sound link accounts smax }
{
    (link.account as usize) < accounts
        && ports_sound(link.port, link.mask)
        && sizes_sound(link.smallest, link.largest, smax)
}

// Whether the values of row i of the accounts keep their limits.
#[tactic(auto, using(crate::proofs::Rules::account_row), unfolding(crate::specs::Rules::account_good))]
pub fn account_good(accounts: SpacedRows, i: u16) -> bool
    ensures { result ≡ account_good (rows_of accounts.entry) i }
{
    tables::row_at::<Terms>(accounts.octets, accounts.offset(i)).are_good()
}

// Smax of row i of the accounts.
#[tactic(auto, using(crate::proofs::Rules::smax_row))]
fn smax_of(accounts: SpacedRows, i: u16) -> u16
    ensures { result ≡ (account_in (rows_of accounts.entry) i).smax }
{
    octets::number_at(accounts.octets, accounts.offset(i))
}

// Whether the number in row j of the links is above that of the row before it.
#[tactic(auto, using(crate::proofs::Rules::number_row), unfolding(crate::specs::Rules::number_rises))]
fn number_rises(links: SpacedRows, j: u16) -> bool
    ensures { result ≡ number_rises (rows_of links.entry) j }
{
    if j == 0 {
        return true;
    }
    let before = octets::number_at::<u16>(links.octets, links.offset(j - 1));
    before < octets::number_at::<u16>(links.octets, links.offset(j))
}

// Whether the values of row j of the links keep their rules among n accounts, by the Smax of the link's own account.
#[tactic(auto, using(crate::proofs::Rules::link_row), unfolding(crate::specs::Rules::link_good))]
pub fn link_good(accounts: SpacedRows, n: u16, links: SpacedRows, j: u16) -> bool
    ensures { result ≡ link_good (rows_of accounts.entry) (rows_of links.entry) n j }
{
    if !number_rises(links, j) {
        return false;
    }
    let link = tables::row_at::<Link>(links.octets, links.offset(j));
    link_sound(link, n as usize, smax_of(accounts, link.account))
}
