// The tables that a switch is lent: rows of 6 octets an account and 13 a link, in the order of the image's data. Rows
// are decoded here, and a link's number is looked up.
#![tactic(auto)]

ghost use Rattle.std.specs.Prelude.{◌≡◌, ℕ, List, ◌≤◌};
ghost use Rattle.std.proofs.Common.{rules};
ghost use Rattle.tables.specs.Rows.{account_octets, terms_at, link_octets, link_at, found, lookup_in};
ghost use Rattle.tables.specs.Decoded.{ReadByOctets};
ghost use Rattle.tables.specs.Laws.{terms_same, link_same};

use terms::Terms;

// Octets of an account row and of a link row.
pub const ACCOUNT_OCTETS: usize = 6;

pub const LINK_OCTETS: usize = 13;

// A virtual link: number, input port, mask of output ports (the low bit is port 0), frame sizes, account.
#[derive(Clone, Copy)]
pub struct Link {
    pub number: u16,
    pub port: u8,
    pub mask: u32,
    pub smallest: u16,
    pub largest: u16,
    pub account: u16,
}

// The settings of a switch, which loading an image answers and a frame call takes: the constant field, and how many
// accounts and links the image named.
#[derive(Clone, Copy)]
pub struct Settings {
    pub constant: u32,
    pub accounts: usize,
    pub links: usize,
}

// What an image is written from and what a frame call is lent: the settings, the rows of accounts and the rows of links.
#[derive(Clone, Copy)]
pub struct LentTables<'a> {
    pub settings: Settings,
    pub accounts: &'a [u8],
    pub links: &'a [u8],
}

// A row of a table: what its octets say.
pub trait Row: Copy {
    // The octets of a row.
    const OCTETS: usize;

    ghost OCTETS: { ℕ };

    // What the octets from an offset on say; an octet past the end counts as 0.
    ghost decoded: { List ℕ → ℕ → Self };

    // What the first octets of a run say; a missing octet counts as 0.
    fn of_octets(row: &[u8]) -> Self
        ensures { result ≡ decoded row.now 0 };

    ghost at_most_a_link: { OCTETS ≤ link_octets };

    ghost read_by_octets: { ReadByOctets OCTETS decoded };
}

impl Row for Terms {
    const OCTETS: usize = ACCOUNT_OCTETS;

    ghost OCTETS = { account_octets };

    ghost decoded = { terms_at };

    ghost at_most_a_link = { Prim.search rules };

    ghost read_by_octets = { terms_same };

    #[tactic(auto, unfolding(crate::specs::Rows::terms_at))]
    fn of_octets(row: &[u8]) -> Terms {
        Terms {
            smax: octets::number_at(row, 0),
            k: octets::octet_at(row, 2),
            jitter: octets::number_at(row, 3),
            mode: octets::octet_at(row, 5),
        }
    }
}

impl Row for Link {
    const OCTETS: usize = LINK_OCTETS;

    ghost OCTETS = { link_octets };

    ghost decoded = { link_at };

    ghost at_most_a_link = { Prim.search rules };

    ghost read_by_octets = { link_same };

    #[tactic(auto, unfolding(crate::specs::Rows::link_at))]
    fn of_octets(row: &[u8]) -> Link {
        Link {
            number: octets::number_at(row, 0),
            port: octets::octet_at(row, 2),
            mask: octets::number_at(row, 3),
            smallest: octets::number_at(row, 7),
            largest: octets::number_at(row, 9),
            account: octets::number_at(row, 11),
        }
    }
}

// The row at an offset; a missing octet counts as 0.
pub fn row_at<R: Row>(rows: &[u8], at: usize) -> R
    ensures { result ≡ R.decoded rows.now at }
{
    if octets::has_room(rows.len(), at, R::OCTETS) {
        return R::of_octets(&rows[at..at + R::OCTETS]);
    }
    R::of_octets(&rows[at.min(rows.len())..])
}

// The first of the rows in use that has the number. A count larger than the rows lent is read as their number.
pub fn find(links: &[u8], count: usize, number: u16) -> Option<usize>
    ensures { result ≡ found links.now count number }
{
    let rest = LINK_OCTETS - rows::NUMBER_OCTETS;
    rows::find(links, rest as u8, count, number)
}

// The link of the first row in use that has the number. A row that is found lies inside the run.
#[tactic(auto, using(crate::proofs::Rows::link_within))]
pub fn look_up(links: &[u8], count: usize, number: u16) -> Option<Link>
    ensures { result ≡ lookup_in links.now (found links.now count number) }
{
    let row = find(links, count, number)?;
    let at = LINK_OCTETS * row;
    Some(Link::of_octets(&links[at..at + LINK_OCTETS]))
}
