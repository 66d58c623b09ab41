// Rows at equal distances in a run of octets, each beginning with a number of two octets: where a row stands, and the
// first row in use that has a number. Every function is total.
#![tactic(auto)]

ghost use Rattle.std.specs.Prelude.{◌≡◌, ◌+◌, ◌*◌, ◌≤◌, min, length};
ghost use Rattle.octets.specs.Numbers.{number_at};
ghost use Rattle.rows.specs.Rows.{number_octets, table_of, in_use, found_in};
ghost use Rattle.rows.specs.Spaced.{rows_of};

// Octets of a row's number.
pub const NUMBER_OCTETS: usize = 2;

// Rows in a run of octets: the offset of the first row, and the distance from one row to the next.
#[derive(Clone, Copy)]
pub struct SpacedRows<'a> {
    pub octets: &'a [u8],
    pub first: usize,
    pub step: u8,
}

impl<'a> SpacedRows<'a> {
    // The offset of row i; a first row past the end is cut to the end, where all octets are 0 too.
    pub fn offset(self, i: u16) -> usize
        ensures { result ≡ min self.entry.first (length self.entry.octets.now) + self.entry.step * i }
    {
        self.first.min(self.octets.len()) + self.step as usize * i as usize
    }
}

// The number of a row that lies inside the run, read from a part of two octets.
#[tactic(auto, using(octets::proofs::Parts::number_within))]
fn number_in(rows: &[u8], at: usize) -> u16
    requires { at + number_octets ≤ length rows.now }
    ensures { result ≡ number_at number_octets rows.now at }
{
    octets::number_at(&rows[at..at + NUMBER_OCTETS], 0)
}

// The first of `used` rows that has the number, two rows a turn. All of these rows lie inside the run.
fn search(rows: &[u8], width: usize, used: usize, number: u16) -> Option<usize>
    requires number_inside { number_octets ≤ width }
    requires rows_inside { width * used ≤ length rows.now }
    ensures { result ≡ found_in (table_of width rows.now) used number }
{
    for pair in 0..used / 2 {
        let i = 2 * pair;
        if number_in(rows, width * i) == number {
            return Some(i);
        }
        let next = i + 1;
        if number_in(rows, width * next) == number {
            return Some(next);
        }
    }
    if used % 2 == 0 {
        return None;
    }
    let last = used - 1;
    if number_in(rows, width * last) == number {
        return Some(last);
    }
    None
}

// The first of the rows in use that has the number; a row has `rest` octets after its number. A count larger than the
// rows lent is read as their number.
pub fn find(rows: &[u8], rest: u8, count: usize, number: u16) -> Option<usize>
    ensures { result ≡ found_in
        (table_of (number_octets + rest) rows.now)
        (in_use (number_octets + rest) (length rows.now) count)
        number }
{
    let width = NUMBER_OCTETS + rest as usize;
    let used = count.min(rows.len() / width);
    search(rows, width, used, number)
}
