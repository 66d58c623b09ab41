// Writing a configuration image from a constant field and the first rows of two tables.
#![tactic(auto)]

ghost use Rattle.std.specs.Prelude.{◌≡◌, length};
ghost use Rattle.tables.specs.Lent.{config_in};
ghost use Rattle.image_write.specs.Writing.{count_good, counts_good, written_by, writing_of, writing};

mod values;

use codes::Fault;
use image_read::ImageError;
use tables::LentTables;

// Whether a count is from 1 to its limit and so many rows of `size` octets are lent.
#[tactic(auto, unfolding(crate::specs::Writing::count_good))]
fn count_good(n: usize, limit: u16, size: u8, lent: usize) -> bool
    ensures { result ≡ count_good n limit size lent }
{
    1 <= n && n <= limit as usize && size as usize * n <= lent
}

// Whether both counts are good.
#[tactic(auto, unfolding(crate::specs::Writing::counts_good))]
fn counts_good(source: LentTables) -> bool
    ensures { result
        ≡ counts_good
        source.entry.accounts.now
        source.entry.settings.accounts
        source.entry.links.now
        source.entry.settings.links }
{
    let LentTables {
        settings,
        accounts,
        links,
    } = source;
    count_good(
        settings.accounts,
        image_layout::MAX_ACCOUNTS,
        tables::ACCOUNT_OCTETS as u8,
        accounts.len(),
    ) && count_good(
        settings.links,
        image_layout::MAX_LINKS,
        tables::LINK_OCTETS as u8,
        links.len(),
    )
}

// Writes the image of the first rows of two tables and returns its length. After an error the room is unchanged;
// otherwise the octets after the image are.
#[tactic(auto, using(crate::proofs::Writing::write_bad_count, crate::proofs::Writing::write_bad_value))]
pub fn write(source: LentTables, room: &mut [u8]) -> Result<usize, ImageError>
    ensures { writing_of (written_by result) room.new ≡ writing (config_in source.entry) room.old }
{
    if !counts_good(source) {
        return Err(ImageError {
            fault: Fault::BadCount,
            offset: 0,
        });
    }
    let n = source.settings.accounts as u16;
    let m = source.settings.links as u16;
    let size = values::image_size(source, n, m)?;
    if room.len() < size {
        return Err(ImageError {
            fault: Fault::NoRoom,
            offset: 0,
        });
    }
    image_octets::put_image(source, n, m, room);
    Ok(size)
}
