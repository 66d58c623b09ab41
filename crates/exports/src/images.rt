// Reading, loading and writing a configuration image, in numbers.
ghost use Rattle.std.specs.Prelude.{◌≡◌};
ghost use Rattle.tables.specs.Rows.{config_of};
ghost use Rattle.image_read.specs.Read.{read_image, answered};
ghost use Rattle.image_load.specs.Loading.{loading_of, loading};
ghost use Rattle.image_fill.specs.Filling.{runs_of};
ghost use Rattle.image_write.specs.Writing.{written_of, writing_of, writing};
ghost use Rattle.exports.specs.Numbers.{loaded_with};

use image_fill::LentRuns;
use image_read::{ImageAnswer, ImageError};
use tables::{LentTables, Settings};

// Writes the parts of an answer to the caller's places; returns the code. `length` is the image's length, the offset of
// success.
fn report(
    answer: Result<Settings, ImageError>,
    length: usize,
    offset: &mut usize,
    constant: &mut u32,
    account_count: &mut usize,
    link_count: &mut usize,
) -> u8
    ensures { loaded_with result offset.new constant.new account_count.new link_count.new ≡ answered length answer }
{
    let parts = ImageAnswer::of(answer, length);
    *offset = parts.offset;
    *constant = parts.settings.constant;
    *account_count = parts.settings.accounts;
    *link_count = parts.settings.links;
    parts.code
}

// Reads an image with no tables lent: returns the code; writes the rest of the answer.
#[unsafe(no_mangle)]
pub extern "C" fn ashthulgo_check(
    image: &[u8],
    offset: &mut usize,
    constant: &mut u32,
    account_count: &mut usize,
    link_count: &mut usize,
) -> u8
    ensures { loaded_with result offset.new constant.new account_count.new link_count.new
        ≡ read_image image.now }
{
    let answer = image_read::check(image);
    report(
        answer,
        image.len(),
        offset,
        constant,
        account_count,
        link_count,
    )
}

// Loads an image into lent tables: returns the code; writes the rest of the answer.
#[unsafe(no_mangle)]
pub extern "C" fn ashthulgo_load(
    image: &[u8],
    accounts: &mut [u8],
    credits: &mut [u32],
    lasts: &mut [u64],
    links: &mut [u8],
    offset: &mut usize,
    constant: &mut u32,
    account_count: &mut usize,
    link_count: &mut usize,
) -> u8
    ensures { loading_of
        (loaded_with result offset.new constant.new account_count.new link_count.new)
        (runs_of accounts.new credits.new lasts.new links.new)
        ≡ loading image.now
        (runs_of accounts.old credits.old lasts.old links.old) }
{
    let mut runs = LentRuns {
        accounts,
        credits,
        lasts,
        links,
    };
    let answer = image_load::load(image, &mut runs);
    report(
        answer,
        image.len(),
        offset,
        constant,
        account_count,
        link_count,
    )
}

// Loads an image into lent tables through a reader that stands at any place; the place is then the offset answered.
#[unsafe(no_mangle)]
pub extern "C" fn ashthulgo_reader_load(
    image: &[u8],
    place: &mut usize,
    accounts: &mut [u8],
    credits: &mut [u32],
    lasts: &mut [u64],
    links: &mut [u8],
    offset: &mut usize,
    constant: &mut u32,
    account_count: &mut usize,
    link_count: &mut usize,
) -> u8
    ensures loaded { loading_of
        (loaded_with result offset.new constant.new account_count.new link_count.new)
        (runs_of accounts.new credits.new lasts.new links.new)
        ≡ loading image.now
        (runs_of accounts.old credits.old lasts.old links.old) }
    ensures place { place.new ≡ offset.new }
{
    let mut runs = LentRuns {
        accounts,
        credits,
        lasts,
        links,
    };
    let reading = image_reader_lent::load_from(image, *place, &mut runs);
    *place = reading.at;
    report(
        reading.answer,
        image.len(),
        offset,
        constant,
        account_count,
        link_count,
    )
}

// Writes the image of the first rows of two tables: returns the code; writes the offset or the image's length.
#[unsafe(no_mangle)]
pub extern "C" fn ashthulgo_write(
    constant: u32,
    accounts: &[u8],
    account_count: usize,
    links: &[u8],
    link_count: usize,
    room: &mut [u8],
    offset: &mut usize,
) -> u8
    ensures { writing_of (written_of result offset.new) room.new
        ≡ writing (config_of constant accounts.now account_count links.now link_count) room.old }
{
    let settings = Settings {
        constant,
        accounts: account_count,
        links: link_count,
    };
    let source = LentTables {
        settings,
        accounts,
        links,
    };
    let (code, at) = match image_write::write(source, room) {
        Ok(length) => (codes::SUCCESS, length),
        Err(error) => (error.fault.into(), error.offset),
    };
    *offset = at;
    code
}
