// The layout of a configuration image: tags, sizes, limits, and where a field stands.
#![tactic(auto)]

ghost use Rattle.std.specs.Prelude.{◌≡◌};
ghost use Rattle.image_layout.specs.Layout.{account_size, link_size, field_offset, data_offset, image_prefix, constant_good};
ghost use Rattle.rows.specs.Rows.{spaced};
ghost use Rattle.rows.specs.Spaced.{rows_of};

use rows::SpacedRows;

// The tags, and the only edition.
pub const HEAD_TAG: u8 = 1;

pub const ACCOUNT_TAG: u8 = 2;

pub const LINK_TAG: u8 = 3;

pub const END_TAG: u8 = 9;

pub const EDITION: u8 = 1;

// Octets of the head's data, and of each whole field.
pub const HEAD_OCTETS: usize = 5;

pub const HEAD_SIZE: usize = fields::TAG_AND_LENGTH + HEAD_OCTETS;

pub const ACCOUNT_SIZE: usize = fields::TAG_AND_LENGTH + tables::ACCOUNT_OCTETS;

pub const LINK_SIZE: usize = fields::TAG_AND_LENGTH + tables::LINK_OCTETS;

// The largest counts of accounts and of links.
pub const MAX_ACCOUNTS: u16 = 64;

pub const MAX_LINKS: u16 = 256;

// The number of octets that settle what an image is answered, however long the image is.
pub const IMAGE_PREFIX: usize = HEAD_SIZE
    + ACCOUNT_SIZE * MAX_ACCOUNTS as usize
    + LINK_SIZE * (MAX_LINKS as usize + 1);

// The offset of the head's edition, and that of the constant field.
pub const EDITION_OFFSET: usize = fields::TAG_AND_LENGTH;

pub const CONSTANT_OFFSET: usize = EDITION_OFFSET + 1;

// The prefix as a value, equal to the figure that the definitions give.
pub fn image_prefix() -> usize
    ensures { result ≡ image_prefix }
{
    IMAGE_PREFIX
}

// The offset of the field after so many accounts and links.
pub fn field_offset(accounts: u16, links: u16) -> usize
    ensures { result ≡ field_offset accounts links }
{
    HEAD_SIZE + ACCOUNT_SIZE * accounts as usize + LINK_SIZE * links as usize
}

// The offset of the data of the field after so many accounts and links.
pub fn data_offset(accounts: u16, links: u16) -> usize
    ensures { result ≡ data_offset accounts links }
{
    HEAD_SIZE
        + ACCOUNT_SIZE * accounts as usize
        + LINK_SIZE * links as usize
        + fields::TAG_AND_LENGTH
}

// The accounts' data in an image, as rows.
pub fn account_fields(image: &[u8]) -> SpacedRows
    ensures { rows_of result ≡ spaced image.now (data_offset 0 0) account_size }
{
    SpacedRows {
        octets: image,
        first: data_offset(0, 0),
        step: ACCOUNT_SIZE as u8,
    }
}

// The links' data in an image with so many accounts, as rows.
pub fn link_fields(image: &[u8], accounts: u16) -> SpacedRows
    ensures { rows_of result ≡ spaced image.now (data_offset accounts 0) link_size }
{
    SpacedRows {
        octets: image,
        first: data_offset(accounts, 0),
        step: LINK_SIZE as u8,
    }
}

// Whether the two low bits of a constant field's first octet are set.
pub fn constant_good(constant: u32) -> bool
    ensures { result ≡ constant_good constant }
{
    (constant >> 24) & 3 == 3
}
