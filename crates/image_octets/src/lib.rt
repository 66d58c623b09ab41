// Writing an image's octets into lent room. What has no room is not written at all.
#![tactic(auto)]

ghost use Rattle.std.specs.Prelude.{◌∷◌, ◌≡◌};
ghost use Rattle.octets.specs.Numbers.{octets_of};
ghost use Rattle.octets.specs.Runs.{octets_at, joined, put};
ghost use Rattle.rows.specs.Rows.{table_of, row_octets};
ghost use Rattle.tables.specs.Rows.{config_of};
ghost use Rattle.fields.specs.Fields.{field_of};
ghost use Rattle.image_layout.specs.Layout.{head_tag, edition, image_of};

use tables::LentTables;

// Writes the head.
#[tactic(auto, using(crate::proofs::Written::head_refused, crate::proofs::Written::head_inside, crate::proofs::Written::head_written))]
fn put_head(room: &mut [u8], constant: u32)
    ensures { room.new ≡ put room.old 0 (field_of head_tag (edition ∷ octets_of 4 constant)) }
{
    if room.len() < image_layout::HEAD_SIZE {
        return;
    }
    room[0] = image_layout::HEAD_TAG;
    octets_write::put_number(room, 1, image_layout::HEAD_OCTETS as u16);
    room[image_layout::EDITION_OFFSET] = image_layout::EDITION;
    octets_write::put_number(room, image_layout::CONSTANT_OFFSET, constant);
}

// Writes one field at an offset: the tag, the length, and `size` octets of the rows from `from` on.
fn put_field(room: &mut [u8], at: usize, tag: u8, rows: &[u8], from: usize, size: u8)
    ensures { room.new ≡ put room.old at (field_of tag (octets_at size rows.now from)) }
{
    if !octets::has_room(room.len(), at, fields::TAG_AND_LENGTH + size as usize) {
        return;
    }
    room[at] = tag;
    octets_write::put_number(room, at + 1, size as u16);
    octets_write::copy(rows, from, size as usize, room, at + fields::TAG_AND_LENGTH);
}

// Writes the fields of the first n rows of `size` octets, from an offset on.
fn put_fields(room: &mut [u8], at: usize, tag: u8, rows: &[u8], size: u8, n: u16)
    ensures { room.new
        ≡ put room.old at (joined (λ i. field_of tag (row_octets size (table_of size rows.now) i)) n) }
{
    let wide = size as usize;
    let step = fields::TAG_AND_LENGTH + wide;
    if !octets::has_room(room.len(), at, step * n as usize) {
        return;
    }
    for i in 0..n {
        let i = i as usize;
        put_field(room, at + step * i, tag, rows, wide * i, size);
    }
}

// Writes the whole image of n accounts and m links. The end has no data.
pub fn put_image(source: LentTables, n: u16, m: u16, room: &mut [u8])
    ensures { room.new
        ≡ put room.old 0 (image_of (config_of source.entry.settings.constant source.entry.accounts.now n source.entry.links.now m)) }
{
    if room.len() < image_layout::data_offset(n, m) {
        return;
    }
    put_head(room, source.settings.constant);
    put_fields(
        room,
        image_layout::field_offset(0, 0),
        image_layout::ACCOUNT_TAG,
        source.accounts,
        tables::ACCOUNT_OCTETS as u8,
        n,
    );
    put_fields(
        room,
        image_layout::field_offset(n, 0),
        image_layout::LINK_TAG,
        source.links,
        tables::LINK_OCTETS as u8,
        m,
    );
    put_field(
        room,
        image_layout::field_offset(n, m),
        image_layout::END_TAG,
        &[],
        0,
        0,
    );
}
