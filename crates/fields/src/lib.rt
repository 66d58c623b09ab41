// Tagged fields: one octet tag, two octets length, then the data. The configuration image and a log are made of such
// fields. Every function is total: an octet past the end reads as 0.
#![tactic(auto)]

ghost use Rattle.std.specs.Prelude.{◌≡◌};
ghost use Rattle.fields.specs.Fields.{field_at, stands_at};

// Octets of a field's tag and length.
pub const TAG_AND_LENGTH: usize = 3;

// What stands at an offset: the tag and the length, whether both are there, and whether all data are there.
#[derive(Clone, Copy)]
pub struct Field {
    pub headed: bool,
    pub tag: u8,
    pub size: u16,
    pub whole: bool,
}

// The field at an offset; an octet past the end reads as 0.
pub fn read(run: &[u8], at: usize) -> Field
    ensures { result ≡ field_at run.now at }
{
    let size = octets::number_at::<u16>(run, at.saturating_add(1));
    Field {
        headed: octets::has_room(run.len(), at, TAG_AND_LENGTH),
        tag: octets::octet_at(run, at),
        size,
        whole: octets::has_room(run.len(), at, TAG_AND_LENGTH + size as usize),
    }
}

// Whether a field of this tag and this length stands whole at an offset.
#[tactic(auto, unfolding(crate::specs::Fields::stands_at))]
pub fn stands(run: &[u8], at: usize, tag: u8, size: u16) -> bool
    ensures { result ≡ stands_at run.now at tag size }
{
    octets::has_room(run.len(), at, TAG_AND_LENGTH + size as usize)
        && octets::octet_at(run, at) == tag
        && octets::number_at::<u16>(run, at + 1) == size
}
