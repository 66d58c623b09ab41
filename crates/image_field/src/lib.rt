// The checks of one field of an image: of the head, and of the field after so many accounts and links. Every function is
// total.
#![tactic(auto)]

ghost use Rattle.std.specs.Prelude.{◌≡◌, true, false, MatchResult};
ghost use Rattle.codes.specs.Refused.{fault_code};
ghost use Rattle.image_field.specs.Checks.{head_good, head_code, next_code};

mod kind;

use codes::Fault;
use image_layout::{CONSTANT_OFFSET, EDITION, EDITION_OFFSET, HEAD_OCTETS, HEAD_TAG};
use kind::Kind;

// Finds a fault unless the condition holds.
fn require(holds: bool, fault: Fault) -> Result<(), Fault>
    ensures { MatchResult result (λ _. holds ≡ true) (λ e. (holds ≡ false) × (e ≡ fault)) }
{
    if holds { Ok(()) } else { Err(fault) }
}

// Whether the head has the edition and a constant field of the right form.
#[tactic(auto, unfolding(crate::specs::Checks::head_good))]
fn head_good(image: &[u8]) -> bool
    ensures { result ≡ head_good image.now }
{
    octets::octet_at(image, EDITION_OFFSET) == EDITION
        && image_layout::constant_good(octets::number_at(image, CONSTANT_OFFSET))
}

// Checks the head, in document 01's order.
#[tactic(auto, unfolding(crate::specs::Checks::head_code, crate::specs::Checks::field_code))]
pub fn check_head(image: &[u8]) -> Result<(), Fault>
    ensures { fault_code result ≡ head_code image.now }
{
    let head = fields::read(image, 0);
    require(head.headed, Fault::Cut)?;
    require(head.tag == HEAD_TAG, Fault::WrongTag)?;
    require(head.size as usize == HEAD_OCTETS, Fault::WrongLength)?;
    require(head.whole, Fault::Cut)?;
    require(head_good(image), Fault::BadValue)
}

// Checks the field after so many accounts and links, in document 01's order.
#[tactic(auto, using(crate::proofs::Checks::unknown_tag), unfolding(crate::specs::Checks::next_code, crate::specs::Checks::field_code, crate::specs::Kind::kind_of))]
pub fn check_next(image: &[u8], accounts: u16, links: u16) -> Result<(), Fault>
    ensures { fault_code result ≡ next_code image.now accounts links }
{
    let field = fields::read(image, image_layout::field_offset(accounts, links));
    require(field.headed, Fault::Cut)?;
    let kind = Kind::try_from(field.tag)?;
    require(kind.may_follow(accounts, links), Fault::WrongTag)?;
    let octets = kind.data_octets();
    require(field.size as usize == octets, Fault::WrongLength)?;
    require(field.whole, Fault::Cut)?;
    require(!kind.is_full(accounts, links), Fault::BadCount)?;
    require(kind.values_good(image, accounts, links), Fault::BadValue)
}
