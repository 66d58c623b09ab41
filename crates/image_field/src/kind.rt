// The kinds of fields after the head: an account, a link, the end.
ghost use Rattle.std.specs.Prelude.{◌≡◌};
ghost use Rattle.image_field.specs.Kind.{kind_of, kind_number};
ghost use Rattle.image_field.specs.Checks.{in_order, data_octets, is_full, values_good};

use codes::Fault;

// What a field after the head is, by its tag.
#[derive(Clone, Copy)]
pub(crate) enum Kind {
    Account,
    Link,
    End,
}

impl TryFrom<u8> for Kind {
    type Error = Fault;

    ghost try_from_gives = { λ tag kind. kind ≡ kind_of tag };

    #[tactic(auto, unfolding(crate::specs::Kind::kind_of))]
    fn try_from(tag: u8) -> Result<Kind, Fault> {
        match tag {
            image_layout::ACCOUNT_TAG => Ok(Kind::Account),
            image_layout::LINK_TAG => Ok(Kind::Link),
            image_layout::END_TAG => Ok(Kind::End),
            _ => Err(Fault::WrongTag),
        }
    }
}

impl Kind {
    // Whether such a field may stand after so many accounts and links.
    #[tactic(auto, unfolding(crate::specs::Checks::in_order))]
    pub(crate) fn may_follow(self, accounts: u16, links: u16) -> bool
        ensures { result ≡ in_order (kind_number self) accounts links }
    {
        match self {
            Kind::Account => accounts == 0 || links == 0,
            Kind::Link => accounts > 0,
            Kind::End => accounts > 0 && links > 0,
        }
    }

    // The length of its data.
    #[tactic(auto, unfolding(crate::specs::Checks::data_octets))]
    pub(crate) fn data_octets(self) -> usize
        ensures { result ≡ data_octets (kind_number self) }
    {
        match self {
            Kind::Account => tables::ACCOUNT_OCTETS,
            Kind::Link => tables::LINK_OCTETS,
            Kind::End => 0,
        }
    }

    // Whether one more of its kind is over the limit.
    #[tactic(auto, unfolding(crate::specs::Checks::is_full))]
    pub(crate) fn is_full(self, accounts: u16, links: u16) -> bool
        ensures { result ≡ is_full (kind_number self) accounts links }
    {
        match self {
            Kind::Account => image_layout::MAX_ACCOUNTS <= accounts,
            Kind::Link => image_layout::MAX_LINKS <= links,
            Kind::End => false,
        }
    }

    // Whether its values keep their rules where it stands after so many accounts and links.
    #[tactic(auto, unfolding(crate::specs::Checks::values_good))]
    pub(crate) fn values_good(self, image: &[u8], accounts: u16, links: u16) -> bool
        ensures { result ≡ values_good image.now (kind_number self) accounts links }
    {
        let account_fields = image_layout::account_fields(image);
        match self {
            Kind::Account => tables_rules::account_good(account_fields, accounts),
            Kind::Link => {
                let link_fields = image_layout::link_fields(image, accounts);
                tables_rules::link_good(account_fields, accounts, link_fields, links)
            }
            Kind::End => true,
        }
    }
}
