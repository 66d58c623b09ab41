// The filter of a frame: the checks before a link's account is looked at, and the link itself. Every function is total.
#![tactic(auto)]

ghost use Rattle.std.specs.Prelude.{◌≡◌};
ghost use Rattle.codes.specs.Refused.{code_of};
ghost use Rattle.filter.specs.Filter.{frame_code, port_code, route_of, routed};

use codes::Refusal;
use tables::Link;

// Refuses a frame by the frame alone: the first of 1, 2 and 3 that fits.
#[tactic(auto, unfolding(crate::specs::Filter::frame_code))]
pub fn check_frame(frame: &[u8], constant: u32) -> Result<(), Refusal>
    ensures { code_of result ≡ frame_code constant frame.now }
{
    frame::check_length(frame.len())?;
    if frame::constant_field(frame) != constant {
        return Err(Refusal::OtherConstant);
    }
    Ok(())
}

// The link of a frame, or what stops the frame: 1, 2, 3 or 4.
#[tactic(auto, unfolding(crate::specs::Filter::routed))]
pub fn find_link(frame: &[u8], constant: u32, links: &[u8], count: usize) -> Result<Link, Refusal>
    ensures { route_of result ≡ routed frame.now constant links.now count }
{
    check_frame(frame, constant)?;
    let number = frame::link_number(frame);
    tables::look_up(links, count, number).ok_or(Refusal::UnknownLink)
}

// Refuses a frame by its link: the first of 5, 6 and 7 that fits.
#[tactic(auto, unfolding(crate::specs::Filter::port_code))]
pub fn check_port(link: Link, octets: usize, port: u32) -> Result<(), Refusal>
    ensures { code_of result ≡ port_code link octets port }
{
    if port != link.port as u32 {
        return Err(Refusal::OtherPort);
    }
    if octets < link.smallest as usize {
        return Err(Refusal::BelowSmallest);
    }
    if (link.largest as usize) < octets {
        return Err(Refusal::AboveLargest);
    }
    Ok(())
}
