// Reading an AFDX frame: its length, constant field, virtual link number, sequence number and payload. The frame check
// sequence is part of the frame and is not judged.
#![tactic(auto)]

ghost use Rattle.std.specs.Prelude.{◌≡◌, eqb};
ghost use Rattle.codes.specs.Refused.{code_of};
ghost use Rattle.frame.specs.Frame.{length_code, constant_field, link_number, header_of, reading_of, payload_of, payload_place};

use codes::Refusal;

// The sizes that a frame can have.
pub const SMALLEST_FRAME: usize = 64;

pub const LARGEST_FRAME: usize = 1518;

// The payload's first octet, and how far before the frame's end the sequence number stands.
const PAYLOAD_START: usize = 14;

const SEQUENCE_FROM_END: usize = 5;

// What a frame says besides its payload: its virtual link and its sequence number.
#[derive(Clone, Copy)]
pub struct Header {
    pub link: u16,
    pub sequence: u8,
}

// Refuses a frame by its length alone, too short or too long.
#[tactic(auto, unfolding(crate::specs::Frame::length_code))]
pub fn check_length(octets: usize) -> Result<(), Refusal>
    ensures { code_of result ≡ length_code octets }
{
    if octets < SMALLEST_FRAME {
        return Err(Refusal::TooShort);
    }
    if LARGEST_FRAME < octets {
        return Err(Refusal::TooLong);
    }
    Ok(())
}

// Whether a frame can have so many octets: whether `check_length` passes.
#[tactic(auto, unfolding(crate::specs::Frame::length_code))]
pub fn is_frame_size(octets: usize) -> bool
    ensures { result ≡ eqb (length_code octets) 0 }
{
    (SMALLEST_FRAME..=LARGEST_FRAME).contains(&octets)
}

// The constant field of octets of any length; a missing octet counts as 0.
pub fn constant_field(frame: &[u8]) -> u32
    ensures { result ≡ constant_field frame.now }
{
    octets::number_at(frame, 0)
}

// The virtual link number of octets of any length; a missing octet counts as 0.
pub fn link_number(frame: &[u8]) -> u16
    ensures { result ≡ link_number frame.now }
{
    octets::number_at(frame, 4)
}

// The virtual link and the sequence number of a frame.
#[tactic(auto, using(crate::proofs::Frame::within), unfolding(crate::specs::Frame::header_of))]
pub fn head(frame: &[u8]) -> Result<Header, Refusal>
    ensures { reading_of result ≡ header_of frame.now }
{
    let n = frame.len();
    check_length(n)?;
    Ok(Header {
        link: link_number(frame),
        sequence: octets::octet_at(frame, n - SEQUENCE_FROM_END),
    })
}

// The payload as a part of the frame lent; a refused frame has the empty part at its start.
#[tactic(auto, using(crate::proofs::Frame::fits), unfolding(crate::specs::Frame::payload_of, crate::specs::Frame::payload_place))]
pub fn payload(frame: &[u8]) -> &[u8]
    ensures contents { result.now ≡ payload_of frame.now }
    ensures place { result.ref_ptr ≡ payload_place frame.entry.ref_ptr frame.now }
{
    let n = frame.len();
    if !is_frame_size(n) {
        return &frame[0..0];
    }
    &frame[PAYLOAD_START..n - SEQUENCE_FROM_END]
}
