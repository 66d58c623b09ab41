// Frame reading in numbers.
ghost use Rattle.std.specs.Prelude.{◌≡◌, length};
ghost use Rattle.frame.specs.Frame.{header_of, payload_of};
ghost use Rattle.exports.specs.Numbers.{header_with};

use frame::Header;

// Reads a frame: returns the code; writes the virtual link, the sequence number, and the length of the payload, which
// starts at octet 14.
#[unsafe(no_mangle)]
pub extern "C" fn ashthulgo_read_frame(
    frame: &[u8],
    link: &mut u16,
    sequence: &mut u8,
    payload: &mut usize,
) -> u8
    ensures header { header_with result link.new sequence.new ≡ header_of frame.now }
    ensures payload { payload.new ≡ length (payload_of frame.now) }
{
    *payload = frame::payload(frame).len();
    let (code, header) = match frame::head(frame) {
        Ok(header) => (codes::SUCCESS, header),
        Err(refusal) => (
            refusal.into(),
            Header {
                link: 0,
                sequence: 0,
            },
        ),
    };
    *link = header.link;
    *sequence = header.sequence;
    code
}
