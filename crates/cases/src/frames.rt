// Frame reading. The first letter of a line says what the line is:
//   # ..              a heading
//   frame octets      reads a frame with constant field 3, 0, 0, 9, link 258 and sequence number 77: code, link, sequence
//                     number and length of the payload; then the constant field and the link number that the octets hold,
//                     whatever the code
// A remainder keeps each number within its width; no case needs the remainder.
use super::say;
use super::script::Numbers;
use std::io::Stdout;

// The octets of a frame with a constant field and a link number; all octets after these are 0.
pub(crate) fn made(constant: u64, link: u64) -> [u8; 1519] {
    let mut octets = [0u8; 1519];
    octets_write::put_number(&mut octets, 0, (constant % 0x0001_0000_0000) as u32);
    octets_write::put_number(&mut octets, 4, (link % 65536) as u16);
    octets
}

// The octets of a frame of `size` octets; the sequence number is the fifth octet from the end.
fn numbered(size: usize) -> [u8; 1519] {
    let mut octets = made(50331657, 258);
    octets[size.wrapping_sub(5) % 1519] = 77;
    octets
}

// Prints the code of a frame, its link and its sequence number, and the length of its payload; zeros after a refusal.
fn show_head(out: Stdout, octets: &[u8]) {
    let (code, link, sequence) = match frame::head(octets) {
        Ok(header) => (codes::SUCCESS, header.link, header.sequence),
        Err(refusal) => (refusal.into(), 0, 0),
    };
    let payload = frame::payload(octets).len();
    say::arrow(out);
    say::numbers(
        out,
        &[code as u64, link as u64, sequence as u64, payload as u64],
    );
}

fn show_fields(out: Stdout, octets: &[u8]) {
    say::mark(out, b'|');
    say::number(out, frame::constant_field(octets) as u64);
    say::number(out, frame::link_number(octets) as u64);
}

pub(crate) fn line(out: Stdout, n: Numbers) {
    if n.verb == b'f' {
        let octets = numbered(n.a as usize);
        let frame = &octets[0..n.a as usize % 1520];
        show_head(out, frame);
        show_fields(out, frame);
    }
}
