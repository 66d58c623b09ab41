// Files and streams: reads that are tried again where they were interrupted, and how a run ended.
ghost use Rattle.std.specs.Io.{ReadsAtMost};

use std::fmt::InlineText;
use std::fs::File;
use std::io;
use std::io::{Error, ErrorKind, Read, Write};

// How a run ended: the log replayed to its end, the image refused, the log cut, a file that can't be opened, a read or a write
// that failed. The greatest that applies counts.
#[derive(Clone, Copy, PartialEq, Eq, PartialOrd, Ord)]
pub(crate) enum Status {
    Replayed = 0,
    ImageRefused = 3,
    LogCut = 4,
    NotOpened = 5,
    ReadFailed = 6,
    WriteFailed = 7,
}

// The descriptor on which the launcher listens, as a file.
const STATUS_PATH: &str = "/dev/fd/3";

// Octets that hold an error's words and number.
const REASON_OCTETS: usize = 128;

// Says on standard error what failed and why, in the system's words, without the number that the library puts after them.
pub(crate) fn fail(rt: HostRuntime, what: &str, error: Error) {
    let text = InlineText::<REASON_OCTETS>::of(error);
    let all = text.as_str();
    let why = match error.kind() {
        ErrorKind::WriteZero => "a write took nothing",
        _ => all
            .split_once(" (os error ")
            .map_or(all, |(words, _)| words),
    };
    let _ = eprintln!(rt; "{what}: {why}");
}

// Reads once; a file that is not open reads as empty.
fn read(file: &mut Option<File>, room: &mut [u8]) -> io::Result<usize>
    ensures { ReadsAtMost result room.new }
{
    match file {
        Some(file) => file.read(room),
        None => Ok(0),
    }
}

// Reads once into the room, again where the read was interrupted; 0 octets are the end of the file.
pub(crate) fn read_once(file: &mut Option<File>, room: &mut [u8]) -> io::Result<usize>
    ensures { ReadsAtMost result room.new }
{
    for _ in 0..u64::MAX {
        match read(file, room) {
            Err(error) if error.kind() == ErrorKind::Interrupted => (),
            done => return done,
        }
    }
    Err(Error::from(ErrorKind::Interrupted))
}

// Reads until the room is full or the file ends.
pub(crate) fn read_full(file: &mut Option<File>, room: &mut [u8]) -> io::Result<usize>
    ensures { ReadsAtMost result room.new }
{
    let mut filled = 0;
    while filled < room.len() {
        match read_once(file, &mut room[filled..])? {
            0 => break,
            octets => filled += octets,
        }
    }
    Ok(filled)
}

// Hands the status to the launcher: a digit and a line end.
pub(crate) fn report(rt: HostRuntime, status: Status) {
    if let Ok(mut file) = File::options().append(true).open(&rt, STATUS_PATH) {
        let _ = file.write_all(&[b'0' + status as u8, b'\n']);
    }
}
