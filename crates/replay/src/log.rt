// The turns of a replay: octets of `rig.frames` are read before a turn, and the lines that it put are written after it.
use crate::edge;
use crate::edge::Status;
use crate::rig::Rig;
use replay_turn::{Progress, Stop};
use std::fs::File;
use std::io::Write;

// Octets read at once: those of the longest record and more.
const READ_OCTETS: usize = 4 * replay_log::LONGEST_RECORD;

// The log: its file, the octets at hand, how many these are, and whether the log has none after them.
#[derive(Drop)]
pub(crate) struct Log {
    file: Option<File>,
    octets: [u8; READ_OCTETS],
    filled: usize,
    whole: bool,
}

impl Log {
    // The log in a file, of which nothing is read yet.
    pub(crate) fn new(file: Option<File>) -> Log {
        Log {
            file,
            octets: [0; READ_OCTETS],
            filled: 0,
            whole: false,
        }
    }

    // Keeps what is left of the octets at hand, and reads on after it.
    fn read_on(&mut self, rt: HostRuntime, at: usize) -> Result<(), Status> {
        let rest = replay_turn::keep_rest(&mut self.octets, at, self.filled);
        let start = rest.min(self.octets.len());
        let read = edge::read_once(&mut self.file, &mut self.octets[start..]);
        if let Err(error) = read {
            edge::fail(rt, "replay: rig.frames can't be read", error);
        }
        let octets = read.map_err(|_| Status::ReadFailed)?;
        self.filled = start + octets;
        self.whole = octets == 0;
        Ok(())
    }

    // Makes the octets ready for the next turn: more are read where the last turn asked for them and the log may have them.
    // Returns where the turn begins in them.
    fn ready(&mut self, rt: HostRuntime, last: Progress) -> Result<Progress, Status> {
        match last.stop {
            Stop::Octets if !self.whole => {
                self.read_on(rt, last.at)?;
                Ok(Progress { at: 0, ..last })
            }
            _ => Ok(last),
        }
    }
}

// Prints the lines at the front of the room.
pub(crate) fn print(rt: HostRuntime, out: &[u8], written: usize) -> Result<(), Status> {
    let end = written.min(out.len());
    match rt.stdout().write_all(&out[..end]) {
        Ok(()) => Ok(()),
        Err(error) => {
            edge::fail(rt, "replay: the answers can't be written", error);
            Err(Status::WriteFailed)
        }
    }
}

// How a replay that is over ended.
fn status_of(stop: Stop) -> Result<(), Status> {
    match stop {
        Stop::CutOff => Err(Status::LogCut),
        _ => Ok(()),
    }
}

// Turn after turn until the replay is over. The turns are counted, since nothing says that a file ends.
pub(crate) fn run(
    rt: HostRuntime,
    log: &mut Log,
    rig: &mut Rig,
    start: Progress,
    out: &mut [u8],
) -> Result<(), Status> {
    let mut progress = start;
    for _ in 0..u64::MAX {
        let from = log.ready(rt, progress)?;
        let end = log.filled.min(log.octets.len());
        progress = rig.turn(&log.octets[..end], log.whole, from, out);
        print(rt, out, progress.written)?;
        if progress.stop.is_over() {
            return status_of(progress.stop);
        }
    }
    Err(Status::ReadFailed)
}
