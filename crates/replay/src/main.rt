// Replays the rig in the current folder: loads `rig.cfg` and answers the frames of `rig.frames`, one line each.
#![tactic(auto)]

mod edge;
mod log;
mod rig;

use edge::Status;
use log::Log;
use replay_turn::Progress;
use rig::Rig;
use std::env::{Env, FillError};
use std::fs::File;

// Characters written at once.
const WRITE_OCTETS: usize = 65536;

// Opens a file, or says that it can't be opened.
fn open(rt: HostRuntime, path: &str, refusal: &str) -> Option<File> {
    match File::open(&rt, path) {
        Ok(file) => Some(file),
        Err(error) => {
            edge::fail(rt, refusal, error);
            None
        }
    }
}

// The status of a run in which this file was to be opened.
fn opened(file: &Option<File>) -> Status {
    if file.is_some() {
        Status::Replayed
    } else {
        Status::NotOpened
    }
}

// Replays the log of a rig whose image was accepted; returns how that ended.
fn replay_log(rt: HostRuntime, rig: &mut Rig, start: Progress, out: &mut [u8]) -> Status {
    let file = open(
        rt,
        "rig.frames",
        "replay: rig.frames can't be opened and reads as empty",
    );
    let least = opened(&file);
    let mut log = Log::new(file);
    match log::run(rt, &mut log, rig, start, out) {
        Ok(()) => least,
        Err(status) => status.max(least),
    }
}

// Loads the image that was read and replays the log; returns how that ended.
fn replay_image(rt: HostRuntime, image: &[u8]) -> Status {
    let mut rig = Rig::new();
    let mut out = [0u8; WRITE_OCTETS];
    let loaded = rig.load(image);
    let start = replay_turn::begin(loaded.code, loaded.offset, &mut out);
    if let Err(status) = log::print(rt, &out, start.written) {
        return status;
    }
    if start.stop.is_over() {
        return Status::ImageRefused;
    }
    replay_log(rt, &mut rig, start, &mut out)
}

// Replays the rig; returns how that ended. No more of `rig.cfg` is read than settles its answer.
fn replay_rig(rt: HostRuntime) -> Status {
    let mut image = [0u8; image_layout::IMAGE_PREFIX];
    let mut file = open(
        rt,
        "rig.cfg",
        "replay: rig.cfg can't be opened and reads as empty",
    );
    let least = opened(&file);
    match edge::read_full(&mut file, &mut image) {
        Ok(octets) => {
            drop(file);
            replay_image(rt, &image[..octets]).max(least)
        }
        Err(error) => {
            edge::fail(rt, "replay: rig.cfg can't be read", error);
            Status::ReadFailed
        }
    }
}

// Whether the program was given a word.
fn has_word(rt: HostRuntime) -> bool {
    let mut word = [0u8; 1];
    !matches!(rt.arg(1, &mut word), Err(FillError::NotPresent))
}

fn main(rt: HostRuntime) {
    let status = replay_rig(rt);
    if has_word(rt) {
        edge::report(rt, status);
    }
}
