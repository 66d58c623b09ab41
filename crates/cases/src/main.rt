// Runs the worked cases of the scripts in `data`, one script a section, and prints each line with the answer to that
// line, for comparison with the file `stdout`. Each section starts with nothing set; the section's module says what its
// lines are. Of a script longer than 65,536 octets the rest is not read.
#![tactic(auto)]

ghost use Rattle.std.specs.Prelude.{◌≤◌, length};

mod calls;
mod frames;
mod images;
mod receptions;
mod say;
mod script;
mod state;
mod steps;

use script::{Numbers, Words};
use state::State;
use std::fs::File;
use std::io::{Read, Stdout};

// Octets of a script that are read.
const SCRIPT_OCTETS: usize = 65536;

// The sections, each with the module that answers its lines.
#[derive(Clone, Copy)]
enum Section {
    Frames,
    Steps,
    Images,
    Calls,
    Receptions,
}

// Answers a line of a section; `base` is the state that `reset` goes back to.
fn answer(
    out: Stdout,
    section: Section,
    state: &mut State,
    base: &State,
    n: Numbers,
    words: Words,
) {
    match section {
        Section::Frames => frames::line(out, n),
        Section::Steps => state.account = steps::line(out, state.account, n),
        Section::Images => images::line(out, n, words),
        Section::Calls => calls::line(out, state, base, n, words),
        Section::Receptions => receptions::line(out, state, n, words),
    }
}

// Prints each line of a script with the answer to that line, each line on the state that the lines before it set.
fn run(out: Stdout, section: Section, text: &[u8]) {
    let mut state = state::fresh();
    let mut base = state;
    for piece in text.split_inclusive(|x| *x == b'\n') {
        let line = piece.strip_suffix(b"\n").unwrap_or(piece);
        say::text(out, line);
        let words = script::words(line);
        let n = script::named(words);
        answer(out, section, &mut state, &base, n, words);
        if n.verb == b'b' {
            base = state;
        }
        say::text(out, b"\n");
    }
}

// Reads until the room is full, the file ends or a read fails; returns how many octets the room has then.
fn read_full(file: &mut File, room: &mut [u8]) -> usize
    ensures { result ≤ length room.new }
{
    let mut filled = 0;
    while filled < room.len() {
        match file.read(&mut room[filled..]) {
            Ok(0) | Err(_) => break,
            Ok(octets) => filled += octets,
        }
    }
    filled
}

// Reads a file; one that can't be opened reads as empty.
fn read_script(rt: HostRuntime, name: &str, room: &mut [u8]) -> usize
    ensures { result ≤ length room.new }
{
    match File::open(&rt, name) {
        Ok(mut file) => read_full(&mut file, room),
        Err(_) => 0,
    }
}

// Runs a section, whose script is the file of this name.
fn play(rt: HostRuntime, name: &str, section: Section) {
    let mut text = [0u8; SCRIPT_OCTETS];
    let n = read_script(rt, name, &mut text);
    run(rt.stdout(), section, &text[..n]);
}

fn main(rt: HostRuntime) {
    play(rt, "frames", Section::Frames);
    play(rt, "steps", Section::Steps);
    play(rt, "images", Section::Images);
    play(rt, "calls", Section::Calls);
    play(rt, "receptions", Section::Receptions);
}
