// Turns of a replay: the records at hand are answered, and each answer is put as a line into lent room. The program reads octets
// before a turn and writes lines after it. Every function is total.
#![tactic(auto)]

ghost use Rattle.std.specs.Prelude.{◌≡◌, ◌≤◌, length};
ghost use Rattle.tables.specs.Lent.{config_in};
ghost use Rattle.switch.specs.Call.{state_of, called};
ghost use Rattle.replay_text.specs.Text.{line_of, longest_line};
ghost use Rattle.replay_answer.specs.Answer.{record_call};
ghost use Rattle.replay_turn.specs.Text.{over};
ghost use Rattle.replay_turn.specs.Turn.{turned_of, turned};
ghost use Rattle.replay_turn.specs.Parts.{with_room, opened, kept_of, kept, lined_of, lined, stopped_by};

use replay_log::{Entry, FrameRecord};
use tables::LentTables;

// Why a replay stops where it stands.
#[derive(Clone, Copy)]
pub enum Stop {
    // More octets of the log are to be read.
    Octets,
    // The lines are to be written, so that the room is free.
    Room,
    // The replay is over: the log has ended, or the image was refused.
    Finished,
    // The replay is over: the log is cut.
    CutOff,
}

impl Stop {
    // Whether a replay is over.
    pub fn is_over(self) -> bool
        ensures { result ≡ over self }
    {
        matches!(self, Stop::Finished | Stop::CutOff)
    }
}

// Where a replay stands: its offset in the octets at hand, the frames answered, the characters put into the room, why it stops.
#[derive(Clone, Copy)]
pub struct Progress {
    pub at: usize,
    pub frames: u64,
    pub written: usize,
    pub stop: Stop,
}

// Begins a replay with what loading the image answered: puts the header, or the only line of a refused image.
pub fn begin(code: u8, offset: usize, out: &mut [u8]) -> Progress
    ensures { with_room result out.new ≡ opened code offset out.old }
{
    let (written, stop) = match code {
        codes::SUCCESS => (replay_text::put_header(out, 0), Stop::Octets),
        _ => (
            replay_text::put_refused_image(out, 0, code, offset),
            Stop::Finished,
        ),
    };
    Progress {
        at: 0,
        frames: 0,
        written,
        stop,
    }
}

// Moves what is left of the octets at hand to the front, and returns how many these are.
pub fn keep_rest(log: &mut [u8], at: usize, filled: usize) -> usize
    ensures { kept_of result log.new ≡ kept log.old at filled }
{
    let end = filled.min(log.len());
    let rest = end - at.min(end);
    replay_log::to_front(log, at, rest);
    rest
}

// Answers a frame of the log and puts its line at an offset of the room; returns the offset after it.
fn put_answer(
    log: &[u8],
    logged: FrameRecord,
    number: u64,
    buffer: &mut [u8; frame::LARGEST_FRAME],
    out: &mut [u8],
    at: usize,
    tables: LentTables,
    credits: &mut [u32],
    lasts: &mut [u64],
) -> usize
    ensures line_put { lined_of result out.new (state_of credits.new lasts.new)
        ≡ lined
        (config_in tables.entry)
        (state_of credits.old lasts.old)
        out.old
        at
        number
        (record_call log.now logged) }
    ensures fits { length (line_of number (called
        (config_in tables.entry)
        (state_of credits.old lasts.old)
        (record_call log.now logged)).says) ≤ longest_line }
{
    let verdict = replay_answer::answer(log, logged, buffer, tables, credits, lasts);
    replay_text::put_line(out, at, number, verdict)
}

// Ends a turn at what is no frame: more octets are to be read, or the replay is over, with the last line of a log that is cut.
fn end_turn(entry: Entry, here: Progress, out: &mut [u8]) -> Progress
    ensures { with_room result out.new ≡ stopped_by out.old here.at here.frames here.written entry }
{
    let (written, stop) = match entry {
        Entry::More => (here.written, Stop::Octets),
        Entry::Cut => (replay_text::put_cut(out, here.written), Stop::CutOff),
        Entry::End | Entry::Frame(_) => (here.written, Stop::Finished),
    };
    Progress {
        written,
        stop,
        ..here
    }
}

// Answers the records at hand from the offset where the replay stands, and puts their lines at the front of the room: as many as
// fit there whatever they are, up to the first record that is not complete. `whole` says that the log has no octets after
// these. Of `from` only the offset and the number of frames are read.
pub fn turn(
    log: &[u8],
    whole: bool,
    from: Progress,
    tables: LentTables,
    out: &mut [u8],
    credits: &mut [u32],
    lasts: &mut [u64],
) -> Progress
    ensures turned { turned_of result out.new (state_of credits.new lasts.new)
        ≡ turned (config_in tables.entry) log.now whole from out.old (state_of credits.old lasts.old) }
    ensures written_inside { result.written ≤ length out.new }
{
    let mut buffer = [0u8; frame::LARGEST_FRAME];
    let mut here = Progress { written: 0, ..from };
    for _ in 0..out.len() / replay_text::LONGEST_LINE {
        let entry = replay_log::next(log, here.at, whole);
        let Entry::Frame(logged) = entry else {
            return end_turn(entry, here, out);
        };
        let Some(number) = here.frames.checked_add(1) else {
            return end_turn(Entry::End, here, out);
        };
        here.frames = number;
        here.written = put_answer(
            log,
            logged,
            number,
            &mut buffer,
            out,
            here.written,
            tables,
            credits,
            lasts,
        );
        here.at = logged.next;
    }
    Progress {
        stop: Stop::Room,
        ..here
    }
}
