// The log of frames of a rig, record by record: tag 16, two octets of length, eight of time, one of the port, and the frame.
#![tactic(auto)]

ghost use Rattle.std.specs.Prelude.{◌≡◌};
ghost use Rattle.replay_log.specs.Records.{longest_record, next_in, record_at, unsettled};
ghost use Rattle.fields.specs.Fields.{field_at};
ghost use Rattle.octets.specs.Runs.{octets_at, put};

use fields::Field;

const RECORD_TAG: u8 = 16;

// The octets of a time, and those of a time and a port, which a record's length counts.
const TIME_OCTETS: usize = 8;

const TIME_AND_PORT_OCTETS: usize = TIME_OCTETS + 1;

// How far into a record its port stands, and its frame.
const PORT_OFFSET: usize = fields::TAG_AND_LENGTH + TIME_OCTETS;

const FRAME_START: usize = fields::TAG_AND_LENGTH + TIME_AND_PORT_OCTETS;

// The longest record. So many octets from an offset on always settle what stands there.
pub const LONGEST_RECORD: usize = fields::TAG_AND_LENGTH + 65535;

// The same as a value.
pub fn longest_record() -> usize
    ensures { result ≡ longest_record }
{
    LONGEST_RECORD
}

// A frame that a log holds: its time and port, `size` octets from `start` on, and the offset after them.
#[derive(Clone, Copy)]
pub struct FrameRecord {
    pub time: u64,
    pub port: u8,
    pub start: usize,
    pub size: usize,
    pub next: usize,
}

// What stands at an offset of a log.
#[derive(Clone, Copy)]
pub enum Entry {
    Frame(FrameRecord),
    // Too few octets at hand to say.
    More,
    // A malformed record (tag not 16, or length under 9), or one within which the log ends.
    Cut,
    // The log's end.
    End,
}

// What too few octets mean: the log's end within a record, or more to come.
#[tactic(auto, unfolding(crate::specs::Records::unsettled))]
fn unsettled(whole: bool) -> Entry
    ensures { result ≡ unsettled whole }
{
    if whole { Entry::Cut } else { Entry::More }
}

// The record at an offset, by the field that stands there.
#[tactic(auto, using(crate::proofs::Records::field_cases))]
fn record_at(log: &[u8], at: usize, field: Field, whole: bool) -> Entry
    requires { field ≡ field_at log.now at }
    ensures { result ≡ record_at log.now at whole }
{
    let length = field.size as usize;
    if length < TIME_AND_PORT_OCTETS {
        return Entry::Cut;
    }
    if !field.whole {
        return unsettled(whole);
    }
    Entry::Frame(FrameRecord {
        time: octets::number_at(log, at + fields::TAG_AND_LENGTH),
        port: octets::octet_at(log, at + PORT_OFFSET),
        start: at + FRAME_START,
        size: length - TIME_AND_PORT_OCTETS,
        next: at + (fields::TAG_AND_LENGTH + length),
    })
}

// What stands at an offset of the octets at hand; `whole` says that the log has none after them.
#[tactic(auto, using(crate::proofs::Records::next_cases))]
pub fn next(log: &[u8], at: usize, whole: bool) -> Entry
    ensures { result ≡ next_in log.now at whole }
{
    if log.len() <= at {
        return if whole { Entry::End } else { Entry::More };
    }
    let field = fields::read(log, at);
    if field.tag != RECORD_TAG {
        return Entry::Cut;
    }
    if !field.headed {
        return unsettled(whole);
    }
    record_at(log, at, field, whole)
}

// A part of a log moved to its front, for more to be read after it; an octet past the end counts as 0.
#[tactic(auto, using(crate::proofs::Front::front_none))]
pub fn to_front(log: &mut [u8], at: usize, size: usize)
    ensures { log.new ≡ put log.old 0 (octets_at size log.old at) }
{
    if log.len() < size {
        return;
    }
    let start = at.min(log.len());
    let n = size.min(log.len() - start);
    log.copy_within(start..start + n, 0);
    log[n..size].fill(0);
}
