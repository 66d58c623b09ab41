// The answers of a receiving end: integrity by sequence number, then the first of two copies delivered. What a link
// remembers is passed by value. Every function is total.
#![tactic(auto)]

ghost use Rattle.std.specs.Prelude.{◌≡◌};
ghost use Rattle.receive_answer.specs.Answer.{other, reception_code, taken, in_skew, reception_by};

#[derive(Clone, Copy, Debug, PartialEq, Eq)]
pub enum Network {
    A = 0,
    B = 1,
}

impl Network {
    // The network of the other copy.
    pub fn other(self) -> Network
        ensures { result ≡ other self }
    {
        match self {
            Network::A => Network::B,
            Network::B => Network::A,
        }
    }
}

// A frame that comes in; its time is in microseconds.
#[derive(Clone, Copy, Debug, PartialEq, Eq)]
pub struct Arrival {
    pub link: u16,
    pub network: Network,
    pub number: u8,
    pub time: u64,
}

// The answer to a frame: delivered, the copy of a frame that was delivered, out of sequence, or a refusal, 4 or 8.
#[derive(Clone, Copy, Debug, PartialEq, Eq)]
pub enum Reception {
    Delivered = codes::SUCCESS as isize,
    Copy = codes::COPY as isize,
    OutOfSequence = codes::OUT_OF_SEQUENCE as isize,
    UnknownLink = codes::UNKNOWN_LINK as isize,
    Late = codes::LATE as isize,
}

impl Reception {
    // Whether the frame was received: true for all answers but the refusals.
    pub fn taken(self) -> bool
        ensures { result ≡ taken self }
    {
        matches!(
            self,
            Reception::Delivered | Reception::Copy | Reception::OutOfSequence
        )
    }
}

// The number of an answer.
impl From<Reception> for u8 {
    ghost from_gives = { λ answer number. number ≡ reception_code answer };

    fn from(answer: Reception) -> u8 {
        answer as u8
    }
}

// What a link remembers for a frame.
#[derive(Clone, Copy, Debug, PartialEq, Eq)]
pub struct Remembered {
    // The link's last time.
    pub time: u64,
    // The last number on the frame's network, if there is one.
    pub last: Option<u64>,
    // The time of the other network's delivery of the frame's number, if that delivery awaits its copy.
    pub delivery: Option<u64>,
}

// Whether a delivery awaits its copy, is not timed after a time, and is no more than SkewMax old then.
#[tactic(auto, unfolding(crate::specs::Answer::in_skew))]
fn in_skew(skew: u32, delivery: Option<u64>, time: u64) -> bool
    ensures { result ≡ in_skew skew delivery time }
{
    // A delivery timed after the frame counts as none.
    delivery.is_some_and(|delivered| delivered <= time && time - delivered <= skew as u64)
}

// The answer to a frame, from what its link remembers.
#[tactic(auto, unfolding(crate::specs::Answer::reception_by))]
pub fn reception_by(skew: u32, memory: Remembered, frame: Arrival) -> Reception
    ensures { result ≡ reception_by skew memory.time memory.last memory.delivery frame.number frame.time }
{
    if frame.time < memory.time {
        return Reception::Late;
    }
    if !receive_sequence::passes(memory.last, frame.number) {
        return Reception::OutOfSequence;
    }
    if in_skew(skew, memory.delivery, frame.time) {
        return Reception::Copy;
    }
    Reception::Delivered
}
