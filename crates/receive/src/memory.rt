// The memory of one link: the indices of its words, what it has for a frame, and storing what an answer leaves.
ghost use Rattle.std.specs.Prelude.{◌≡◌};
ghost use Rattle.receive.specs.Lent.{number_word, awaiting_word, latest_time, last_number, awaiting, noted, met, delivered};
ghost use Rattle.receive.specs.Receive.{memory_after};
ghost use Rattle.receive_answer.specs.Answer.{other};

use super::MEMORY_WORDS;
use receive_answer::{Arrival, Network, Reception, Remembered};

// The words of one link's memory.
pub(crate) type Memory = [u64; MEMORY_WORDS];

// The index of the word with the link's last time.
const TIME: usize = 0;

// The index of the first of two words with the last number on each network.
const FIRST_NUMBER: usize = 1;

// The index of the first delivery's words.
pub(crate) const FIRST_DELIVERY: usize = 3;

// Words of a delivery: whether it awaits its copy, then its time.
const DELIVERY_WORDS: usize = 2;

// Words of a network's deliveries, one of each number.
pub(crate) const NETWORK_WORDS: usize = 256 * DELIVERY_WORDS;

// The index of the word with the last number received on a network.
fn number_word(network: Network) -> usize
    ensures { result ≡ number_word network }
{
    FIRST_NUMBER + network as usize
}

// The index of the word that says whether the delivery of a number on a network awaits its copy; the delivery's time is
// in the next word.
fn awaiting_word(network: Network, number: u8) -> usize
    ensures { result ≡ awaiting_word network number }
{
    FIRST_DELIVERY + NETWORK_WORDS * network as usize + DELIVERY_WORDS * number as usize
}

// What the memory has for a frame.
#[tactic(auto, unfolding(crate::specs::Lent::word, receive_answer::specs::Answer::delivery_of, receive_sequence::specs::Sequence::number_of))]
pub(crate) fn remembered(memory: &Memory, frame: Arrival) -> Remembered
    ensures time { result.time ≡ latest_time memory.now 0 }
    ensures number { result.last ≡ last_number memory.now 0 frame.network }
    ensures delivery { result.delivery ≡ awaiting memory.now 0 (other frame.network) frame.number }
{
    let at = awaiting_word(frame.network.other(), frame.number);
    Remembered {
        time: memory[TIME],
        last: memory[number_word(frame.network)].checked_sub(1),
        delivery: (memory[at] != 0).then_some(memory[at + 1]),
    }
}

// Stores a frame's time and number.
#[tactic(auto, unfolding(crate::specs::Lent::noted, crate::specs::Lent::store))]
fn note(memory: &mut Memory, frame: Arrival)
    ensures { memory.new ≡ noted memory.old 0 frame }
{
    memory[TIME] = frame.time;
    memory[number_word(frame.network)] = frame.number as u64 + 1;
}

// Stores that the other network's delivery of a frame's number has met its copy.
#[tactic(auto, unfolding(crate::specs::Lent::met, crate::specs::Lent::store))]
fn meet(memory: &mut Memory, frame: Arrival)
    ensures { memory.new ≡ met memory.old 0 (other frame.network) frame.number }
{
    memory[awaiting_word(frame.network.other(), frame.number)] = 0;
}

// Stores a delivery that awaits its copy.
#[tactic(auto, unfolding(crate::specs::Lent::delivered, crate::specs::Lent::store))]
fn await_copy(memory: &mut Memory, frame: Arrival)
    ensures { memory.new ≡ delivered memory.old 0 frame }
{
    let at = awaiting_word(frame.network, frame.number);
    memory[at] = 1;
    memory[at + 1] = frame.time;
}

// Stores what an answer leaves.
pub(crate) fn store_answer(memory: &mut Memory, frame: Arrival, answer: Reception)
    ensures { memory.new ≡ memory_after memory.old 0 frame answer }
{
    if answer.taken() {
        note(memory, frame);
    }
    match answer {
        Reception::Copy => meet(memory, frame),
        Reception::Delivered => await_copy(memory, frame),
        _ => (),
    }
}
