// The receiving end of a link on two networks: integrity by sequence number on each network, then the first of two
// copies delivered. Links are lent as rows, and what is remembered of each link as a memory. The call is total.
#![tactic(auto)]

ghost use Rattle.std.specs.Prelude.{◌≡◌, ◌<◌, length};
ghost use Rattle.receive.specs.Lent.{memory_words, rows_in_use, skew_in};
ghost use Rattle.receive.specs.Receive.{answer_by, received_of, on_memory, received};

mod memory;

use memory::Memory;
use receive_answer::{Arrival, Reception};

// Octets of SkewMax, and of a row: link number (2), SkewMax in microseconds (4).
const SKEW_OCTETS: u8 = 4;

pub const ROW_OCTETS: usize = rows::NUMBER_OCTETS + SKEW_OCTETS as usize;

// Words of a memory, 1,027; all words of an empty memory are 0.
pub const MEMORY_WORDS: usize = memory::FIRST_DELIVERY + 2 * memory::NETWORK_WORDS;

// The answer to a frame, by the memory of its link.
#[tactic(auto, unfolding(crate::specs::Receive::answer_by))]
fn answer_by(skew: u32, memory: &Memory, frame: Arrival) -> Reception
    ensures { result ≡ answer_by skew memory.now 0 frame }
{
    receive_answer::reception_by(skew, memory::remembered(memory, frame), frame)
}

// Receives a frame on a link with this SkewMax and memory; the memory is lent as a part of all memories.
fn receive_on(skew: u32, part: &mut [u64], frame: Arrival) -> Reception
    requires { length part.old ≡ memory_words }
    ensures { received_of result part.new ≡ on_memory skew part.old 0 frame }
{
    let memory: &mut Memory = part.as_mut_array().unwrap();
    let answer = answer_by(skew, memory, frame);
    memory::store_answer(memory, frame, answer);
    answer
}

// Receives a frame on the link of a row in use.
#[tactic(auto, unfolding(crate::specs::Lent::rows_in_use))]
fn receive_at(row: usize, frame: Arrival, rows: &[u8], memory: &mut [u64]) -> Reception
    requires { row < rows_in_use (length rows.now) (length memory.old) }
    ensures { received_of result memory.new ≡ on_memory (skew_in rows.now row) memory.old row frame }
{
    let skew = octets::number_at::<u32>(rows, ROW_OCTETS * row + rows::NUMBER_OCTETS);
    let first = MEMORY_WORDS * row;
    receive_on(skew, &mut memory[first..first + MEMORY_WORDS], frame)
}

// Receives a frame: returns the answer, and stores what the answer leaves in the memory of the frame's link. Any rows
// and memories get an answer; rows and memories beyond those in use are neither read nor written.
#[tactic(auto, using(crate::proofs::Answering::row_low, crate::proofs::Answering::call_unknown, crate::proofs::Answering::call_answered), unfolding(crate::specs::Lent::rows_in_use))]
pub fn receive(frame: Arrival, rows: &[u8], memory: &mut [u64]) -> Reception
    ensures { received_of result memory.new ≡ received rows.now memory.old frame }
{
    let count = memory.len() / MEMORY_WORDS;
    let Some(row) = rows::find(rows, SKEW_OCTETS, count, frame.link) else {
        return Reception::UnknownLink;
    };
    receive_at(row, frame, rows, memory)
}
