// The receiving end. The first letter of a line says what the line is:
//   # ..                          a heading
//   row row number SkewMax        rows 0 to 2
//   lent octets words             how much is lent of rows and memories
//   empty                         all words of all memories are 0
//   word row place value          a word of a memory, by its index
//   show row                      the memory that is printed with each answer
//   A link number time            a frame on network A
//   B link number time            a frame on network B
// A remainder keeps each number within its width; no case needs the remainder.
use super::say;
use super::script::{Numbers, Words};
use super::state::{Lent, State};
use receive_answer::{Arrival, Network, Reception};
use std::io::Stdout;

// Prints an answer's name and number.
fn show(out: Stdout, answer: Reception) {
    match answer {
        Reception::Delivered => say::text(out, b" -> delivered"),
        Reception::Copy => say::text(out, b" -> copy"),
        Reception::OutOfSequence => say::text(out, b" -> out of sequence"),
        Reception::UnknownLink => say::text(out, b" -> unknown link"),
        Reception::Late => say::text(out, b" -> late"),
    }
    say::number(out, u8::from(answer) as u64);
}

// Prints the last time, the last numbers on A and B, and the two words of a number's delivery on A and on B.
fn show_memory(out: Stdout, memory: &[u64], row: usize, number: u64) {
    let first = row % 3 * receive::MEMORY_WORDS;
    let a = first + 3 + 2 * (number % 256) as usize;
    say::words(out, memory, first, 3);
    say::words(out, memory, a, 2);
    say::words(out, memory, a + 512, 2);
}

// Receives the frame of a line, with a part of rows and memories lent.
fn arrive(out: Stdout, state: &mut State, network: Network, n: Numbers) {
    let frame = Arrival {
        link: (n.a % 65536) as u16,
        network,
        number: (n.b % 256) as u8,
        time: n.c,
    };
    let lent = state.lent;
    let rows = &state.runs.rows[..lent.rows % 25];
    let memories = &mut state.runs.words[..];
    show(
        out,
        receive::receive(frame, rows, &mut memories[..lent.words % 3082]),
    );
    show_memory(out, &state.runs.words, state.shown, n.b);
}

// How much a line lends of rows and memories.
fn lent(rows: u64, words: u64) -> Lent {
    Lent {
        rows: rows as usize,
        credits: 0,
        words: words as usize,
        links: 0,
    }
}

pub(crate) fn line(out: Stdout, state: &mut State, n: Numbers, words: Words) {
    match n.verb {
        b'A' => arrive(out, state, Network::A, n),
        b'B' => arrive(out, state, Network::B, n),
        b'l' => state.lent = lent(n.a, n.b),
        b's' => state.shown = n.a as usize,
        _ => state.runs.set(n, words),
    }
}
