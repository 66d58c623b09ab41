// Printing of words and of numbers; each number has a blank before it.
use std::io::{Print, Stdout};

// Prints words. Where a write fails the output lacks them, and nothing says so.
pub(crate) fn text(out: Stdout, words: &[u8]) {
    let _ = out.write_all(words);
}

pub(crate) fn number(out: Stdout, n: u64) {
    text(out, b" ");
    let _ = out.print(n);
}

// Prints the numbers of a run.
pub(crate) fn numbers<T: Copy + Into<u64>>(out: Stdout, run: &[T]) {
    for &n in run {
        number(out, n.into());
    }
}

// Prints a number, `-` for none.
pub(crate) fn optional(out: Stdout, n: Option<u32>) {
    match n {
        Some(n) => number(out, n as u64),
        None => mark(out, b'-'),
    }
}

// Prints the arrow between a line and its answer.
pub(crate) fn arrow(out: Stdout) {
    text(out, b" ->");
}

// Prints a mark: `|` between the parts of an answer, `-` for a missing number.
pub(crate) fn mark(out: Stdout, x: u8) {
    text(out, &[b' ', x]);
}

// Prints a bar, then `count` words from an offset on.
pub(crate) fn words(out: Stdout, run: &[u64], at: usize, count: usize) {
    mark(out, b'|');
    for &n in run.iter().skip(at).take(count) {
        number(out, n);
    }
}

// Prints words, then each octet of a run.
pub(crate) fn octets(out: Stdout, words: &[u8], run: &[u8]) {
    text(out, words);
    numbers(out, run);
}
