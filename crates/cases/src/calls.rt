// Frame calls. The first letter of a line says what the line is:
//   # ..                                                 a heading
//   account row Smax k jitter mode                       rows 0 to 3
//   credit account credit
//   time account time                                    the last time
//   link row number port mask smallest largest account   rows 0 to 5
//   given constant accounts links octets credits times link_octets
//       sets the constant field, both counts, and how much is lent of account rows, credits, last times and link
//       rows
//   base                                                 keeps the tables for `reset`
//   reset                                                goes back to the tables of `base`
//   frame octets constant link port time                 a frame call
// A remainder keeps each number within its width; no case needs the remainder.
use super::script::{Numbers, Words};
use super::state::{Lent, Runs, State};
use super::{frames, say};
use std::io::Stdout;
use switch::Ingress;
use switch_verdict::Verdict;
use tables::{LentTables, Settings};

// Prints code, mask and credit, `-` for a value that the verdict doesn't carry.
fn show(out: Stdout, verdict: Verdict) {
    say::arrow(out);
    say::number(out, verdict.code() as u64);
    say::optional(out, verdict.mask());
    say::optional(out, verdict.credit());
}

// Prints all credits and last times.
fn show_runs(out: Stdout, runs: &Runs) {
    say::mark(out, b'|');
    say::numbers(out, &runs.credits);
    say::words(out, &runs.words, 0, 4);
}

// Makes a frame call, with only a part of each run lent, and prints the verdict.
fn judge(out: Stdout, state: &mut State, frame: &[u8], ingress: Ingress) {
    let lent = state.lent;
    let Runs { rows, links, .. } = state.runs;
    let tables = LentTables {
        settings: state.settings,
        accounts: &rows[..lent.rows % 25],
        links: &links[..lent.links % 79],
    };
    let runs = &mut state.runs;
    let credits = &mut runs.credits[..];
    let lasts = &mut runs.words[..];
    show(
        out,
        switch::frame_call(
            frame,
            ingress,
            tables,
            &mut credits[..lent.credits % 5],
            &mut lasts[..lent.words % 5],
        ),
    );
}

// Makes the frame call of a line, and prints the credits and last times that the call left.
fn call(out: Stdout, state: &mut State, n: Numbers) {
    let octets = frames::made(n.b, n.c);
    let ingress = Ingress {
        port: (n.d % 0x0001_0000_0000) as u32,
        time: n.e,
    };
    judge(out, state, &octets[..n.a as usize % 1520], ingress);
    show_runs(out, &state.runs);
}

// Sets the settings of a line, and how much is lent.
fn set_given(state: &mut State, n: Numbers) {
    state.settings = Settings {
        constant: (n.a % 0x0001_0000_0000) as u32,
        accounts: n.b as usize,
        links: n.c as usize,
    };
    state.lent = Lent {
        rows: n.d as usize,
        credits: n.e as usize,
        words: n.f as usize,
        links: n.g as usize,
    };
}

pub(crate) fn line(out: Stdout, state: &mut State, base: &State, n: Numbers, words: Words) {
    match n.verb {
        b'g' => set_given(state, n),
        b'r' => *state = *base,
        b'f' => call(out, state, n),
        _ => state.runs.set(n, words),
    }
}
