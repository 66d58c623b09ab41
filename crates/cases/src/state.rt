// The state that the lines of a section have set.
use super::script;
use super::script::{Numbers, Words};
use account::Account;
use tables::Settings;
use terms::Terms;

// Words of a memory.
const MEMORY: u64 = receive::MEMORY_WORDS as u64;

// The runs that are lent: account rows or the rows of the receiving end, credits, last times or memories, link rows.
#[derive(Clone, Copy)]
pub(crate) struct Runs {
    pub(crate) rows: [u8; 24],
    pub(crate) credits: [u32; 4],
    pub(crate) words: [u64; 3081],
    pub(crate) links: [u8; 78],
}

// How much is lent of each run.
#[derive(Clone, Copy)]
pub(crate) struct Lent {
    pub(crate) rows: usize,
    pub(crate) credits: usize,
    pub(crate) words: usize,
    pub(crate) links: usize,
}

// The account of the policing steps; the runs, how much of the runs is lent, and the settings; the row whose memory is
// printed.
#[derive(Clone, Copy)]
pub(crate) struct State {
    pub(crate) account: Account,
    pub(crate) runs: Runs,
    pub(crate) lent: Lent,
    pub(crate) settings: Settings,
    pub(crate) shown: usize,
}

// The state in which nothing is set: all is 0.
pub(crate) fn fresh() -> State {
    let terms = Terms {
        smax: 0,
        jitter: 0,
        k: 0,
        mode: 0,
    };
    State {
        account: Account {
            terms,
            credit: 0,
            last: 0,
        },
        runs: Runs {
            rows: [0; 24],
            credits: [0; 4],
            words: [0; 3081],
            links: [0; 78],
        },
        lent: Lent {
            rows: 0,
            credits: 0,
            words: 0,
            links: 0,
        },
        settings: Settings {
            constant: 0,
            accounts: 0,
            links: 0,
        },
        shown: 0,
    }
}

impl Runs {
    // Sets a row of six octets; the row's numbers follow the row's index in the line, each by its width.
    fn put_row(&mut self, row: u64, line: Words, widths: [u8; 8]) {
        let octets = script::row(line, 2, widths);
        octets_write::copy(&octets, 0, 6, &mut self.rows, row as usize % 4 * 6);
    }

    // Sets a link row.
    fn put_link(&mut self, row: u64, line: Words) {
        let octets = script::row(line, 2, [2, 1, 4, 2, 2, 2, 0, 0]);
        octets_write::copy(&octets, 0, 13, &mut self.links, row as usize % 6 * 13);
    }

    fn put_credit(&mut self, account: u64, credit: u64) {
        self.credits[account as usize % 4] = (credit % 0x0001_0000_0000) as u32;
    }

    fn put_word(&mut self, at: u64, word: u64) {
        self.words[at as usize % 3081] = word;
    }

    // Sets what a line says; `calls` and `receptions` say what such lines are.
    pub(crate) fn set(&mut self, n: Numbers, words: Words) {
        match n.verb {
            b'a' => self.put_row(n.a, words, [2, 1, 2, 1, 0, 0, 0, 0]),
            b'r' => self.put_row(n.a, words, [2, 4, 0, 0, 0, 0, 0, 0]),
            b'l' => self.put_link(n.a, words),
            b'c' => self.put_credit(n.a, n.b),
            b't' => self.put_word(n.a, n.b),
            b'w' => self.put_word(n.a % 3 * MEMORY + n.b % MEMORY, n.c),
            b'e' => self.words = [0; 3081],
            _ => (),
        }
    }
}
