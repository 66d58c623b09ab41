// The lines of a script. A line is words with one blank between two words. Each word is read as a number: the number
// that the word's digits spell or, for a name, the name's first letter.

// The words of a line in order, 0 for a missing word. A line has no more.
pub(crate) type Words = [u64; 20];

// The words of a line by name: the first letter of the first word, and the seven words after the first.
#[derive(Clone, Copy)]
pub(crate) struct Numbers {
    pub(crate) verb: u8,
    pub(crate) a: u64,
    pub(crate) b: u64,
    pub(crate) c: u64,
    pub(crate) d: u64,
    pub(crate) e: u64,
    pub(crate) f: u64,
    pub(crate) g: u64,
}

pub(crate) fn named(words: Words) -> Numbers {
    let [verb, a, b, c, d, e, f, g, ..] = words;
    Numbers {
        verb: (verb % 256) as u8,
        a,
        b,
        c,
        d,
        e,
        f,
        g,
    }
}

// A word with one octet appended.
fn joined(word: u64, x: u8) -> u64 {
    match x {
        b'0'..=b'9' => (word % 1844674407370955162 * 10).wrapping_add((x - b'0') as u64),
        b':'.. if word == 0 => x as u64,
        _ => word,
    }
}

// The words of a line.
pub(crate) fn words(line: &[u8]) -> Words {
    let mut words = [0; 20];
    for (word, text) in words.iter_mut().zip(line.split(|x| *x == b' ')) {
        *word = text.iter().fold(0, |word, x| joined(word, *x));
    }
    words
}

// A number in the high octets of eight. No case has a number that is wider than its width.
fn high(n: u64, width: u8) -> u64 {
    match width {
        1 => n << 56,
        2 => n << 48,
        4 => n << 32,
        _ => 0,
    }
}

// Returns the octets of a row: words of a line from `first` on, each in as many octets as its width.
pub(crate) fn row(words: Words, first: usize, widths: [u8; 8]) -> [u8; 32] {
    let mut octets = [0; 32];
    let mut at: usize = 0;
    for (&word, &width) in words.iter().skip(first).zip(&widths) {
        octets_write::put_number(&mut octets, at, high(word, width));
        at = at.wrapping_add(width as usize);
    }
    octets
}
