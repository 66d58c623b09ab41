// Configuration images: reading, loading and writing; finding a link's row. The first letter of a line says what the line is:
//   # ..                                                  a heading
//   image accounts links size offset : octets             reads an image: code and offset, constant field and counts; an image
//                                                         of 61 octets is also written from its rows: code and offset
//   image .. : octets into octets credits times octets    loads the image into account rows, credits, last times and link rows
//                                                         of so much: code and the rest as above, then what the runs hold
//   image .. : octets write accounts links size           writes so many rows of the image into a room of a size: code, offset,
//                                                         then what the room holds
//   zeros accounts links                                  writes so many rows of zeros: code and offset
//   find count number                                     finds a number in so many of four rows: the row, `-` for none
// An image is image P with so many accounts and links, cut to a size, with eight octets from an offset on changed. A
// remainder keeps each number within its width; no case needs the remainder.
use super::script::{Numbers, Words};
use super::state::Lent;
use super::{say, script};
use image_fill::LentRuns;
use image_read::ImageError;
use std::io::Stdout;
use tables::{LentTables, Settings};

// The head of image P.
const HEAD: u64 = 0x01_0005_01_0300_0000;

// The account of image P with Smax 200, and the link of image P with number 7; later accounts and links have 201, 8 and
// so on.
const ACCOUNT: u64 = 0x02_0006_00C8_00_01F4;

const LINK: u64 = 0x03_000D_0007_02_0000;

const LINK_REST: u64 = 0x0008_0040_00C8_0000;

// The tag of the end field, and an octet of the end's length.
const END: u16 = 0x0900;

// Octets of an image of two accounts and two links.
const TWO_OF_EACH: usize = 61;

// Writes n fields of `step` octets from `at` on: eight octets whose number at 3 rises by one from field to field, and
// eight octets after these.
fn put_fields(room: &mut [u8], at: u16, step: u8, n: u16, x: u64, y: u64) {
    let mut offset = at as usize;
    for i in 0..n {
        let first = x.wrapping_add(0x0100_0000 * i as u64);
        octets_write::put_number(room, offset, first);
        octets_write::put_number(room, offset.wrapping_add(8), y);
        offset = offset.wrapping_add(step as usize);
    }
}

// An image of so many accounts and links, with its end field.
fn whole(accounts: u8, links: u16) -> [u8; 4720] {
    let first = 8 + 9 * accounts as u16;
    let mut image = [0u8; 4720];
    octets_write::put_number(&mut image, 0, HEAD);
    put_fields(&mut image, 8, 9, accounts as u16, ACCOUNT, 0);
    put_fields(&mut image, first, 16, links, LINK, LINK_REST);
    octets_write::put_number(&mut image, first as usize + 16 * links as usize, END);
    image
}

// Prints the code and the offset of a refusal, or success and its offset.
fn show_code(out: Stdout, refused: Option<ImageError>, offset: usize) {
    let (code, offset) = match refused {
        None => (codes::SUCCESS, offset),
        Some(error) => (error.fault.into(), error.offset),
    };
    say::numbers(out, &[code as u64, offset as u64]);
}

// Prints code and offset of an image of a length, then the constant field and the counts.
fn show(out: Stdout, answer: Result<Settings, ImageError>, length: usize) {
    say::arrow(out);
    show_code(out, answer.err(), length);
    say::mark(out, b'|');
    let none = Settings {
        constant: 0,
        accounts: 0,
        links: 0,
    };
    let s = answer.unwrap_or(none);
    say::numbers(out, &[s.constant as u64, s.accounts as u64, s.links as u64]);
}

// Loads an image into the first parts of runs that hold two rows each, and prints what the runs hold.
fn load(out: Stdout, image: &[u8], lent: Lent) {
    let mut rows = [170u8; 12];
    let mut credits = [7u32; 2];
    let mut lasts = [9u64; 2];
    let mut links = [187u8; 26];
    let mut runs = LentRuns {
        accounts: &mut rows[..lent.rows % 13],
        credits: &mut credits[..lent.credits % 3],
        lasts: &mut lasts[..lent.words % 3],
        links: &mut links[..lent.links % 27],
    };
    show(out, image_load::load(image, &mut runs), image.len());
    say::octets(out, b"\naccounts", &rows);
    say::text(out, b"\ncredits, last times");
    say::numbers(out, &credits);
    say::numbers(out, &lasts);
    say::octets(out, b"\nlinks", &links);
}

// The two account rows of an image with two accounts and two links, and a third row without its last octet.
fn account_rows(image: &[u8]) -> [u8; 17] {
    let mut rows = [0u8; 17];
    octets_write::copy(image, 11, 6, &mut rows, 0);
    octets_write::copy(image, 20, 6, &mut rows, 6);
    rows
}

// The two link rows of such an image, and a third row without its last octet.
fn link_rows(image: &[u8]) -> [u8; 38] {
    let mut rows = [0u8; 38];
    octets_write::copy(image, 29, 13, &mut rows, 0);
    octets_write::copy(image, 45, 13, &mut rows, 13);
    rows
}

// Prints code and offset of a written image; the offset of success is the image's length.
fn show_written(out: Stdout, written: Result<usize, ImageError>) {
    say::mark(out, b'|');
    show_code(out, written.err(), written.unwrap_or(0));
}

// Writes so many rows of an image into a room; returns the room.
fn write(out: Stdout, image: &[u8], accounts: u64, links: u64, size: u64) -> [u8; 64] {
    let mut room = [170u8; 64];
    let settings = Settings {
        constant: octets::number_at(image, 4),
        accounts: accounts as usize,
        links: links as usize,
    };
    let source = LentTables {
        settings,
        accounts: &account_rows(image),
        links: &link_rows(image),
    };
    show_written(
        out,
        image_write::write(source, &mut room[0..size as usize % 65]),
    );
    room
}

// Reads an image; one of two accounts and two links is also written from its rows.
fn read(out: Stdout, image: &[u8]) {
    show(out, image_read::check(image), image.len());
    if image.len() == TWO_OF_EACH {
        write(out, image, 2, 2, TWO_OF_EACH as u64);
    }
}

// Writes so many rows of an image, and prints the room.
fn write_rows(out: Stdout, image: &[u8], accounts: u64, links: u64, size: u64) {
    let room = write(out, image, accounts, links, size);
    say::octets(out, b" :", &room);
}

fn lent_by(words: Words) -> Lent {
    Lent {
        rows: words[15] as usize,
        credits: words[16] as usize,
        words: words[17] as usize,
        links: words[18] as usize,
    }
}

// Answers an image by the word after the image's octets: loads, writes or reads the image.
fn answer(out: Stdout, image: &[u8], words: Words) {
    match (words[14] % 256) as u8 {
        b'i' => load(out, image, lent_by(words)),
        b'w' => write_rows(out, image, words[15], words[16], words[17]),
        _ => read(out, image),
    }
}

// Makes the image of a line, with eight octets changed, and answers that image.
fn image(out: Stdout, n: Numbers, words: Words) {
    let mut image = whole((n.a % 256) as u8, (n.b % 512) as u16);
    octets_write::copy(
        &script::row(words, 6, [1u8; 8]),
        0,
        8,
        &mut image,
        n.d as usize,
    );
    answer(out, &image[0..n.c as usize % 4721], words);
}

// Writes so many rows of zeros; rows are lent for one more than each limit.
fn zeros(out: Stdout, accounts: usize, links: usize) {
    let settings = Settings {
        constant: 0x0300_0000,
        accounts,
        links,
    };
    let source = LentTables {
        settings,
        accounts: &[0u8; 390],
        links: &[0u8; 3341],
    };
    show_written(out, image_write::write(source, &mut [0u8; 8]));
}

// Four link rows with the numbers 7, 8, 8 and 9, the last row without its last octet.
fn link_numbers() -> [u8; 51] {
    let mut rows = [0u8; 51];
    rows[1] = 7;
    rows[14] = 8;
    rows[27] = 8;
    rows[40] = 9;
    rows
}

// Prints the row found, `-` for none.
fn show_row(out: Stdout, found: Option<usize>) {
    say::arrow(out);
    match found {
        Some(row) => say::number(out, row as u64),
        None => say::mark(out, b'-'),
    }
}

// Finds a number in the first `count` rows of `link_numbers`.
fn find(out: Stdout, count: usize, number: u64) {
    show_row(
        out,
        tables::find(&link_numbers(), count, (number % 65536) as u16),
    );
}

pub(crate) fn line(out: Stdout, n: Numbers, words: Words) {
    match n.verb {
        b'i' => image(out, n, words),
        b'z' => zeros(out, n.a as usize, n.b as usize),
        b'f' => find(out, n.a as usize, n.b),
        _ => (),
    }
}
