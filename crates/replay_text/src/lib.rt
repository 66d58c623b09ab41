// The lines of a replay. Each function writes a line at an offset of the lent room and returns the offset after the line; a line
// that doesn't fit whole is not written, and the offset itself is returned. Every function is total.
#![tactic(auto)]

ghost use Rattle.std.specs.Prelude.{◌≤◌, ◌≡◌, length};
ghost use Rattle.switch_verdict.specs.Verdict.{reported};
ghost use Rattle.replay_text.specs.Text.{credit_of, credit_word, line_of, refused_line, header_line, cut_line, longest_line};
ghost use Rattle.replay_words.specs.Words.{appended, appended_of};

use switch_verdict::Verdict;

// No line is longer: three numbers of 20, 3 and 10 digits, with a character after each.
pub const LONGEST_LINE: usize = 36;

const SPACE: u8 = 32;

const LINE_END: u8 = 10;

// The longest line as a value: it is the figure that the definitions give.
pub fn longest_line() -> usize
    ensures { result ≡ longest_line }
{
    LONGEST_LINE
}

// A credit or a dash, and the line's end, appended at an offset.
#[tactic(auto, using(crate::proofs::Lines::credit_fits), unfolding(octets::specs::Runs::octets_at))]
fn put_credit(line: &mut [u8], at: usize, credit: Option<u32>) -> usize
    ensures word_put { appended_of result line.new ≡ appended line.old at (credit_word (credit_of credit)) }
    ensures fits { length (credit_word (credit_of credit)) ≤ 11 }
{
    match credit {
        Some(credit) => replay_words::put_word(line, at, credit as u64, LINE_END),
        None => replay_words::put_text(b"-\n", 2, line, at),
    }
}

// The line of a frame: its number, the code of its answer, and the credit of that answer. No such line is longer than the
// longest.
pub fn put_line(out: &mut [u8], at: usize, number: u64, verdict: Verdict) -> usize
    ensures line_put { appended_of result out.new ≡ appended out.old at (line_of number (reported verdict)) }
    ensures fits { length (line_of number (reported verdict)) ≤ longest_line }
{
    let mut line = [0u8; LONGEST_LINE];
    let a = replay_words::put_word(&mut line, 0, number, SPACE);
    let b = replay_words::put_word(&mut line, a, verdict.code() as u64, SPACE);
    let c = put_credit(&mut line, b, verdict.credit());
    replay_words::put_text(&line, c, out, at)
}

// The line of a refused image.
pub fn put_refused_image(out: &mut [u8], at: usize, code: u8, offset: usize) -> usize
    ensures { appended_of result out.new ≡ appended out.old at (refused_line code offset) }
{
    let mut line = [0u8; LONGEST_LINE];
    let a = replay_words::put_text(b"image ", 6, &mut line, 0);
    let b = replay_words::put_word(&mut line, a, code as u64, SPACE);
    let c = replay_words::put_word(&mut line, b, offset as u64, LINE_END);
    replay_words::put_text(&line, c, out, at)
}

// The first line of a replay.
#[tactic(auto, unfolding(octets::specs::Runs::octets_at))]
pub fn put_header(out: &mut [u8], at: usize) -> usize
    ensures { appended_of result out.new ≡ appended out.old at header_line }
{
    replay_words::put_text(b"# frame code credit\n", 20, out, at)
}

// The last line of a log that is cut.
#[tactic(auto, unfolding(octets::specs::Runs::octets_at))]
pub fn put_cut(out: &mut [u8], at: usize) -> usize
    ensures { appended_of result out.new ≡ appended out.old at cut_line }
{
    replay_words::put_text(b"cut\n", 4, out, at)
}
