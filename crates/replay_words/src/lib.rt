// The words of a text. Each function appends a word at an offset of the lent room and returns the next offset; a word that doesn't
// fit whole is not written, and the offset itself is returned. Every function is total.
#![tactic(auto)]

ghost use Rattle.std.specs.Prelude.{◌≡◌};
ghost use Rattle.octets.specs.Runs.{octets_at};
ghost use Rattle.replay_words.specs.Words.{word_of, appended, appended_of};

mod digits;

// The first `size` octets of a text, appended at an offset; an octet past the end of the text is 0.
#[tactic(auto, using(crate::proofs::Words::text_not, crate::proofs::Words::text_appended))]
pub fn put_text(text: &[u8], size: usize, out: &mut [u8], at: usize) -> usize
    ensures { appended_of result out.new ≡ appended out.old at (octets_at size text.now 0) }
{
    if !octets::has_room(out.len(), at, size) {
        return at;
    }
    octets_write::copy(text, 0, size, out, at);
    at + size
}

// A number and the character after it, appended at an offset.
#[tactic(auto, using(crate::proofs::Words::word_cases))]
pub fn put_word(line: &mut [u8], at: usize, x: u64, mark: u8) -> usize
    ensures { appended_of result line.new ≡ appended line.old at (word_of x mark) }
{
    let w = digits::width(x);
    if !octets::has_room(line.len(), at, w + 1) {
        return at;
    }
    digits::put_digits(line, at, w, x);
    line[at + w] = mark;
    at + w + 1
}
