// A reader that this crate owns: the reader is held in a local, loads, and is asked for its place. A caller has a plain
// slice and a number and needs no reader.
#![tactic(auto)]

ghost use Rattle.std.specs.Prelude.{◌≡◌, length};
ghost use Rattle.image_read.specs.Read.{answered};
ghost use Rattle.image_fill.specs.Lent.{runs_in, SameRuns};
ghost use Rattle.image_load.specs.Loading.{loading_of, loading};

use image_fill::LentRuns;
use image_read::ImageError;
use image_reader::Reader;
use tables::Settings;

// What a reader answered, and the reader's place after that.
#[derive(Clone, Copy)]
pub struct Reading {
    pub answer: Result<Settings, ImageError>,
    pub at: usize,
}

// Loads an image through a reader that starts at any place, also past the image's end.
pub fn load_from(image: &[u8], place: usize, runs: &mut LentRuns) -> Reading
    ensures loaded { loading_of (answered (length image.now) result.answer) (runs_in runs.new)
        ≡ loading image.now (runs_in runs.old) }
    ensures same_runs { SameRuns runs.old runs.new }
    ensures place { result.at ≡ (answered (length image.now) result.answer).offset }
{
    let mut reader = Reader { image, at: place };
    let answer = reader.load(runs);
    Reading {
        answer,
        at: reader.at(),
    }
}
