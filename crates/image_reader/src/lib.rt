// A reader: an image and a place in the image.
#![tactic(auto)]

ghost use Rattle.std.specs.Prelude.{◌≡◌, length};
ghost use Rattle.image_read.specs.Read.{answered};
ghost use Rattle.image_fill.specs.Lent.{runs_in, SameRuns};
ghost use Rattle.image_load.specs.Loading.{loading_of, loading};

use image_fill::LentRuns;
use image_read::ImageError;
use tables::Settings;

#[derive(Clone, Copy)]
pub struct Reader<'a> {
    pub image: &'a [u8],
    pub at: usize,
}

impl<'a> Reader<'a> {
    // A reader at the start of an image.
    pub fn new(image: &'a [u8]) -> Reader<'a>
        ensures { (result.image ≡ image.entry) × (result.at ≡ 0) }
    {
        Reader { image, at: 0 }
    }

    // The reader's place.
    pub fn at(self) -> usize
        ensures { result ≡ self.entry.at }
    {
        self.at
    }

    // Loads the whole image from its first octet, whatever the reader's place; the place is then the offset answered.
    pub fn load(&mut self, runs: &mut LentRuns) -> Result<Settings, ImageError>
        ensures loaded { loading_of (answered (length self.old.image.now) result) (runs_in runs.new)
            ≡ loading self.old.image.now (runs_in runs.old) }
        ensures same_runs { SameRuns runs.old runs.new }
        ensures reader { (self.new.image ≡ self.old.image)
            × (self.new.at ≡ (answered (length self.old.image.now) result).offset) }
    {
        let answer = image_load::load(self.image, runs);
        self.at = match answer {
            Ok(_) => self.image.len(),
            Err(error) => error.offset,
        };
        answer
    }
}
