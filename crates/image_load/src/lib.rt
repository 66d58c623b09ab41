// Loading a configuration image into lent tables. Every function is total.
#![tactic(auto)]

ghost use Rattle.std.specs.Prelude.{◌≡◌, length};
ghost use Rattle.image_read.specs.Read.{answered};
ghost use Rattle.image_fill.specs.Lent.{runs_in, SameRuns};
ghost use Rattle.image_load.specs.Loading.{loading_of, loading};

use codes::Fault;
use image_fill::LentRuns;
use image_read::ImageError;
use tables::Settings;

// Loads an image into lent tables and returns the settings that the image names. After an error the tables are
// unchanged; otherwise the rows that the image doesn't name are.
#[tactic(auto, using(crate::proofs::Loading::load_refused))]
pub fn load(image: &[u8], runs: &mut LentRuns) -> Result<Settings, ImageError>
    ensures loaded { loading_of (answered (length image.now) result) (runs_in runs.new)
        ≡ loading image.now (runs_in runs.old) }
    ensures same_runs { SameRuns runs.old runs.new }
{
    let settings = image_read::check(image)?;
    let accounts = settings.accounts as u16;
    let links = settings.links as u16;
    if !runs.holds(accounts, links) {
        return Err(ImageError {
            fault: Fault::NoRoom,
            offset: image.len(),
        });
    }
    image_fill::fill_runs(image, accounts, links, runs);
    Ok(settings)
}
