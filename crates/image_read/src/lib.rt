// Reading a configuration image: what any octets are answered when they are read as an image.
#![tactic(auto)]

ghost use Rattle.std.specs.Prelude.{◌≡◌, length};
ghost use Rattle.image_read.specs.Read.{answered, read_image};

mod count;
mod field;

use codes::Fault;
use tables::Settings;

// Why an image is refused: what is wrong, and the offset where it is wrong.
#[derive(Clone, Copy, Debug, PartialEq, Eq)]
pub struct ImageError {
    pub fault: Fault,
    pub offset: usize,
}

// What reading or loading an image answers, in numbers: the code, the offset of the code, and on success the settings that the
// image names.
#[derive(Clone, Copy)]
pub struct ImageAnswer {
    pub code: u8,
    pub offset: usize,
    pub settings: Settings,
}

impl ImageAnswer {
    // The numbers of an answer: success has the image's length for its offset, a refusal settings of 0.
    pub fn of(answer: Result<Settings, ImageError>, length: usize) -> ImageAnswer
        ensures { result ≡ answered length answer }
    {
        let none = Settings {
            constant: 0,
            accounts: 0,
            links: 0,
        };
        let (code, offset, settings) = match answer {
            Ok(settings) => (codes::SUCCESS, length, settings),
            Err(error) => (error.fault.into(), error.offset, none),
        };
        ImageAnswer {
            code,
            offset,
            settings,
        }
    }
}

// The settings that an image names, whatever its octets.
#[tactic(auto, unfolding(crate::specs::Read::read_image))]
pub fn check(image: &[u8]) -> Result<Settings, ImageError>
    ensures { answered (length image.now) result ≡ read_image image.now }
{
    image_field::check_head(image).map_err(|fault| ImageError { fault, offset: 0 })?;
    let accounts = count::count_accounts(image);
    let links = count::count_links(image, accounts);
    count::read_end(image, accounts, links)
}
