// A rig: the tables that its image holds, and the state of its accounts.
use image_fill::LentRuns;
use image_read::ImageAnswer;
use replay_turn::Progress;
use tables::{LentTables, Settings};

// Runs that hold the tables of any image.
const ACCOUNTS: usize = image_layout::MAX_ACCOUNTS as usize;

const ACCOUNT_ROWS: usize = tables::ACCOUNT_OCTETS * ACCOUNTS;

const LINK_ROWS: usize = tables::LINK_OCTETS * image_layout::MAX_LINKS as usize;

// The settings of the image, the rows of its accounts and its links, and each account's credit and last time.
#[derive(Drop)]
pub(crate) struct Rig {
    settings: Settings,
    accounts: [u8; ACCOUNT_ROWS],
    links: [u8; LINK_ROWS],
    credits: [u32; ACCOUNTS],
    lasts: [u64; ACCOUNTS],
}

impl Rig {
    // A rig without accounts and links.
    pub(crate) fn new() -> Rig {
        Rig {
            settings: Settings {
                constant: 0,
                accounts: 0,
                links: 0,
            },
            accounts: [0; ACCOUNT_ROWS],
            links: [0; LINK_ROWS],
            credits: [0; ACCOUNTS],
            lasts: [0; ACCOUNTS],
        }
    }

    // Loads an image; returns what that answers.
    pub(crate) fn load(&mut self, image: &[u8]) -> ImageAnswer {
        let mut runs = LentRuns {
            accounts: &mut self.accounts,
            credits: &mut self.credits,
            lasts: &mut self.lasts,
            links: &mut self.links,
        };
        let answer = ImageAnswer::of(image_load::load(image, &mut runs), image.len());
        self.settings = answer.settings;
        answer
    }

    // A turn of the replay on the octets at hand.
    pub(crate) fn turn(
        &mut self,
        log: &[u8],
        whole: bool,
        from: Progress,
        out: &mut [u8],
    ) -> Progress {
        let tables = LentTables {
            settings: self.settings,
            accounts: &self.accounts,
            links: &self.links,
        };
        replay_turn::turn(
            log,
            whole,
            from,
            tables,
            out,
            &mut self.credits,
            &mut self.lasts,
        )
    }
}
