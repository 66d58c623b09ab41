// The frame call in numbers.
ghost use Rattle.std.specs.Prelude.{◌≡◌};
ghost use Rattle.tables.specs.Rows.{config_of};
ghost use Rattle.switch.specs.Call.{state_of, call_of, called};
ghost use Rattle.exports.specs.Numbers.{call_numbers, call_done, call_done_of};

use switch::Ingress;
use tables::{LentTables, Settings};

// The frame call: returns the code of a frame on a port at a time; `mask` and `credit` are those that the verdict
// carries.
#[unsafe(no_mangle)]
pub extern "C" fn ashthulgo_frame_call(
    frame: &[u8],
    port: u32,
    time: u64,
    constant: u32,
    accounts: &[u8],
    credits: &mut [u32],
    lasts: &mut [u64],
    links: &[u8],
    account_count: usize,
    link_count: usize,
    mask: &mut u32,
    credit: &mut u32,
) -> u8
    ensures { call_done (call_numbers result mask.new credit.new) (state_of credits.new lasts.new)
        ≡ call_done_of (called
        (config_of constant accounts.now account_count links.now link_count)
        (state_of credits.old lasts.old)
        (call_of frame.now port time)) }
{
    let settings = Settings {
        constant,
        accounts: account_count,
        links: link_count,
    };
    let tables = LentTables {
        settings,
        accounts,
        links,
    };
    let verdict = switch::frame_call(frame, Ingress { port, time }, tables, credits, lasts);
    *mask = verdict.mask().unwrap_or(0);
    *credit = verdict.credit().unwrap_or(0);
    verdict.code()
}
