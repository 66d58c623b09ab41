// The answer to a recorded frame, by way of a frame buffer.
#![tactic(auto)]

ghost use Rattle.std.specs.Prelude.{◌≡◌};
ghost use Rattle.switch_verdict.specs.Verdict.{reported};
ghost use Rattle.switch.specs.Call.{state_of, after_of};
ghost use Rattle.tables.specs.Lent.{config_in};
ghost use Rattle.replay_answer.specs.Answer.{record_call, replied_of, replied};

use codes::Refusal;
use replay_log::FrameRecord;
use switch::Ingress;
use switch_verdict::Verdict;
use tables::LentTables;

// The answer to a frame of a log, by the tables that were loaded. The frame is copied into the frame buffer and handed on as a
// part of the buffer; a frame that is longer than the buffer is skipped over, and nothing is copied.
pub fn answer(
    log: &[u8],
    logged: FrameRecord,
    buffer: &mut [u8; frame::LARGEST_FRAME],
    tables: LentTables,
    credits: &mut [u32],
    lasts: &mut [u64],
) -> Verdict
    ensures { replied_of (after_of (reported result) (state_of credits.new lasts.new)) buffer.new
        ≡ replied (config_in tables.entry) (state_of credits.old lasts.old) buffer.old (record_call log.now logged) }
{
    octets_write::copy(log, logged.start, logged.size, buffer, 0);
    let Some(frame) = buffer.get(..logged.size) else {
        return Verdict::Refused(Refusal::TooLong.into());
    };
    let ingress = Ingress {
        port: logged.port as u32,
        time: logged.time,
    };
    switch::frame_call(frame, ingress, tables, credits, lasts)
}
