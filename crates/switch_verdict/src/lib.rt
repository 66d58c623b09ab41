// The verdict on a frame, as a frame call answers it.
#![tactic(auto)]

ghost use Rattle.std.specs.Prelude.{◌≡◌};
ghost use Rattle.account.specs.Step.{step_reported};
ghost use Rattle.switch_verdict.specs.Verdict.{reported, with_mask, verdict_code, verdict_mask, verdict_credit};

use account::Outcome;

// The answer of a frame call: forwarded with the output ports and the credit left, short or late with the credit held,
// or refused with its code.
#[derive(Clone, Copy, Debug, PartialEq, Eq)]
pub enum Verdict {
    Forwarded { mask: u32, credit: u32 },
    Short(u32),
    Late(u32),
    Refused(u8),
}

impl Verdict {
    // A policing step's answer as a verdict on a link with this mask.
    pub fn of_outcome(outcome: Outcome, mask: u32) -> Verdict
        ensures { reported result ≡ with_mask mask (step_reported outcome) }
    {
        match outcome {
            Outcome::Forwarded(credit) => Self::Forwarded { mask, credit },
            Outcome::Short(credit) => Self::Short(credit),
            Outcome::Late(credit) => Self::Late(credit),
            Outcome::Refused(code) => Self::Refused(code),
        }
    }

    // The verdict's code.
    pub fn code(self) -> u8
        ensures { result ≡ verdict_code self }
    {
        match self {
            Self::Forwarded { .. } => codes::SUCCESS,
            Self::Short(_) => codes::SHORT,
            Self::Late(_) => codes::LATE,
            Self::Refused(code) => code,
        }
    }

    // The output ports that the verdict carries, if it carries any.
    pub fn mask(self) -> Option<u32>
        ensures { result ≡ verdict_mask self }
    {
        match self {
            Self::Forwarded { mask, .. } => Some(mask),
            _ => None,
        }
    }

    // The credit that the verdict carries, if it carries one.
    pub fn credit(self) -> Option<u32>
        ensures { result ≡ verdict_credit self }
    {
        match self {
            Self::Forwarded { credit, .. } => Some(credit),
            Self::Short(credit) | Self::Late(credit) => Some(credit),
            Self::Refused(_) => None,
        }
    }
}
