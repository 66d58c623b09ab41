// The codes of every call, as the papers number them: the refusals of a frame and the faults of an image, each an error
// with its number, and the numbers of the other answers. All other crates name the codes.
#![tactic(auto)]

ghost use Rattle.std.specs.Prelude.{◌≡◌};
ghost use Rattle.codes.specs.Refused.{number_of, fault_number};

// Frame calls, policing steps and frame reading (document 01, "Codes, in order of checking"), and 0 of every call.

// Success: forwarded, delivered, or no code fits.
pub const SUCCESS: u8 = 0;

// Unknown virtual link at the receiving end (document 02, Q-1); a frame call's is a refusal.
pub const UNKNOWN_LINK: u8 = 4;

// A time before the last one; also at the receiving end (document 02, Q-1).
pub const LATE: u8 = 8;

// Credit short of the cost.
pub const SHORT: u8 = 9;

// Why a frame is refused with nothing but a code.
#[derive(Clone, Copy, Debug, PartialEq, Eq)]
pub enum Refusal {
    // A frame shorter than 64 octets.
    TooShort = 1,
    // A frame longer than 1,518.
    TooLong = 2,
    // Wrong constant field.
    OtherConstant = 3,
    // Unknown virtual link.
    UnknownLink = 4,
    // Wrong input port.
    OtherPort = 5,
    // A frame below the link's smallest size.
    BelowSmallest = 6,
    // A frame above the link's largest size.
    AboveLargest = 7,
    // Invalid table entry: the link's row or its account breaks a rule, or the credit is above the capacity.
    Unsound = 10,
}

impl From<Refusal> for u8 {
    ghost from_gives = { λ refusal number. number ≡ number_of refusal };

    fn from(refusal: Refusal) -> u8 {
        refusal as u8
    }
}

// What is wrong with an image that is read, loaded or written (document 01, "The configuration image").
#[derive(Clone, Copy, Debug, PartialEq, Eq)]
pub enum Fault {
    // Fewer than 3 octets left for a field, or the field's data cut.
    Cut = 20,
    // A tag that is unknown or out of order.
    WrongTag = 21,
    // A length that isn't the tag's.
    WrongLength = 22,
    // A value that breaks a rule.
    BadValue = 23,
    // An account or a link too many; for the writer also a count of 0 or over the rows lent.
    BadCount = 24,
    // Octets after the end.
    Surplus = 25,
    // A lent run or room that is too short.
    NoRoom = 26,
}

impl From<Fault> for u8 {
    ghost from_gives = { λ fault number. number ≡ fault_number fault };

    fn from(fault: Fault) -> u8 {
        fault as u8
    }
}

// The receiving end, beside 0, 4 and 8 (document 02, Q-1). The papers give no other answer a number; 30 and 31 are this
// project's.

// The copy of a frame that was delivered.
pub const COPY: u8 = 30;

// Out of sequence: a number that doesn't follow the last one.
pub const OUT_OF_SEQUENCE: u8 = 31;
