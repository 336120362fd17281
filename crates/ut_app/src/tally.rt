//! What is heard of an answer whose text isn't written, and what is counted of it.
ghost use Rattle.std.specs.Prelude.{◌≡◌, ◌<◌, ◌-◌, ◌^◌, None};
ghost use Rattle.ut_app.specs.Hearing.{heard_of, is_fault, counted};

use ut_plain::Reply;

/// What is heard of a line: nothing, that its statement was refused, a sum, another reply, or that the disk failed.
#[derive(Clone, Copy, Debug, PartialEq, Eq)]
pub enum Heard {
    Nothing,
    Refusal,
    Sum(i128),
    Else,
    Fault,
}

/// How many answers refused, and the sum that the last one told.
#[derive(Clone, Copy, Debug, PartialEq, Eq)]
pub struct Tally {
    pub refused: u32,
    pub total: Option<i128>,
}

pub(crate) fn heard_of(reply: &Reply) -> Heard
    ensures { result ≡ heard_of reply.now }
{
    match reply {
        Reply::Refused(_) => Heard::Refusal,
        Reply::Sum(number) => Heard::Sum(*number),
        Reply::DiskFault => Heard::Fault,
        _ => Heard::Else,
    }
}

impl Heard {
    pub(crate) fn is_fault(self) -> bool
        ensures { result ≡ is_fault self }
    {
        matches!(self, Heard::Fault)
    }
}

impl Tally {
    /// Before the first answer.
    pub(crate) fn new() -> Tally
        ensures { result ≡ record { refused = 0; total = None } }
    {
        Tally {
            refused: 0,
            total: None,
        }
    }

    /// With one answer more.
    pub(crate) fn counted(self, heard: Heard) -> Tally
        requires { self.refused < 2 ^ 32 - 1 }
        ensures { result ≡ counted self heard }
    {
        match heard {
            Heard::Nothing | Heard::Fault => self,
            Heard::Refusal => Tally {
                refused: self.refused + 1,
                total: None,
            },
            Heard::Sum(number) => Tally {
                refused: self.refused,
                total: Some(number),
            },
            Heard::Else => Tally {
                refused: self.refused,
                total: None,
            },
        }
    }
}
