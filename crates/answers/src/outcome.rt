//! The outcome of a listing.
ghost use Rattle.std.specs.Prelude.{◌≡◌};
ghost use Rattle.answers.specs.Answer.{ending_status, status_number};

use instructions::{Ending, Stop};

/// What a listing came to, once all was written.
#[derive(Clone, Copy, Debug, PartialEq, Eq)]
pub enum Status {
    /// The run was ended by `break`.
    Break,
    /// The run was ended by another stop.
    Stopped,
    /// The listing has a fault; its line was written.
    TextFault,
    /// The run has reached the limit.
    Limit,
}

impl Status {
    /// The status of a run that ended so.
    pub fn of(ending: Ending) -> Status
        ensures { result ≡ ending_status ending }
    {
        match ending {
            Ending::Stop(Stop::Break) => Status::Break,
            Ending::Stop(_) => Status::Stopped,
            Ending::Limit => Status::Limit,
        }
    }

    /// The exit status of a program that wrote this.
    pub fn number(self) -> u8
        ensures { result ≡ status_number self }
    {
        match self {
            Status::Break => 0,
            Status::Stopped => 1,
            Status::TextFault => 2,
            Status::Limit => 4,
        }
    }
}
