//! Why a line of a log is not read.
use std::fmt;

/// Why a line of a log is not read.
#[derive(Clone, Copy, PartialEq, Eq)]
pub enum Unread {
    /// No event begins with this word.
    NoEvent,
    /// `issue` stands there, and nothing says what it means.
    Ambiguous,
    /// A number is wanted.
    NoNumber,
    /// There is more than the event takes.
    More,
}

impl fmt::Display for Unread {
    fn fmt<W: fmt::Write>(&self, f: &mut fmt::Formatter<W>) -> fmt::Result {
        f.write_str(match self {
            Unread::NoEvent => "no event begins with this word",
            Unread::Ambiguous => {
                "issue is a dispatch in some books and the begin of execution in others: --issue says which"
            }
            Unread::NoNumber => "a number is wanted",
            Unread::More => "there is more than the event takes",
        })
    }
}
