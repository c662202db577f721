//! The file of the log, which is never that of the listing.
ghost use Rattle.std.specs.Prelude.{◌≡◌};
ghost use Rattle.chart.specs.Statuses.{status_without_log};

use std::fs::{File, Metadata};
use std::os::unix::fs::MetadataExt;
use std::{fmt, io};

/// Why there is no log.
#[derive(Drop)]
pub(crate) enum NoLog {
    /// The log would overwrite the listing.
    IsListing,
    /// The file could not be opened.
    Unopened(io::Error),
}

impl NoLog {
    /// The exit status of the program.
    pub(crate) fn status(&self) -> u8
        ensures { result ≡ status_without_log self.now }
    {
        match self {
            NoLog::IsListing => 3,
            NoLog::Unopened(_) => 5,
        }
    }
}

impl fmt::Display for NoLog {
    fn fmt<W: fmt::Write>(&self, f: &mut fmt::Formatter<W>) -> fmt::Result {
        match self {
            NoLog::IsListing => f.write_str("it is the file of the listing"),
            NoLog::Unopened(reason) => write!(f, "{reason}"),
        }
    }
}

impl From<io::Error> for NoLog {
    fn from(error: io::Error) -> NoLog {
        NoLog::Unopened(error)
    }
}

/// Opens the file of the log and empties it, unless it is that of the listing.
pub(crate) fn open_log(
    rt: &HostRuntime,
    path: &str,
    listing: Option<Metadata>,
) -> Result<File, NoLog> {
    let file = File::options().write(true).create(true).open(rt, path)?;
    let metadata = file.metadata()?;
    if metadata.is_file() {
        if listing.is_some_and(|it| it.dev() == metadata.dev() && it.ino() == metadata.ino()) {
            return Err(NoLog::IsListing);
        }
        file.set_len(0)?;
    }
    Ok(file)
}
