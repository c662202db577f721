//! The file that gets an executable, which is never that of the listing.

use std::fs::{File, Metadata};
use std::os::unix::fs::{MetadataExt, OpenOptionsExt};
use std::{fmt, io};

/// Why there is no such file.
#[derive(Drop)]
pub(crate) enum NoOutput {
    /// The executable would overwrite the listing.
    IsListing,
    /// The file could not be opened.
    Unopened(io::Error),
}

impl NoOutput {
    /// The exit status of the program.
    pub(crate) fn status(&self) -> u8 {
        match self {
            NoOutput::IsListing => 3,
            NoOutput::Unopened(_) => 5,
        }
    }
}

impl fmt::Display for NoOutput {
    fn fmt<W: fmt::Write>(&self, f: &mut fmt::Formatter<W>) -> fmt::Result {
        match self {
            NoOutput::IsListing => f.write_str("it is the file of the listing"),
            NoOutput::Unopened(reason) => write!(f, "{reason}"),
        }
    }
}

impl From<io::Error> for NoOutput {
    fn from(error: io::Error) -> NoOutput {
        NoOutput::Unopened(error)
    }
}

/// Opens the file and empties it, unless it is that of the listing. A new file may be started.
pub(crate) fn open_output(
    rt: &HostRuntime,
    path: &str,
    listing: Option<Metadata>,
) -> Result<File, NoOutput> {
    let file = File::options()
        .write(true)
        .create(true)
        .mode(0o777)
        .open(rt, path)?;
    let metadata = file.metadata()?;
    if metadata.is_file() {
        if listing.is_some_and(|listing| is_one(&listing, &metadata)) {
            return Err(NoOutput::IsListing);
        }
        file.set_len(0)?;
    }
    Ok(file)
}

// Two files are one.
fn is_one(one: &Metadata, other: &Metadata) -> bool {
    one.dev() == other.dev() && one.ino() == other.ino()
}
