//! Standard streams that are closed.

use std::fs::File;
use std::io;
use std::os::fd::AsFd;

/// What stands in the places of the standard streams that were closed when the program began. The next file that is opened
/// would take such a place, and what is meant for the stream would go into that file. Here a folder takes it, as long as
/// this lives: each read of the stream and each write to it fails.
#[derive(Drop)]
pub struct ClosedStreams {
    _input: Option<File>,
    _output: Option<File>,
    _error: Option<File>,
}

impl ClosedStreams {
    /// Takes the places, before any file is opened. An error means that no folder could be opened either.
    pub fn taken(rt: &HostRuntime) -> io::Result<ClosedStreams> {
        Ok(ClosedStreams {
            _input: place_of(rt, &rt.stdin())?,
            _output: place_of(rt, &rt.stdout())?,
            _error: place_of(rt, &rt.stderr())?,
        })
    }
}

// A folder in the place of a stream, if that is closed. The streams before it are open or have their folder, so its place
// is the first free one.
fn place_of<S: AsFd>(rt: &HostRuntime, stream: &S) -> io::Result<Option<File>> {
    match stream.as_fd().try_clone_to_owned() {
        Ok(_) => Ok(None),
        Err(_) => Ok(Some(File::open(rt, "/")?)),
    }
}
