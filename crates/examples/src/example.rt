//! Listings with the reports beside them.
use std::alloc::{AllocError, Global};
use std::{fs, io};

/// A listing, and the report that its run has to write.
#[derive(Drop)]
pub struct Example {
    pub name: String,
    pub listing: Vec<u8>,
    pub report: Vec<u8>,
}

/// How the first line of a listing begins that names options.
const COMMAND: &[u8] = b"# ruu run FILE ";

impl Example {
    /// Reads the listing of this name, and its report.
    pub fn read(rt: &HostRuntime, name: &str) -> io::Result<Example> {
        Ok(Example {
            name: name.to_string(rt.alloc())?,
            listing: read(rt, name, "s")?,
            report: read(rt, name, "report")?,
        })
    }

    /// The options that its first line names.
    pub fn options(&self, alloc: Global) -> io::Result<Vec<&str>> {
        let words = match self.listing.strip_prefix(COMMAND) {
            Some(rest) => first_line(rest),
            None => "",
        };
        Ok(words.split_whitespace().collect(alloc)?)
    }
}

// The text before the first line feed, where that is one.
fn first_line(text: &[u8]) -> &str {
    let end = text.iter().position(|byte| *byte == b'\n');
    str::from_utf8(&text[..end.unwrap_or(text.len())]).unwrap_or("")
}

fn read(rt: &HostRuntime, name: &str, kind: &str) -> io::Result<Vec<u8>> {
    let path = format!(in rt.alloc(); "{name}.{kind}")?;
    fs::read(rt, path.as_str())
}

/// The names of the listings of a folder in order, without what stands after the dot.
pub fn names(rt: &HostRuntime, folder: &str, begin: &str) -> io::Result<Vec<String>> {
    let mut names = unordered_names(rt, folder, begin)?;
    names.sort()?;
    Ok(names)
}

// The names of the listings of a folder, as the folder lists them.
fn unordered_names(rt: &HostRuntime, folder: &str, begin: &str) -> io::Result<Vec<String>> {
    let mut names = Vec::new(rt.alloc());
    for entry in fs::read_dir(rt, folder)? {
        push_name(rt.alloc(), &mut names, begin, entry?.file_name())?;
    }
    Ok(names)
}

// Appends the name of a file that is a listing, and nothing for another file.
fn push_name(
    alloc: Global,
    names: &mut Vec<String>,
    begin: &str,
    file: &str,
) -> Result<(), AllocError> {
    if let Some(name) = file.strip_suffix(".s") {
        names.push(format!(in alloc; "{begin}{name}")?)?;
    }
    Ok(())
}
