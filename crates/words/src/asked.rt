//! What a command line asks for.

pub const USAGE: &str = "\
Writes the machine words of a listing and of its data, one a line after its address

Usage: ruu words [OPTIONS] <FILE>

Arguments:
  <FILE>  The listing, one instruction a line, or - for standard input: see docs/LISTING.md

Options:
      --elf <OUT>  Write an executable to the file OUT in place of the words
  -h, --help       Print help
  -V, --version    Print version

Example: ruu words examples/sum.s

The text begins at 0x00400000, data memory at 0. An executable is an ELF32 file for little endian
MIPS. A MIPS has delay slots and a listing has none, so each branch and jump needs a nop after it,
as in what 'ruu listing FILE' writes; a line without one is named.

Exit status: 0 all was written, 2 a fault in the listing, or it has no executable, 3 a mistake on
the command line, 5 no memory, or a file could not be opened, read or written.
";

/// The version, and on a line of its own the kit by which it is proved: that of `ruu`.
pub const VERSION: &str = "ruu 1.0.0\nrattle-kit-13f logic dac8208d650f15bf\n";

/// Words that are asked for.
#[derive(Clone, Copy)]
pub struct Asked<'a> {
    /// The file of the listing.
    pub file: &'a str,
    /// The file that gets an executable, if one is wanted.
    pub elf: Option<&'a str>,
}

/// What the command line asks for.
pub enum Request<'a> {
    Help,
    Version,
    Words(Asked<'a>),
}

// What is known of the command line so far.
#[derive(Clone, Copy)]
struct Partial<'a> {
    file: Option<&'a str>,
    elf: Option<&'a str>,
    /// The next word is the file of the executable.
    waits: bool,
    /// Each further word is a file.
    names: bool,
}

const NO_FILE: &str = "--elf needs a file";

// With one more word.
fn with<'a>(so_far: Partial<'a>, word: &'a str) -> Result<Partial<'a>, &'static str> {
    if so_far.waits {
        return Ok(Partial {
            elf: Some(word),
            waits: false,
            ..so_far
        });
    }
    if !so_far.names && word == "--" {
        return Ok(Partial {
            names: true,
            ..so_far
        });
    }
    if !so_far.names && word.starts_with('-') && word != "-" {
        return with_option(so_far, word);
    }
    match so_far.file {
        Some(_) => Err("there is more than one FILE"),
        None => Ok(Partial {
            file: Some(word),
            ..so_far
        }),
    }
}

fn with_option<'a>(so_far: Partial<'a>, word: &'a str) -> Result<Partial<'a>, &'static str> {
    if so_far.elf.is_some() {
        return Err("there is more than one option");
    }
    if word == "--elf" {
        return Ok(Partial {
            waits: true,
            ..so_far
        });
    }
    match word.strip_prefix("--elf=") {
        Some(elf) => Ok(Partial {
            elf: Some(elf),
            ..so_far
        }),
        None => Err("the only option is --elf"),
    }
}

/// What the words ask for, of which the first two are the program's name and `words`; or what is wrong with them.
pub fn requested(words: &[String]) -> Result<Request<'_>, &'static str> {
    let mut so_far = Partial {
        file: None,
        elf: None,
        waits: false,
        names: false,
    };
    for word in words.iter().skip(2) {
        let word = word.as_str();
        match word {
            "-h" | "--help" if !so_far.names && !so_far.waits => return Ok(Request::Help),
            "-V" | "--version" if !so_far.names && !so_far.waits => return Ok(Request::Version),
            _ => so_far = with(so_far, word)?,
        }
    }
    if so_far.waits {
        return Err(NO_FILE);
    }
    let file = so_far.file.ok_or("there is no FILE")?;
    match so_far.elf {
        Some("" | "-") => Err(NO_FILE),
        Some(elf) if elf == file => Err("--elf names the file of the listing"),
        elf => Ok(Request::Words(Asked { file, elf })),
    }
}
