//! Tells on standard error how far a run is.
use command_line::Progress;
use pool::Tally;
use std::io::IsTerminal;
use std::sync::atomic::AtomicU64;
use std::sync::atomic::Ordering::SeqCst;
use std::time::Instant;

// No tenth of a second was told of yet.
const NEVER: u64 = u64::MAX;

// Takes a terminal's cursor to the start of the line above, which is then written over.
const UP: &str = "\u{1b}[A\r";

/// Tells each tally in a line of its own. On a terminal there is one line with
/// the three numbers that tell most, which has room in 80 columns and is written over at most ten times a
/// second; the cursor stands below it, where the report or the next message begins.
#[derive(Drop)]
pub(crate) struct Teller<'a> {
    rt: &'a HostRuntime,
    // when it began to write a terminal's line
    began: Option<Instant>,
    // the tenth of a second in which that line was written last
    last: AtomicU64,
}

impl<'a> Teller<'a> {
    pub(crate) fn new(rt: &'a HostRuntime) -> Teller<'a> {
        let is_terminal = rt.stderr().is_terminal();
        Teller {
            rt,
            began: if is_terminal {
                Instant::now(rt).ok()
            } else {
                None
            },
            last: AtomicU64::new(NEVER),
        }
    }

    // Where the terminal's line is to be written, if this is the first time in its tenth of a second.
    fn due(&self, began: &Instant) -> Option<&'static str> {
        let gone = began.elapsed(self.rt).ok()?;
        let tenths = (gone.subsec_millis() / 100) as u64;
        let now = gone.as_secs().wrapping_mul(10).wrapping_add(tenths);
        match self.last.swap(now, SeqCst) {
            NEVER => Some(""),
            last if last != now => Some(UP),
            _ => None,
        }
    }

    /// Tells a tally. A failure to print changes nothing.
    pub(crate) fn tell(&self, tally: &Tally) {
        let Some(began) = &self.began else {
            let progress = Progress { tally: *tally };
            let _ = eprintln!(self.rt; "{progress}");
            return;
        };
        if let Some(at) = self.due(began) {
            let Tally {
                retires,
                lets,
                mends,
                ..
            } = *tally;
            let _ = eprintln!(self.rt; "{at}progress retires {retires} lets {lets} mends {mends}");
        }
    }
}
