//! A log that is read line by line.
use crate::misread::Trouble;
use lexical::next_line;

/// What is made of a log, line by line.
pub(crate) trait ReadsLines {
    fn read_line(&mut self, number: u64, text: &[u8]) -> Result<(), Trouble>;
}

/// Reads each line of a log, of which the first has the number 1.
pub(crate) fn read_lines<R: ReadsLines>(reading: &mut R, bytes: &[u8]) -> Result<(), Trouble> {
    let mut rest = Some(bytes);
    for number in 1..u64::MAX {
        let Some(text) = rest else {
            break;
        };
        let (line, after) = next_line(text);
        reading.read_line(number, line)?;
        rest = after;
    }
    Ok(())
}
