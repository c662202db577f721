//! Grades of tables.
use crate::asked::{Asked, Wanted};
use crate::log::{Ended, LEGAL, REFUSED, UNREAD};
use crate::stages::{misread_text, too_long, whole};
use counted_io::Fault;
use grading::{Grade, Limits, Terms};
use instructions::Program;
use sheets::{Trouble, Within, sheet_in};
use std::alloc::{AllocError, Global};
use std::io::Read;

fn grade_of(
    alloc: Global,
    program: &Program,
    asked: &Asked<'_>,
    bytes: &[u8],
) -> Result<Grade, Trouble> {
    let within = asked.within.unwrap_or(Within::Strict);
    let sheet = sheet_in(alloc, program, bytes, asked.issue, within)?;
    let terms = Terms {
        within,
        ring: asked.ring,
        queue: asked.queue,
        limits: Limits {
            lets: asked.lets,
            begins: asked.begins,
            results: asked.results,
            commits: asked.commits,
            latencies: asked.latencies.as_slice(),
            units: asked.units.as_slice(),
        },
    };
    Ok(grading::graded(alloc, program, &sheet, &terms)?)
}

// A table that is not read has no grade: the text says why.
fn ungraded(alloc: Global, asked: &Asked<'_>, file: &str, why: &str) -> Result<Ended, AllocError> {
    let text = match asked.wanted {
        Wanted::GradesAsCells => format!(in alloc; "{file}\t\t\t\t\t\t\t{why}")?,
        _ => headed(alloc, asked, file, why)?,
    };
    Ok(Ended {
        text,
        status: UNREAD,
    })
}

// A text below the name of its file, where there are several.
fn headed(alloc: Global, asked: &Asked<'_>, file: &str, text: &str) -> Result<String, AllocError> {
    if asked.logs.len() > 1 {
        format!(in alloc; "{file}:\n{text}")
    } else {
        String::from_str(alloc, text)
    }
}

fn told(alloc: Global, asked: &Asked<'_>, file: &str, grade: &Grade) -> Result<Ended, AllocError> {
    let text = match asked.wanted {
        Wanted::GradesAsCells => grade.tsv(alloc, file)?,
        _ => headed(alloc, asked, file, grade.text(alloc)?.as_str())?,
    };
    let status = if grade.is_right() { LEGAL } else { REFUSED };
    Ok(Ended { text, status })
}

/// The grade of the table of a reader, which is a file with this name.
pub fn graded<R: Read + Drop>(
    alloc: Global,
    program: &Program,
    asked: &Asked<'_>,
    file: &str,
    log: R,
) -> Result<Ended, Fault> {
    let Some(bytes) = whole(alloc, log)? else {
        let why = too_long(alloc)?;
        return Ok(ungraded(alloc, asked, file, why.as_str())?);
    };
    match grade_of(alloc, program, asked, bytes.as_slice()) {
        Ok(grade) => Ok(told(alloc, asked, file, &grade)?),
        Err(Trouble::Memory) => Err(Fault::Memory),
        Err(Trouble::Misread(misread)) => {
            let why = misread_text(alloc, &misread)?;
            Ok(ungraded(alloc, asked, file, why.as_str())?)
        }
    }
}
