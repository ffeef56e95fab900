//! The files of rows that the arguments name: each is read and compared, and the report is written after
//! each.

use crate::halt::Halt;
use crate::report::Report;
use crate::rows::compare_rows;
use std::rt::{Env, Files};
use std::{env, fs};

/// The text of a file, or why there is none.
fn read<R: Files + AllocGlobal>(rt: &R, name: &str) -> Result<Result<String, &'static str>, Halt> {
    let bytes = match fs::read(rt, name) {
        Ok(bytes) => bytes,
        Err(error) => {
            return match Halt::from(error) {
                Halt::Memory => Err(Halt::Memory),
                Halt::Outside => Ok(Err("can't be read")),
            };
        }
    };
    match std::str::from_utf8(bytes.as_slice()) {
        Ok(text) => Ok(Ok(String::from_str(rt.alloc(), text)?)),
        Err(_) => Ok(Err("isn't UTF-8")),
    }
}

/// Compares the rows of a file, and adds to the report how many there were.
fn compare_file<R: Files + AllocGlobal>(
    rt: &R,
    name: &str,
    report: &mut Report,
) -> Result<(), Halt> {
    let (rows, differences) = (report.rows(), report.differences());
    let text = match read(rt, name)? {
        Ok(text) => text,
        Err(why) => return Ok(report.no_rows(name, why)?),
    };
    compare_rows(rt.alloc(), name, text.as_str(), report)?;
    let rows = report.rows().saturating_sub(rows);
    if rows == 0 {
        return Ok(report.no_rows(name, "has no row")?);
    }
    let differences = report.differences().saturating_sub(differences);
    Ok(report.count(name, rows, differences)?)
}

/// Writes what the report has, and empties it.
fn write<R: Print>(rt: &R, report: &mut Report) -> Result<(), Halt> {
    rt.write_all(report.as_str().as_bytes())?;
    report.clear();
    Ok(())
}

/// Writes what a report has, whose last line may be cut, and that memory ran out.
fn write_out_of_memory<R: Print>(rt: &R, report: &str) -> Result<(), Halt> {
    rt.write_all(report.as_bytes())?;
    if !report.is_empty() && !report.ends_with('\n') {
        rt.write_all(b"\n")?;
    }
    rt.write_all(b"out of memory\n")?;
    Ok(())
}

/// Compares the rows of all files that the arguments name.
fn compare_named<R: Files + Env + Print + AllocGlobal>(
    rt: &R,
    report: &mut Report,
) -> Result<(), Halt> {
    let mut names = env::args(rt)?;
    let _ = names.next();
    let mut is_named = false;
    for name in names {
        compare_file(rt, name.as_str(), report)?;
        write(rt, report)?;
        is_named = true;
    }
    if !is_named {
        report.no_rows("all", "no file of rows is named")?;
    }
    let (rows, differences) = (report.rows(), report.differences());
    report.count("all", rows, differences)?;
    write(rt, report)
}

/// Compares the rows of all files that the arguments name, and returns the exit status: 0 where nothing
/// differs, 1 where a row differs or a file has no rows to compare, 3 where the arguments can't be read or
/// the report can't be written, and 4 where memory ran out and nothing before differs.
pub(crate) fn compare_all<R: Files + Env + Print + AllocGlobal>(rt: &R) -> u8 {
    let mut report = Report::new(rt.alloc());
    let outcome = compare_named(rt, &mut report);
    if let Err(Halt::Memory) = outcome {
        let _ = write_out_of_memory(rt, report.as_str());
    }
    match outcome {
        Err(Halt::Outside) => 3,
        _ if report.differences() > 0 => 1,
        Err(Halt::Memory) => 4,
        Ok(()) => 0,
    }
}
