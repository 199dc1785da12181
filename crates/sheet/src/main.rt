// sheet FILE: reads a bench file once, to its end or until `is_refused` says so, and then prints a sheet for each entry, in
// order; or `refused 10`, where the file is broken in any way. This file only reads, steps and writes: what is printed is
// `sheets_of` of the bytes read (crates/report/specs/Printed.antt).
#![tactic(auto)]

ghost use Rattle.std.specs.Prelude.{◌≡◌};

mod progress;

use progress::Progress;
use report::Report;
use std::env::Args;
use std::fs::{File, Files};
use std::io::{IsTerminal, Read, Write};
use std::{env, io};

// So many bytes are read at once.
const READ: usize = 65536;

// Says in one line on standard error what failed, and why. Where that can't be written either, nothing is said.
fn fail(stderr: &mut impl Write, what: &str, error: &io::Error) {
    let _ = writeln!(stderr, "{what}: {error}");
}

// Prints what the file comes to.
fn print(report: &Report, stdout: &mut impl Write) -> io::Result<()> {
    stdout.write_all(report.text().as_bytes())
}

// Reads the file to its end, or until its report is refused already. The count of bytes proves that the loop ends; a
// file with more bytes is refused by then (`long-refused` of report).
fn read_all(
    file: &mut impl Read,
    progress: &mut Progress,
    stderr: &mut impl Write,
) -> io::Result<Report>
    requires { progress.old.done ≡ 0 }
{
    let mut buf = [0u8; READ];
    let mut report = Report::fresh();
    // Kept: a `while`, since a read gives any number of bytes: a `for` would count reads, and `is_too_long` counts bytes.
    while !report.is_refused() && !report::is_too_long(progress.done) {
        let n = file.read(&mut buf)?;
        if n == 0 {
            break;
        }
        report.take(&buf[..n]);
        progress.advance(stderr, n, report.length);
    }
    Ok(report)
}

// Reads the file, and says meanwhile how far it is read.
fn read_file(file: &mut impl Read, stderr: &mut (impl Write + IsTerminal)) -> io::Result<Report> {
    let mut progress = Progress::new(stderr);
    let report = read_all(file, &mut progress, stderr);
    progress.over(stderr);
    report
}

// The report of a file by its name.
fn report_of(
    files: &impl Files,
    path: &str,
    stderr: &mut (impl Write + IsTerminal),
) -> io::Result<Report> {
    let mut file = File::open(files, path)?;
    read_file(&mut file, stderr)
}

// Prints the sheets of a file. Nothing is printed before the file is read.
fn sheets(
    files: &impl Files,
    path: &str,
    stdout: &mut impl Write,
    stderr: &mut (impl Write + IsTerminal),
) {
    match report_of(files, path, stderr) {
        Ok(report) => {
            if let Err(e) = print(&report, stdout) {
                fail(stderr, "sheet: standard output", &e);
            }
        }
        Err(e) => fail(stderr, path, &e),
    }
}

// The one argument; none, where there are fewer or more.
fn only_argument(mut args: Args) -> Option<String> {
    args.next()?;
    let path = args.next()?;
    if args.next().is_some() {
        return None;
    }
    Some(path)
}

fn main(rt: HostRuntime) {
    let mut stderr = rt.stderr();
    match env::args(&rt) {
        Ok(args) => match only_argument(args) {
            Some(path) => sheets(&rt, path.as_str(), &mut rt.stdout(), &mut stderr),
            None => {
                let _ = writeln!(stderr, "usage: sheet FILE");
            }
        },
        Err(e) => fail(&mut stderr, "sheet: the file's name", &e),
    }
}
