// Splits, checks and loads over standard input, files and standard output.
#![tactic(auto)]

use dpl_ext::{FileShelf, ReadSource, WriteSink, write_all};
use dpl_run::{Status, run};
use std::env;
use std::io::ErrorKind;
use std::process::ExitCode;

/// The end of a run that has no memory for its words.
fn no_memory(rt: &HostRuntime) -> ExitCode {
    let mut err = WriteSink::new(rt.stderr());
    let _ = write_all(&mut err, b"dpl: no memory\n");
    ExitCode::from(Status::NoMemory.code())
}

fn main(rt: HostRuntime) -> ExitCode {
    let mut words = Vec::new(rt.alloc());
    match env::args(&rt) {
        Ok(given) => {
            for word in given.skip(1) {
                if words.push(word).is_err() {
                    return no_memory(&rt);
                }
            }
        }
        // A word that is not UTF-8 is a wrong word, and no words at all are wrong words too.
        Err(error) if error.kind() == ErrorKind::InvalidData => {}
        Err(_) => return no_memory(&rt),
    }
    let mut layout = ReadSource::new(rt.stdin());
    let mut second = FileShelf::new(&rt, rt.alloc());
    let mut out = WriteSink::new(rt.stdout());
    let mut err = WriteSink::new(rt.stderr());
    let status = run(
        rt.alloc(),
        words.as_slice(),
        &mut layout,
        &mut second,
        &mut out,
        &mut err,
    );
    ExitCode::from(status.code())
}
