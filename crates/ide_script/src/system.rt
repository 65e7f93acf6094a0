//! The program over the command line, the standard streams and the current folder.
ghost use Rattle.std.specs.Prelude.{IfErr};
ghost use Rattle.ide_script.specs.Run.{WordsEnd};

use crate::Status;
use crate::entry::run_process;
use ide_io::{FolderTree, StderrSink, StdinSource, StdoutSink};
use std::io::Stderr;
use std::process::ExitCode;
use std::rt::{Env, Files};
use std::sync::Wait;
use std::thread::Threads;
use std::{env, io};

/// Plays the script of standard input, writes its transcript to standard output, and the line of a status other than
/// `Done` to standard error. May block.
pub fn start<R: AllocGlobal + Env + Files + Input + Print + Threads + Wait + Sync>(
    rt: &R,
    stderr: &Stderr,
) -> ExitCode {
    run_process(
        rt,
        rt.alloc(),
        words(rt),
        &mut StdinSource::<R>::new(rt.reader()),
        &mut FolderTree::new(rt),
        &mut StdoutSink::new(io::writer(rt)),
        &mut StderrSink::new(io::writer(stderr)),
    )
}

/// The words of the command line. A word that isn't UTF-8 is a faulty command line.
fn words<R: AllocGlobal + Env>(rt: &R) -> Result<Vec<String>, Status>
    ensures { IfErr result WordsEnd }
{
    match env::args(rt) {
        Ok(given) => given.collect(rt.alloc()).map_err(|_| Status::OutOfMemory),
        Err(error) if error.kind() == io::ErrorKind::InvalidData => Err(Status::Usage),
        Err(_) => Err(Status::OutOfMemory),
    }
}
