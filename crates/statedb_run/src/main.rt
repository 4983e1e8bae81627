//! The program: it hands its words, standard input, standard output and the files of the working folder to the top call, and ends
//! with the status as its exit code.
//!
//! The streams and the disk are those of `sdb_host`. Nothing can be said in a contract of a terminal, a pipe or a file, so a whole
//! run is tried by running it. The functions here say what the words are, what is written where there is no memory for them, and
//! which exit code a status has.
#![tactic(auto)]

ghost use Rattle.std.specs.Prelude.{◌≡◌, ◌⊎◌, true, false, List, ℕ, [], ◌∷◌, map, drop, string_bytes, IfOk};
ghost use Rattle.std.specs.Process.{exit_status};
ghost use Rattle.std.specs.Vec.Iter.{into_iter_items};
ghost use Rattle.sdb_io.specs.Faults.{CountsFault};
ghost use Rattle.sdb_io.specs.Output.{Gets, GetsPrefix};
ghost use Rattle.sdb_serve.specs.Runs.{last_line};
ghost use Rattle.sdb_serve.specs.Statuses.{status_code};

use sdb_base::{Bytes, OutOfMemory, Words};
use sdb_host::{HostDisk, Stdin, Stdout};
use sdb_io::Sink;
use sdb_serve::{Cause, Status, run};
use std::alloc::{AllocError, Global};
use std::env::Args;
use std::io::ErrorKind;
use std::process::ExitCode;
use std::{env, io};

/// The arguments after the program's name.
fn words_of(alloc: Global, args: Args) -> Result<Words, OutOfMemory>
    ensures { IfOk result (λ words. words ≡ drop 1 (map string_bytes (into_iter_items args))) }
{
    let mut words = Words::new(alloc);
    let mut args = args;
    let _name = args.next();
    for word in args {
        words.push(Bytes::from_slice(alloc, word.as_bytes())?)?;
    }
    Ok(words)
}

/// The words after the program's name. Words that aren't text are no list of the table, as no words are.
fn words(rt: &HostRuntime, alloc: Global) -> Result<Words, OutOfMemory> {
    match env::args(rt) {
        Ok(args) => words_of(alloc, args),
        Err(e) if e.kind() == ErrorKind::OutOfMemory => Err(AllocError),
        Err(_) => Ok(Words::new(alloc)),
    }
}

fn main(rt: HostRuntime) -> ExitCode {
    let alloc = rt.alloc();
    let mut source = Stdin::new(rt.reader());
    let mut sink = Stdout::new(io::writer(&rt));
    let status = match words(&rt, alloc) {
        Ok(words) => {
            let disk = HostDisk::new(alloc, rt);
            run(alloc, &words, &mut source, &mut sink, disk).status
        }
        Err(_) => close_without_memory(&mut sink),
    };
    exit_code(status)
}

/// The exit code of a status.
fn exit_code(status: Status) -> ExitCode
    ensures { exit_status result ≡ status_code status }
{
    ExitCode::from(status.code())
}

/// Where there is no memory for the words, the last line is that of want of memory, as it is in a run.
fn close_without_memory<K: Sink>(sink: &mut K) -> Status
    ensures written { ((result ≡ Status.NoMemory) × CountsFault false (K.fault_count sink.old) (K.fault_count sink.new)
        × Gets (K.got sink.old) (K.got sink.new) (last_line Cause.Memory 0))
        ⊎ ((result ≡ Status.SinkFault) × CountsFault true (K.fault_count sink.old) (K.fault_count sink.new)
        × (line : List ℕ) × (last_line Cause.Memory 0 ≡ line ∷ []) × GetsPrefix (K.got sink.old) (K.got sink.new) [] line) }
{
    match sink.put(b"stop 11\n") {
        Ok(()) => Status::NoMemory,
        Err(_) => Status::SinkFault,
    }
}
