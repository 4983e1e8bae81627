ghost use Rattle.std.specs.Prelude.{◌≡◌, ◌≢◌, ◌⊎◌, ◌↔◌, ◌<◌, ◌^◌, ℕ, Bool, true, false, List, [], ◌∷◌, IsTrue, Some, IfOk, IsErr};
ghost use Rattle.sdb_io.specs.Faults.{CountsFault, Rose};
ghost use Rattle.sdb_io.specs.Output.{Gets, GetsPrefix};
ghost use Rattle.sdb_base.specs.declared.NodeHash.{NodeHash};
ghost use Rattle.sdb_serve.specs.Given.{given_disk};
ghost use Rattle.sdb_serve.specs.Runs.{FailsTwice, IsFirstBad, IsRunOf, IsScript, StoreStops, last_line, script_words, usage_line};
ghost use Rattle.sdb_serve.specs.inner.Steps.{CountsWhere, IsClosed, IsLastCause};

use crate::cause::{Cause, Stop};
use crate::outcome::{Marks, Outcome};
use crate::serve::read_lines;
use crate::session::Session;
use crate::status::Status;
use pdb_disk::Disk;
use sdb_base::{Counter, NodeHash, Words};
use sdb_io::{Sink, Source};
use std::alloc::{AllocError, Global};

/// Whether the words are the one word `script`.
fn is_script(words: &Words) -> bool
    ensures { IsTrue result ↔ (words.now ≡ script_words) }
{
    match words.as_slice() {
        [word] => word.as_slice() == b"script".as_slice(),
        _ => false,
    }
}

/// The last line for a bad line, where so many lines were answered.
fn stop_line(alloc: Global, lines: u64) -> Result<Vec<u8>, AllocError>
    requires { lines < 2 ^ 63 }
    ensures { IfOk result (λ text. last_line Cause.BadLine lines ≡ text.items ∷ []) }
{
    let number = lines + 1;
    let digits = number.to_string(alloc)?;
    let mut text = Vec::from_slice(alloc, b"stop 3 line ")?;
    text.extend_from_slice(digits.as_bytes())?;
    text.push(b'\n')?;
    Ok(text)
}

/// The last line for a node that is none.
fn node_line(alloc: Global, hash: &NodeHash) -> Result<Vec<u8>, AllocError>
    ensures { IfOk result (λ text. (n : ℕ) → last_line (Cause.BadNode hash.now) n ≡ text.items ∷ []) }
{
    let mut text = Vec::from_slice(alloc, b"stop 9 node ")?;
    text.extend_from_slice(hex::encode(alloc, &hash.0)?.as_bytes())?;
    text.push(b'\n')?;
    Ok(text)
}

/// The last line for a cell that breaks the rules.
fn cell_line(alloc: Global, file: u16, cell: u64) -> Result<Vec<u8>, AllocError>
    ensures { IfOk result (λ text. (n : ℕ) → last_line (Cause.BadCell file cell) n ≡ text.items ∷ []) }
{
    let text = format!(in alloc; "stop 9 cell {file} {cell}\n")?;
    Ok(text.into_bytes())
}

/// The last line for an index without room.
fn index_line(alloc: Global, column: u8, bits: u8, chunk: u64) -> Result<Vec<u8>, AllocError>
    ensures { IfOk result (λ text. (n : ℕ) → last_line (Cause.IndexFull column bits chunk) n ≡ text.items ∷ []) }
{
    let text = format!(in alloc; "stop 10 {column} {bits} {chunk}\n")?;
    Ok(text.into_bytes())
}

/// The last line for a value table without a slot.
fn tier_line(alloc: Global, column: u8, tier: u8) -> Result<Vec<u8>, AllocError>
    ensures { IfOk result (λ text. (n : ℕ) → last_line (Cause.TierFull column tier) n ≡ text.items ∷ []) }
{
    let text = format!(in alloc; "stop 12 {column} {tier}\n")?;
    Ok(text.into_bytes())
}

/// The last line for a counter at its end.
fn end_line(which: Counter) -> &'static [u8]
    ensures { (n : ℕ) → last_line (Cause.NumbersEnd which) n ≡ result.now ∷ [] }
{
    match which {
        Counter::Commits => b"stop 13 commits\n",
        Counter::Records => b"stop 13 records\n",
        Counter::Gates => b"stop 13 gates\n",
        Counter::LogBytes => b"stop 13 log\n",
    }
}

/// Writes the last line of a status, and answers the status; where the sink fails, it is that.
fn put_last<K: Sink>(sink: &mut K, status: Status, text: &[u8]) -> Status
    requires { status ≢ Status.SinkFault }
    ensures put { ((result ≡ status) × Gets (K.got sink.old) (K.got sink.new) (text.now ∷ []))
        ⊎ ((result ≡ Status.SinkFault) × GetsPrefix (K.got sink.old) (K.got sink.new) [] text.now) }
    ensures counted { CountsWhere (result ≡ Status.SinkFault) (K.fault_count sink.old) (K.fault_count sink.new) }
{
    match sink.put(text) {
        Ok(()) => status,
        Err(_) => Status::SinkFault,
    }
}

/// Writes a last line that took memory, and answers the status; where there was none, it is that.
fn put_made<K: Sink>(sink: &mut K, status: Status, made: Result<Vec<u8>, AllocError>) -> Status
    requires { status ≢ Status.SinkFault }
    ensures put { IfOk made (λ text. ((result ≡ status) × Gets (K.got sink.old) (K.got sink.new) (text.items ∷ []))
        ⊎ ((result ≡ Status.SinkFault) × GetsPrefix (K.got sink.old) (K.got sink.new) [] text.items)) }
    ensures memory { IsErr made → IsClosed Cause.Memory 0 result (K.got sink.old) (K.got sink.new) }
    ensures counted { CountsWhere (result ≡ Status.SinkFault) (K.fault_count sink.old) (K.fault_count sink.new) }
{
    match made {
        Ok(text) => put_last(sink, status, text.as_slice()),
        Err(_) => put_last(sink, Status::NoMemory, b"stop 11\n"),
    }
}

/// Writes the last line for a cause, where so many lines were answered. For want of memory to make it the cause is
/// that.
fn close<K: Sink>(alloc: Global, sink: &mut K, cause: Cause, lines: u64) -> Status
    requires few { lines < 2 ^ 63 }
    ensures closed { (last : Cause) × IsLastCause cause last × IsClosed last lines result (K.got sink.old) (K.got sink.new) }
    ensures counted { CountsWhere (result ≡ Status.SinkFault) (K.fault_count sink.old) (K.fault_count sink.new) }
{
    match cause {
        Cause::End => Status::Done,
        Cause::BadLine => put_made(sink, Status::Script, stop_line(alloc, lines)),
        Cause::Source => put_last(sink, Status::SourceFault, b"stop 4\n"),
        Cause::Memory => put_last(sink, Status::NoMemory, b"stop 11\n"),
        Cause::Disk => put_last(sink, Status::DiskFault, b"stop 6\n"),
        Cause::Occupied => put_last(sink, Status::Occupied, b"stop 8\n"),
        Cause::BadCell { file, cell } => {
            put_made(sink, Status::Damaged, cell_line(alloc, file, cell))
        }
        Cause::BadNode { hash } => put_made(sink, Status::Damaged, node_line(alloc, &hash)),
        Cause::IndexFull {
            column,
            bits,
            chunk,
        } => put_made(
            sink,
            Status::IndexFull,
            index_line(alloc, column, bits, chunk),
        ),
        Cause::TierFull { column, tier } => {
            put_made(sink, Status::TierFull, tier_line(alloc, column, tier))
        }
        Cause::NumbersEnd { which } => put_last(sink, Status::NumbersEnd, end_line(which)),
    }
}

/// Carries out the script of a source on a disk, and writes a reply line for each line to a sink, and then the last line of the
/// status.
fn run_script<S: Source, K: Sink, D: Disk + Drop>(
    alloc: Global,
    source: &mut S,
    sink: &mut K,
    disk: D,
) -> Outcome<D>
    ensures replies { (input : List ℕ) → S.left source.old ≡ Some input
        → IsRunOf (given_disk D.tells D.clock D.past disk) result.status input
        (record { left = S.left source.new; clock = D.clock result.disk; marks = result.marks }) (K.got sink.old) (K.got sink.new) }
    ensures done { (input : List ℕ) → S.left source.old ≡ Some input → result.status ≡ Status.Done
        → S.left source.new ≡ Some [] }
    ensures untouched { (input : List ℕ) → S.left source.old ≡ Some input → result.status ≡ Status.Occupied
        → (D.clock result.disk ≡ D.clock disk) × (D.past result.disk ≡ D.past disk) }
    ensures source { result.status ≢ Status.SinkFault
        → CountsWhere (result.status ≡ Status.SourceFault) (S.fault_count source.old) (S.fault_count source.new) }
    ensures one_source_fault { (failed : Bool) × CountsFault failed (S.fault_count source.old) (S.fault_count source.new) }
    ensures source_and_sink { (input : List ℕ) → S.left source.old ≡ Some input → result.status ≡ Status.SinkFault
        → CountsFault false (S.fault_count source.old) (S.fault_count source.new)
        ⊎ FailsTwice (given_disk D.tells D.clock D.past disk) Cause.Source input
        (record { left = S.left source.new; clock = D.clock result.disk; marks = result.marks }) (K.got sink.old) (K.got sink.new) }
    ensures disk { result.status ≢ Status.SinkFault
        → CountsWhere (result.status ≡ Status.DiskFault) (D.fault_count disk) (D.fault_count result.disk) }
    ensures one_disk_fault { (failed : Bool) × CountsFault failed (D.fault_count disk) (D.fault_count result.disk) }
    ensures disk_and_sink { (input : List ℕ) → S.left source.old ≡ Some input → result.status ≡ Status.SinkFault
        → CountsFault false (D.fault_count disk) (D.fault_count result.disk)
        ⊎ FailsTwice (given_disk D.tells D.clock D.past disk) Cause.Disk input
        (record { left = S.left source.new; clock = D.clock result.disk; marks = result.marks }) (K.got sink.old) (K.got sink.new) }
    ensures sink { CountsWhere (result.status ≡ Status.SinkFault) (K.fault_count sink.old) (K.fault_count sink.new) }
    ensures not_usage { result.status ≡ Status.Usage → ⊥ }
{
    let mut session = Session::new(alloc, disk);
    let status = match read_lines(alloc, &mut session, source, sink) {
        Stop::SinkFault => Status::SinkFault,
        Stop::Cause(cause) => close(alloc, sink, cause, session.lines()),
    };
    session.into_outcome(status)
}

/// Runs what the words ask for: the one word `script` alone reads a script from the source, carries it out on the disk and writes a
/// reply line for each of its lines to the sink. The status says how the run ended; the disk comes back with it, and a mark
/// for the line `new` and each `flush` that was answered.
pub fn run<S: Source, K: Sink, D: Disk + Drop>(
    alloc: Global,
    words: &Words,
    source: &mut S,
    sink: &mut K,
    disk: D,
) -> Outcome<D>
    // Usage comes exactly where the words aren't the one word, and nothing is read and the disk is as it was then; where the sink
    // fails at its last line, that is the status.
    ensures words { result.status ≡ Status.Usage → words.now ≢ script_words }
    ensures other_words { words.now ≢ script_words
        → ((result.status ≡ Status.Usage) × Gets (K.got sink.old) (K.got sink.new) (usage_line ∷ []))
        ⊎ ((result.status ≡ Status.SinkFault) × GetsPrefix (K.got sink.old) (K.got sink.new) [] usage_line) }
    ensures unread { words.now ≢ script_words → S.left source.new ≡ S.left source.old }
    ensures unused { words.now ≢ script_words → (result.disk ≡ disk) × (result.marks ≡ []) }

    // There are lines that were read and a run of them; the sink has got the reply lines of that run and the last line
    // of the status, each by one call, and nothing else. The marks are those of the run, with the disk's clock at their answers.
    ensures replies { words.now ≡ script_words → (input : List ℕ) → S.left source.old ≡ Some input
        → IsRunOf (given_disk D.tells D.clock D.past disk) result.status input
        (record { left = S.left source.new; clock = D.clock result.disk; marks = result.marks }) (K.got sink.old) (K.got sink.new) }

    // The source was read to its end.
    ensures done { (input : List ℕ) → S.left source.old ≡ Some input → result.status ≡ Status.Done
        → S.left source.new ≡ Some [] }

    // A disk that has a database isn't touched by `new`.
    ensures untouched { (input : List ℕ) → S.left source.old ≡ Some input → result.status ≡ Status.Occupied
        → (D.clock result.disk ≡ D.clock disk) × (D.past result.disk ≡ D.past disk) }

    // The run stops at its first fault: a count of faults rises by one for the status that names it, and else none
    // rises; but where the sink fails at the last line for a fault of the source or of the disk, both rise.
    ensures source { result.status ≡ Status.SourceFault → CountsFault true (S.fault_count source.old) (S.fault_count source.new) }
    ensures sink { result.status ≡ Status.SinkFault → CountsFault true (K.fault_count sink.old) (K.fault_count sink.new) }
    ensures disk { result.status ≡ Status.DiskFault → CountsFault true (D.fault_count disk) (D.fault_count result.disk) }
    ensures no_source_fault { result.status ≢ Status.SourceFault → result.status ≢ Status.SinkFault
        → CountsFault false (S.fault_count source.old) (S.fault_count source.new) }
    ensures no_sink_fault { result.status ≢ Status.SinkFault → CountsFault false (K.fault_count sink.old) (K.fault_count sink.new) }
    ensures no_disk_fault { result.status ≢ Status.DiskFault → result.status ≢ Status.SinkFault
        → CountsFault false (D.fault_count disk) (D.fault_count result.disk) }
    ensures one_source_fault { (failed : Bool) × CountsFault failed (S.fault_count source.old) (S.fault_count source.new) }
    ensures one_disk_fault { (failed : Bool) × CountsFault failed (D.fault_count disk) (D.fault_count result.disk) }
    ensures source_and_sink { words.now ≡ script_words → (input : List ℕ) → S.left source.old ≡ Some input
        → result.status ≡ Status.SinkFault
        → CountsFault false (S.fault_count source.old) (S.fault_count source.new)
        ⊎ FailsTwice (given_disk D.tells D.clock D.past disk) Cause.Source input
        (record { left = S.left source.new; clock = D.clock result.disk; marks = result.marks }) (K.got sink.old) (K.got sink.new) }
    ensures disk_and_sink { words.now ≡ script_words → (input : List ℕ) → S.left source.old ≡ Some input
        → result.status ≡ Status.SinkFault
        → CountsFault false (D.fault_count disk) (D.fault_count result.disk)
        ⊎ FailsTwice (given_disk D.tells D.clock D.past disk) Cause.Disk input
        (record { left = S.left source.new; clock = D.clock result.disk; marks = result.marks }) (K.got sink.old) (K.got sink.new) }

    // Where no count rose, a script is answered whole, and any other input up to its first bad line, whose number the
    // last line then names, unless memory ran out or the store stops the run.
    ensures completeness { (input : List ℕ) → words.now ≡ script_words → S.left source.old ≡ Some input
        → IsScript (given_disk D.tells D.clock D.past disk) input
        → ¬ Rose (S.fault_count source.old) (S.fault_count source.new)
        → ¬ Rose (K.fault_count sink.old) (K.fault_count sink.new)
        → ¬ Rose (D.fault_count disk) (D.fault_count result.disk)
        → (result.status ≡ Status.Done) ⊎ ((result.status ≡ Status.NoMemory)
        ⊎ StoreStops (given_disk D.tells D.clock D.past disk) result.status input (S.left source.new)) }
    ensures bad_line { (input : List ℕ) (n : ℕ) → words.now ≡ script_words → S.left source.old ≡ Some input
        → IsFirstBad (given_disk D.tells D.clock D.past disk) input n
        → ¬ Rose (S.fault_count source.old) (S.fault_count source.new)
        → ¬ Rose (K.fault_count sink.old) (K.fault_count sink.new)
        → ¬ Rose (D.fault_count disk) (D.fault_count result.disk)
        → (result.status ≡ Status.Script) ⊎ ((result.status ≡ Status.NoMemory)
        ⊎ StoreStops (given_disk D.tells D.clock D.past disk) result.status input (S.left source.new)) }
{
    if is_script(words) {
        run_script(alloc, source, sink, disk)
    } else {
        Outcome {
            status: put_last(sink, Status::Usage, b"stop 2\n"),
            disk,
            marks: Marks::new(alloc),
        }
    }
}
