ghost use Rattle.std.specs.Prelude.{◌≡◌, ◌≢◌, ◌⊎◌, ◌≤◌, ◌<◌, ◌+◌, ◌-◌, ℕ, List, [], ◌++◌, length, take, drop, slice_index, slice_range, Option, Some, None, MatchOption, IfOk, IfErr, OnOk, OnErr, IsErrOf, vec_len};
ghost use Rattle.sdb_script.specs.Grammar.{most_in_line};
ghost use Rattle.sdb_serve.specs.Marks.{Reached};
ghost use Rattle.sdb_serve.specs.Runs.{BeginsWith, HasNoLineFeed, Run, most_taken};
ghost use Rattle.sdb_serve.specs.inner.Steps.{CountsDisk, CountsWhere, GoesOn, Halts, IsAt, LineAnswered, LineStops, PieceAnswered};
ghost use Rattle.sdb_serve.specs.inner.Stores.{Represents};

use crate::cause::{Cause, Stop};
use crate::session::Session;
use pdb_disk::Disk;
use sdb_io::{Sink, Source};
use sdb_script::MOST_IN_LINE;
use std::alloc::{AllocError, Global};

// The source is asked for so many bytes at a time.
const CHUNK: usize = 65536;

/// The place of the first line feed from `from` on.
fn line_feed(bytes: &[u8], from: usize) -> Option<usize>
    requires { from ≤ length bytes.now }
    ensures { MatchOption result (HasNoLineFeed (drop from bytes.now)) (λ at. (from ≤ at) × (at < length bytes.now)
        × (slice_index bytes.now at ≡ 10) × HasNoLineFeed (slice_range bytes.now from at)) }
{
    let at = bytes[from..].iter().position(|b| *b == b'\n')?;
    Some(from + at)
}

/// Answers one line, and writes its reply by one call of the sink. A line without a reply writes nothing.
fn answer_line<K: Sink, D: Disk + Drop>(
    session: &mut Session<D>,
    line: &[u8],
    text: &mut Vec<u8>,
    sink: &mut K,
) -> Result<(), Stop>
    ensures answered { (given : D) (a : Reached) → Represents D.tells D.clock D.past given session.old a
        → OnOk result (LineAnswered D.tells D.clock D.past given a line.now session.new (K.got sink.old) (K.got sink.new)) }
    ensures stopped { (given : D) (r : Run) (rest : List ℕ) → Represents D.tells D.clock D.past given session.old r.at
        → BeginsWith r.more line.now rest
        → IfErr result (λ stop. LineStops D.tells D.clock D.past given stop r session.new (K.got sink.old) (K.got sink.new)) }
    ensures disk { (given : D) → CountsDisk D.tells D.clock D.past given D.fault_count (IsErrOf result (Stop.Cause Cause.Disk)) session.old session.new }
    ensures lines { OnOk result (session.new.lines ≡ session.old.lines + 1) }
    // A reply at which the sink failed is counted; nothing uses the count then.
    ensures same_lines { IfErr result (λ stop. stop ≢ Stop.SinkFault → session.new.lines ≡ session.old.lines) }
    ensures read { OnOk result (session.new.read ≡ session.old.read + (length line.now + 1)) }
    ensures counted { CountsWhere (IsErrOf result Stop.SinkFault) (K.fault_count sink.old) (K.fault_count sink.new) }
    ensures of_line { IfErr result (λ stop. (stop ≢ Stop.Cause Cause.Source) × (stop ≢ Stop.Cause Cause.End)) }
{
    session.play_line(line, text)?;
    let reply = text.as_slice();
    if !reply.is_empty() {
        sink.put(reply)?;
    }
    Ok(())
}

/// Answers the lines that are ended in a piece of the input, and says how many of its bytes that took. No line feed
/// is before `from`.
fn answer_lines<K: Sink, D: Disk + Drop>(
    session: &mut Session<D>,
    piece: &[u8],
    from: usize,
    text: &mut Vec<u8>,
    sink: &mut K,
) -> Result<usize, Stop>
    requires within { from ≤ length piece.now }
    requires near { (from ≤ most_in_line) × (length piece.now ≤ from + most_taken) }
    ensures answered { (given : D) (input rest : List ℕ) (r : Run) → HasNoLineFeed (take from piece.now)
        → IsAt D.tells D.clock D.past given r input session.old (piece.now ++ rest)
        → IfOk result (λ used. PieceAnswered D.tells D.clock D.past given used piece.now rest r input session.new (K.got sink.old) (K.got sink.new)) }
    ensures stopped { (given : D) (input rest : List ℕ) (r : Run) → HasNoLineFeed (take from piece.now)
        → IsAt D.tells D.clock D.past given r input session.old (piece.now ++ rest)
        → IfErr result (λ stop. Halts D.tells D.clock D.past given stop r input session.new (Some rest) (K.got sink.old) (K.got sink.new)) }
    ensures goes_on { (given : D) → OnOk result (GoesOn D.tells D.clock D.past given D.fault_count session.old session.new) }
    ensures disk { (given : D) → CountsDisk D.tells D.clock D.past given D.fault_count (IsErrOf result (Stop.Cause Cause.Disk)) session.old session.new }
    ensures none_left { HasNoLineFeed (take from piece.now) → IfOk result (λ used. HasNoLineFeed (drop used piece.now)) }
    ensures used { IfOk result (λ used. used ≤ length piece.now) }
    ensures read { IfOk result (λ used. session.new.read ≡ session.old.read + used) }
    ensures counted { CountsWhere (IsErrOf result Stop.SinkFault) (K.fault_count sink.old) (K.fault_count sink.new) }
    ensures of_line { IfErr result (λ stop. (stop ≢ Stop.Cause Cause.Source) × (stop ≢ Stop.Cause Cause.End)) }
{
    let mut start = 0;
    let mut seek = from;
    'lines: while let Some(end) = line_feed(piece, seek) {
        answer_line(session, &piece[start..end], text, sink)?;
        start = end + 1;
        seek = start;
    }
    Ok(start)
}

/// Reads the source to its end, and answers each line, until a cause or the sink stops it.
pub(crate) fn read_lines<S: Source, K: Sink, D: Disk + Drop>(
    alloc: Global,
    session: &mut Session<D>,
    source: &mut S,
    sink: &mut K,
) -> Stop
    ensures stopped { (given : D) (input : List ℕ) (r : Run) → S.left source.old ≡ Some input
        → IsAt D.tells D.clock D.past given r input session.old input
        → Halts D.tells D.clock D.past given result r input session.new (S.left source.new) (K.got sink.old) (K.got sink.new) }
    ensures disk { (given : D) → CountsDisk D.tells D.clock D.past given D.fault_count (result ≡ Stop.Cause Cause.Disk) session.old session.new }
    ensures to_its_end { (input : List ℕ) → S.left source.old ≡ Some input → result ≡ Stop.Cause Cause.End
        → S.left source.new ≡ Some [] }
    ensures source { CountsWhere (result ≡ Stop.Cause Cause.Source) (S.fault_count source.old) (S.fault_count source.new) }
    ensures sink { CountsWhere (result ≡ Stop.SinkFault) (K.fault_count sink.old) (K.fault_count sink.new) }
{
    let Ok(mut chunk) = zeros(alloc, CHUNK) else {
        return Stop::Cause(Cause::Memory);
    };
    let mut pending: Vec<u8> = Vec::new(alloc);
    let mut text = Vec::new(alloc);
    'chunks: loop {
        let from = pending.len();
        match read_more(source, &mut chunk, &mut pending) {
            Ok(0) => {
                if pending.len() == 0 {
                    return Stop::Cause(Cause::End);
                }
                return Stop::Cause(Cause::BadLine);
            }
            Ok(_) => {}
            Err(cause) => return Stop::Cause(cause),
        }
        let used = match answer_lines(session, &pending, from, &mut text, sink) {
            Ok(used) => used,
            Err(stop) => return stop,
        };
        drop_front(&mut pending, used);
        if pending.len() > MOST_IN_LINE {
            return Stop::Cause(Cause::BadLine);
        }
    }
}

/// Asks the source once, and puts what it gives after what is pending; 0 bytes are its end.
fn read_more<S: Source>(
    source: &mut S,
    chunk: &mut Vec<u8>,
    pending: &mut Vec<u8>,
) -> Result<usize, Cause>
    requires { 0 < vec_len chunk.old }
    ensures taken { (bytes : List ℕ) → S.left source.old ≡ Some bytes
        → IfOk result (λ n. (S.left source.new ≡ Some (drop n bytes))
        × (pending.new.items ≡ pending.old.items ++ take n bytes)) }
    ensures end { (bytes : List ℕ) → S.left source.old ≡ Some bytes → IfOk result (λ n. n ≡ 0 → bytes ≡ []) }
    ensures kept { OnOk result (take (vec_len pending.old) pending.new.items ≡ pending.old.items) }
    ensures len { IfOk result (λ n. (vec_len pending.new ≡ vec_len pending.old + n) × (n ≤ vec_len chunk.old)) }
    ensures room { vec_len chunk.new ≡ vec_len chunk.old }
    ensures cause { IfErr result (λ cause. (cause ≡ Cause.Source) ⊎ (cause ≡ Cause.Memory)) }
    ensures unread { (bytes : List ℕ) → S.left source.old ≡ Some bytes → IsErrOf result Cause.Source
        → S.left source.new ≡ Some bytes }
    // Where there is no memory, at most the chunk was taken.
    ensures lost { (bytes : List ℕ) → S.left source.old ≡ Some bytes → IsErrOf result Cause.Memory
        → (n : ℕ) × (n ≤ vec_len chunk.old) × (S.left source.new ≡ Some (drop n bytes)) }
    ensures counted { CountsWhere (IsErrOf result Cause.Source) (S.fault_count source.old) (S.fault_count source.new) }
{
    let count = match source.take(chunk.as_mut_slice()) {
        Ok(count) => count,
        Err(_) => return Err(Cause::Source),
    };
    match pending.extend_from_slice(&chunk[..count]) {
        Ok(()) => Ok(count),
        Err(_) => Err(Cause::Memory),
    }
}

fn zeros(alloc: Global, len: usize) -> Result<Vec<u8>, AllocError>
    ensures { IfOk result (λ v. length v.items ≡ len) }
{
    vec![in alloc; 0u8; len]
}

/// Drops the bytes before `used`. A line that comes in many pieces stays where it is until it is whole.
fn drop_front(bytes: &mut Vec<u8>, used: usize)
    requires { used ≤ vec_len bytes.old }
    ensures { bytes.new.items ≡ drop used bytes.old.items }
{
    if used == 0 {
        return;
    }
    let left = bytes.len() - used;
    bytes.copy_within(used.., 0);
    bytes.truncate(left);
}
