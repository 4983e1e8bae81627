ghost use Rattle.std.specs.Prelude.{◌≡◌, ◌++◌, codes, length, take, OnOk, OnErr};
ghost use Rattle.std.specs.Fmt.{decimal};
ghost use Rattle.sdb_script.specs.Texts as texts;
ghost use Rattle.sdb_script.specs.Texts.{bytes_text, grown_text, index_text, job_text, keys_text, logged_text, refusal_text, refused_text, stage_text};

use crate::line::LineReply;
use sdb_base::{Grown, Keys, Logged, OutOfMemory, StageAnswer};
use sdb_model::{Refusal, Reply};
use std::alloc::{AllocError, Global};

/// Appends the text of a reply, without a line feed. An `Err` leaves `out` as it was.
pub fn reply_text(alloc: Global, reply: &LineReply, out: &mut Vec<u8>) -> Result<(), OutOfMemory>
    ensures ok { OnOk result (out.new.items ≡ out.old.items ++ texts.reply_text reply.now) }
    ensures err { OnErr result (out.new.items ≡ out.old.items) }
{
    let before = out.len();
    let appended = append_reply(alloc, reply, out);
    if appended.is_err() {
        out.truncate(before);
    }
    appended
}

// The same, but that an `Err` may leave bytes after those that were there.
#[tactic(auto, unfolding(crate::specs::Texts::reply_text))]
fn append_reply(alloc: Global, reply: &LineReply, out: &mut Vec<u8>) -> Result<(), AllocError>
    ensures ok { OnOk result (out.new.items ≡ out.old.items ++ texts.reply_text reply.now) }
    ensures err { OnErr result (take (length out.old.items) out.new.items ≡ out.old.items) }
{
    match reply {
        LineReply::New => out.extend_from_slice(b"new"),
        LineReply::Genesis => out.extend_from_slice(b"genesis"),
        LineReply::Job(reply) => append_job(alloc, reply, out),
        LineReply::Stage(answer) => append_stage(alloc, *answer, out),
        LineReply::Refused(refusal) => append_refused(alloc, *refusal, out),
    }
}

fn append_job(alloc: Global, reply: &Reply, out: &mut Vec<u8>) -> Result<(), AllocError>
    ensures ok { OnOk result (out.new.items ≡ out.old.items ++ job_text reply.now) }
    ensures err { OnErr result (take (length out.old.items) out.new.items ≡ out.old.items) }
{
    match reply {
        Reply::Imported(number) => append_number(alloc, b"import ", *number, out),
        Reply::Value(value) => append_bytes(alloc, b"value ", value.as_slice(), out),
        Reply::Key(key) => append_bytes(alloc, b"next ", key.as_slice(), out),
        Reply::Nothing => out.extend_from_slice(b"none"),
        Reply::Listed(keys) => append_listed(alloc, keys, out),
        Reply::Root(root) => {
            let digits = hex::encode(alloc, root.0.as_slice())?;
            append_both(b"root ", digits.as_bytes(), out)
        }
        Reply::Refused(refusal) => append_refused(alloc, *refusal, out),
    }
}

// `list` and the keys.
fn append_listed(alloc: Global, keys: &Keys, out: &mut Vec<u8>) -> Result<(), AllocError>
    ensures ok { OnOk result (out.new.items ≡ out.old.items ++ (codes "list" ++ keys_text keys.now)) }
    ensures err { OnErr result (take (length out.old.items) out.new.items ≡ out.old.items) }
{
    out.extend_from_slice(b"list")?;
    for key in keys.as_slice() {
        append_bytes(alloc, b" ", key.as_slice(), out)?;
    }
    Ok(())
}

// What a stage answered.
fn append_stage(alloc: Global, answer: StageAnswer, out: &mut Vec<u8>) -> Result<(), AllocError>
    ensures ok { OnOk result (out.new.items ≡ out.old.items ++ stage_text answer) }
    ensures err { OnErr result (take (length out.old.items) out.new.items ≡ out.old.items) }
{
    match answer {
        StageAnswer::Logged(logged) => append_logged(alloc, logged, out),
        StageAnswer::Flushed(number) => append_number(alloc, b"flushed ", number, out),
        StageAnswer::Enacted(Some(number)) => append_number(alloc, b"enacted ", number, out),
        StageAnswer::Enacted(None) => out.extend_from_slice(b"idle"),
        StageAnswer::Cleaned(number) => append_number(alloc, b"cleaned ", number, out),
        StageAnswer::Grown(grown) => append_grown(alloc, grown, out),
    }
}

fn append_logged(alloc: Global, logged: Logged, out: &mut Vec<u8>) -> Result<(), AllocError>
    ensures ok { OnOk result (out.new.items ≡ out.old.items ++ logged_text logged) }
    ensures err { OnErr result (take (length out.old.items) out.new.items ≡ out.old.items) }
{
    match logged {
        Logged::Commit(number) => append_number(alloc, b"logged ", number, out),
        Logged::Started {
            column,
            bits,
            chunk,
        } => append_index(alloc, b"started ", column, bits, chunk, out),
        Logged::Moved { column, bits, left } => {
            append_index(alloc, b"moved ", column, bits, left, out)
        }
        Logged::Idle => out.extend_from_slice(b"idle"),
    }
}

fn append_grown(alloc: Global, grown: Grown, out: &mut Vec<u8>) -> Result<(), AllocError>
    ensures ok { OnOk result (out.new.items ≡ out.old.items ++ grown_text grown) }
    ensures err { OnErr result (take (length out.old.items) out.new.items ≡ out.old.items) }
{
    match grown {
        Grown::Moved { column, bits, left } => {
            append_index(alloc, b"moved ", column, bits, left, out)
        }
        Grown::Idle => out.extend_from_slice(b"idle"),
    }
}

// The front, and then a column, the bits of its index and a number, with one space between.
fn append_index(
    alloc: Global,
    front: &[u8],
    column: u8,
    bits: u8,
    number: u64,
    out: &mut Vec<u8>,
) -> Result<(), AllocError>
    ensures ok { OnOk result (out.new.items ≡ out.old.items ++ (front.now ++ index_text column bits number)) }
    ensures err { OnErr result (take (length out.old.items) out.new.items ≡ out.old.items) }
{
    append_number(alloc, front, u64::from(column), out)?;
    append_number(alloc, b" ", u64::from(bits), out)?;
    append_number(alloc, b" ", number, out)
}

fn append_refused(alloc: Global, refusal: Refusal, out: &mut Vec<u8>) -> Result<(), AllocError>
    ensures ok { OnOk result (out.new.items ≡ out.old.items ++ refused_text refusal) }
    ensures err { OnErr result (take (length out.old.items) out.new.items ≡ out.old.items) }
{
    out.extend_from_slice(b"refused ")?;
    append_refusal(alloc, refusal, out)
}

fn append_refusal(alloc: Global, refusal: Refusal, out: &mut Vec<u8>) -> Result<(), AllocError>
    ensures ok { OnOk result (out.new.items ≡ out.old.items ++ refusal_text refusal) }
    ensures err { OnErr result (take (length out.old.items) out.new.items ≡ out.old.items) }
{
    match refusal {
        Refusal::UnknownBlock => out.extend_from_slice(b"1 UnknownBlock"),
        Refusal::AlreadyExists => out.extend_from_slice(b"3 AlreadyExists"),
        Refusal::UnknownParent => out.extend_from_slice(b"4 UnknownParent"),
        Refusal::TooManySiblings { number } => {
            append_number(alloc, b"6 TooManySiblings ", number, out)
        }
        Refusal::HasGenesis => out.extend_from_slice(b"9 HasGenesis"),
        Refusal::NoGenesis => out.extend_from_slice(b"10 NoGenesis"),
    }
}

// The front, and the number's decimal digits.
fn append_number(
    alloc: Global,
    front: &[u8],
    number: u64,
    out: &mut Vec<u8>,
) -> Result<(), AllocError>
    ensures ok { OnOk result (out.new.items ≡ out.old.items ++ (front.now ++ decimal number)) }
    ensures err { OnErr result (take (length out.old.items) out.new.items ≡ out.old.items) }
{
    let digits = number.to_string(alloc)?;
    append_both(front, digits.as_bytes(), out)
}

// The front, and two digits for each byte or `-` for no bytes.
fn append_bytes(
    alloc: Global,
    front: &[u8],
    bytes: &[u8],
    out: &mut Vec<u8>,
) -> Result<(), AllocError>
    ensures ok { OnOk result (out.new.items ≡ out.old.items ++ (front.now ++ bytes_text bytes.now)) }
    ensures err { OnErr result (take (length out.old.items) out.new.items ≡ out.old.items) }
{
    if bytes.is_empty() {
        return append_both(front, b"-", out);
    }
    let digits = hex::encode(alloc, bytes)?;
    append_both(front, digits.as_bytes(), out)
}

// Both parts, one after the other.
fn append_both(front: &[u8], back: &[u8], out: &mut Vec<u8>) -> Result<(), AllocError>
    ensures ok { OnOk result (out.new.items ≡ out.old.items ++ (front.now ++ back.now)) }
    ensures err { OnErr result (take (length out.old.items) out.new.items ≡ out.old.items) }
{
    out.extend_from_slice(front)?;
    out.extend_from_slice(back)
}
