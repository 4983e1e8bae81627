use sdb_base::{Bytes, Grown, Keys, Logged, NodeHash, StageAnswer};
use sdb_model::{Refusal, Reply};
use sdb_script::{LineReply, reply_text};
use std::alloc::{AllocError, Global};
use std::test::*;

fn text_of(alloc: Global, reply: LineReply) -> Result<Vec<u8>, AllocError> {
    let mut out = Vec::from_slice(alloc, b"> ")?;
    reply_text(alloc, &reply, &mut out)?;
    Ok(out)
}

#[test]
fn replies(rt: HostRuntime) -> Result<(), Fail> {
    let alloc = rt.alloc();
    let bytes = Bytes::from_slice(alloc, b"\x00\x1f\xab")?;
    let key = Bytes::from_slice(alloc, b"\x0a\xf0")?;
    for (reply, want) in [
        (LineReply::New, "> new"),
        (LineReply::Genesis, "> genesis"),
        (LineReply::Job(Reply::Imported(0)), "> import 0"),
        (
            LineReply::Job(Reply::Imported(18446744073709551615)),
            "> import 18446744073709551615",
        ),
        (LineReply::Job(Reply::Value(bytes)), "> value 001fab"),
        (LineReply::Job(Reply::Value(Bytes::new(alloc))), "> value -"),
        (LineReply::Job(Reply::Key(key)), "> next 0af0"),
        (LineReply::Job(Reply::Key(Bytes::new(alloc))), "> next -"),
        (LineReply::Job(Reply::Nothing), "> none"),
        (
            LineReply::Job(Reply::Root(NodeHash([0xa0; 32]))),
            "> root a0a0a0a0a0a0a0a0a0a0a0a0a0a0a0a0a0a0a0a0a0a0a0a0a0a0a0a0a0a0a0a0",
        ),
    ] {
        let text = text_of(alloc, reply)?;
        assert_eq!(rt; text.as_slice(), want.as_bytes(), "{want}");
    }
    Ok(())
}

#[test]
fn answers_of_stages(rt: HostRuntime) -> Result<(), Fail> {
    for (answer, want) in [
        (StageAnswer::Logged(Logged::Commit(5)), "> logged 5"),
        (
            StageAnswer::Logged(Logged::Started {
                column: 0,
                bits: 1,
                chunk: 16,
            }),
            "> started 0 1 16",
        ),
        (
            StageAnswer::Logged(Logged::Moved {
                column: 1,
                bits: 30,
                left: 1_073_741_823,
            }),
            "> moved 1 30 1073741823",
        ),
        (StageAnswer::Logged(Logged::Idle), "> idle"),
        (StageAnswer::Flushed(0), "> flushed 0"),
        (StageAnswer::Enacted(Some(12)), "> enacted 12"),
        (StageAnswer::Enacted(None), "> idle"),
        (
            StageAnswer::Cleaned(18_446_744_073_709_551_615),
            "> cleaned 18446744073709551615",
        ),
        (
            StageAnswer::Grown(Grown::Moved {
                column: 0,
                bits: 2,
                left: 0,
            }),
            "> moved 0 2 0",
        ),
        (StageAnswer::Grown(Grown::Idle), "> idle"),
    ] {
        let text = text_of(rt.alloc(), LineReply::Stage(answer))?;
        assert_eq!(rt; text.as_slice(), want.as_bytes(), "{want}");
    }
    Ok(())
}

#[test]
fn refusals(rt: HostRuntime) -> Result<(), Fail> {
    let alloc = rt.alloc();
    for (refusal, want) in [
        (Refusal::UnknownBlock, "> refused 1 UnknownBlock"),
        (Refusal::AlreadyExists, "> refused 3 AlreadyExists"),
        (Refusal::UnknownParent, "> refused 4 UnknownParent"),
        (
            Refusal::TooManySiblings { number: 40 },
            "> refused 6 TooManySiblings 40",
        ),
        (Refusal::HasGenesis, "> refused 9 HasGenesis"),
        (Refusal::NoGenesis, "> refused 10 NoGenesis"),
    ] {
        let of_a_job = text_of(alloc, LineReply::Job(Reply::Refused(refusal)))?;
        assert_eq!(rt; of_a_job.as_slice(), want.as_bytes(), "{want}");
        let of_a_line = text_of(alloc, LineReply::Refused(refusal))?;
        assert_eq!(rt; of_a_line.as_slice(), want.as_bytes(), "{want}");
    }
    Ok(())
}

// Whether the reply to a list of these keys has this text.
fn is_listed(alloc: Global, keys: &[&[u8]], want: &[u8]) -> Result<bool, AllocError> {
    let mut listed = Keys::new(alloc);
    for key in keys {
        listed.push(Bytes::from_slice(alloc, *key)?)?;
    }
    let text = text_of(alloc, LineReply::Job(Reply::Listed(listed)))?;
    Ok(text.as_slice() == want)
}

#[test]
fn lists_of_keys(rt: HostRuntime) -> Result<(), Fail> {
    let alloc = rt.alloc();
    assert!(rt; is_listed(alloc, &[], b"> list")?);
    assert!(rt; is_listed(alloc, &[b"\xab\x00"], b"> list ab00")?);
    assert!(rt; is_listed(alloc, &[b""], b"> list -")?);
    assert!(rt; is_listed(alloc, &[b"", b"\x00", b"\x00\xff"], b"> list - 00 00ff")?);
    Ok(())
}
