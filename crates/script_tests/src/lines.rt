use sdb_base::{BlockId, Bytes, Change};
use sdb_model::Task;
use sdb_script::{Line, LineFault, Stage, parse_line};
use std::alloc::{AllocError, Global};
use std::test::*;

fn id(last: [u8; 2]) -> BlockId {
    let mut bytes = [0; 32];
    bytes[30] = last[0];
    bytes[31] = last[1];
    BlockId(bytes)
}

fn is_change(change: &Change, key: &[u8], value: Option<&[u8]>) -> bool {
    let same = match (&change.value, value) {
        (None, None) => true,
        (Some(found), Some(wanted)) => found.as_slice() == wanted,
        _ => false,
    };
    change.trie.is_empty() && change.key.as_slice() == key && same
}

#[test]
fn blank_lines(rt: HostRuntime) {
    for text in ["", "#", "# new 1", "#\u{e9}"] {
        let line = parse_line(rt.alloc(), text.as_bytes());
        assert!(rt; matches!(line, Ok(Line::Blank)), "{text}");
    }
}

#[test]
fn new_lines(rt: HostRuntime) {
    for (text, want) in [("new 0", 0), ("new 7", 7), ("new 16", 16)] {
        let line = parse_line(rt.alloc(), text.as_bytes());
        assert!(rt;
            matches!(line, Ok(Line::New { base }) if base == want),
            "{text}"
        );
    }
}

#[test]
fn genesis_lines(rt: HostRuntime) -> Result<(), Fail> {
    for (text, want) in [("genesis 01 1", 1), ("genesis 01 4096", 4096)] {
        let Line::Genesis { window, block } = parse_line(rt.alloc(), text.as_bytes())? else {
            return Err(Fail::new("no genesis"));
        };
        assert_eq!(rt; window, want);
        assert_eq!(rt; block.id, id([0, 1]));
        assert_eq!(rt; block.parent, id([0, 0]));
        assert_eq!(rt; block.changes.len(), 0);
        assert_eq!(rt; block.version, 0);
    }
    Ok(())
}

#[test]
fn import_lines(rt: HostRuntime) -> Result<(), Fail> {
    let text = "import aBCd 02 Aa=01fF bb! -=- cc=-";
    let Line::Job {
        task: Task::Import(block),
    } = parse_line(rt.alloc(), text.as_bytes())?
    else {
        return Err(Fail::new("no import"));
    };
    assert_eq!(rt; block.id, id([0xab, 0xcd]));
    assert_eq!(rt; block.parent, id([0, 2]));
    assert_eq!(rt; block.changes.len(), 4);
    let [first, second, third, fourth] = block.changes.as_slice() else {
        return Err(Fail::new("not four changes"));
    };
    assert!(rt; is_change(first, b"\xaa", Some(b"\x01\xff")));
    assert!(rt; is_change(second, b"\xbb", None));
    assert!(rt; is_change(third, b"", Some(b"")));
    assert!(rt; is_change(fourth, b"\xcc", Some(b"")));
    Ok(())
}

#[test]
fn read_lines(rt: HostRuntime) -> Result<(), Fail> {
    let mut long = [0xee; 32];
    long[0] = 0x0f;
    for (text, want_id, want_key) in [
        ("read 01 aA", id([0, 1]), b"\xaa".as_slice()),
        ("read 0000 -", id([0, 0]), b"".as_slice()),
        (
            "read 0feeeeeeeeeeeeeeeeeeeeeeeeeeeeeeeeeeeeeeeeeeeeeeeeeeeeeeeeeeeeee 00fF10",
            BlockId(long),
            b"\x00\xff\x10".as_slice(),
        ),
    ] {
        let Line::Job {
            task: Task::Read { id, key },
        } = parse_line(rt.alloc(), text.as_bytes())?
        else {
            return Err(Fail::new(text));
        };
        assert_eq!(rt; id, want_id, "{text}");
        assert_eq!(rt; key.as_slice(), want_key, "{text}");
    }
    Ok(())
}

// The first word of a line that asks for a block's key after a key, or for its keys with a prefix, the block,
// and these bytes.
fn asked(line: Line) -> Option<(&'static str, BlockId, Bytes)> {
    match line {
        Line::Job {
            task: Task::Next { id, key },
        } => Some(("next", id, key)),
        Line::Job {
            task: Task::List { id, prefix },
        } => Some(("list", id, prefix)),
        _ => None,
    }
}

#[test]
fn next_and_list_lines(rt: HostRuntime) -> Result<(), Fail> {
    for (text, want_word, want_id, want_bytes) in [
        ("next 01 aA", "next", id([0, 1]), b"\xaa".as_slice()),
        ("next 0000 -", "next", id([0, 0]), b"".as_slice()),
        ("next aBCd 00", "next", id([0xab, 0xcd]), b"\x00".as_slice()),
        ("list 01 aA", "list", id([0, 1]), b"\xaa".as_slice()),
        ("list 0000 -", "list", id([0, 0]), b"".as_slice()),
        (
            "list aBCd 00fF10",
            "list",
            id([0xab, 0xcd]),
            b"\x00\xff\x10".as_slice(),
        ),
    ] {
        let line = parse_line(rt.alloc(), text.as_bytes())?;
        let Some((word, id, bytes)) = asked(line) else {
            return Err(Fail::new(text));
        };
        assert_eq!(rt; word, want_word, "{text}");
        assert_eq!(rt; id, want_id, "{text}");
        assert_eq!(rt; bytes.as_slice(), want_bytes, "{text}");
    }
    Ok(())
}

#[test]
fn root_lines(rt: HostRuntime) -> Result<(), Fail> {
    for (text, want) in [("root 01", [0, 1]), ("root aBCd", [0xab, 0xcd])] {
        let Line::Job {
            task: Task::Root { id: found },
        } = parse_line(rt.alloc(), text.as_bytes())?
        else {
            return Err(Fail::new(text));
        };
        assert_eq!(rt; found, id(want), "{text}");
    }
    Ok(())
}

#[test]
fn stage_lines(rt: HostRuntime) {
    for (text, want) in [
        ("log", Stage::Log),
        ("flush", Stage::Flush),
        ("enact", Stage::Enact),
        ("clean", Stage::Clean),
        ("grow", Stage::Grow),
    ] {
        let line = parse_line(rt.alloc(), text.as_bytes());
        assert!(rt;
            matches!(line, Ok(Line::Stage(stage)) if stage == want),
            "{text}"
        );
    }
}

#[test]
fn texts_that_are_no_lines(rt: HostRuntime) {
    for text in [
        " ",
        "new",
        "new 17",
        "new 01",
        "new +1",
        "new 1 1",
        "new  1",
        "New 1",
        "news 1",
        "genesis 01",
        "genesis 01 0",
        "genesis 01 4097",
        "genesis 01 99999999999999999999",
        "genesis - 1",
        "import 01",
        "import 01 02 aa",
        "import 01 02 aa=1",
        "import 01 02 aa=01=02",
        "import 01 02 aa=01!",
        "import 01 02 aa!!",
        "import 01 02 !",
        "import 01 02 ",
        "read 01",
        "read 1 aa",
        "read 0g aa",
        "read 01 aa\n",
        "next",
        "next 01",
        "next 01 ",
        "next 01 a",
        "next 01 aab",
        "next 01 aa bb",
        "next - aa",
        "next 1 aa",
        "Next 01 aa",
        "list",
        "list 01",
        "list 01 ",
        "list 01 a",
        "list 01 aab",
        "list 01 aa bb",
        "list 01 0g",
        "list - aa",
        "lists 01 aa",
        "root",
        "root 1",
        "root 01 ",
        "root 01 aa",
        "roots 01",
        "read 000000000000000000000000000000000000000000000000000000000000000001 aa",
        "#\n",
        "log ",
        "Log",
        "logs",
        "log x",
        "log log",
        " log",
        "lo",
        "flush 1",
        "flushed",
        "enact -",
        "clean 01",
        "grow ",
        "GROW",
    ] {
        let line = parse_line(rt.alloc(), text.as_bytes());
        assert!(rt; matches!(line, Err(LineFault::NotInGrammar)), "{text}");
    }
}

// A line of a front and then the unit, so many times.
fn repeated(alloc: Global, front: &str, unit: &str, count: usize) -> Result<Vec<u8>, AllocError> {
    let mut text = Vec::from_slice(alloc, front.as_bytes())?;
    for _ in 0..count {
        text.extend_from_slice(unit.as_bytes())?;
    }
    Ok(text)
}

#[test]
fn limits(rt: HostRuntime) -> Result<(), Fail> {
    for (front, unit, most) in [
        ("", "#", 16777216),
        ("import 01 02", " aa!", 65536),
        ("read 01 ", "ab", 1024),
        ("next 01 ", "ab", 1024),
        ("list 01 ", "ab", 1024),
        ("import 01 02 aa=", "00", 4194304),
    ] {
        let within = repeated(rt.alloc(), front, unit, most)?;
        assert!(rt;
            parse_line(rt.alloc(), within.as_slice()).is_ok(),
            "{front}"
        );
        let beyond = repeated(rt.alloc(), front, unit, most + 1)?;
        let line = parse_line(rt.alloc(), beyond.as_slice());
        assert!(rt; matches!(line, Err(LineFault::NotInGrammar)), "{front}");
    }
    Ok(())
}
