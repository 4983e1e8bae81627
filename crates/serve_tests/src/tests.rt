ghost use Rattle.std.specs.Prelude.{◌≡◌, ◌≤◌, length, is_err, IfOk};
ghost use Rattle.sdb_io.specs.Faults.{CountsFault};
ghost use Rattle.sdb_io.specs.Memory.{failed_takes};

use crate::runs::{Fails, NONE_FAILS, lines, script_words, tried};
use pdb_memdisk::MemDisk;
use sdb_io::{MemSink, MemSource, Source, SourceFault};
use sdb_serve::{Status, run};
use std::alloc::{AllocError, Global};
use std::test::*;

// In the tables a bar ends a line.

// Scripts that are answered to their end, and their replies.
const ANSWERED: [(&str, &str); 24] = [
    ("", ""),
    (
        "new 0|genesis 01 4 aa=01 bb=07|import 02 01 aa=02|import 03 01 aa=03|read 02 aa|read 03 aa|read 01 aa|read 02 bb|",
        "new|genesis|import 1|import 1|value 02|value 03|value 01|value 07|",
    ),
    (
        "new 0|genesis 01 256 aa=-|read 01 aa|read 01 -|read 02 aa|",
        "new|genesis|value -|none|refused 1 UnknownBlock|",
    ),
    // both letter cases are read, and lower case is written
    (
        "new 0|genesis 01 4 aA=Bb|read 01 Aa|",
        "new|genesis|value bb|",
    ),
    // a deleted key
    (
        "new 0|genesis 01 4 aa=01|import 02 01 aa!|read 02 aa|read 01 aa|",
        "new|genesis|import 1|none|value 01|",
    ),
    // an id of 64 digits is that of its short form
    (
        "new 0|genesis 0000000000000000000000000000000000000000000000000000000000000001 4 aa=01|read 01 aa|",
        "new|genesis|value 01|",
    ),
    // an unknown parent comes before an id that exists
    (
        "new 0|genesis 01 4|import 02 09|import 01 01|import 02 01|import 02 02|import 02 09|",
        "new|genesis|refused 4 UnknownParent|refused 3 AlreadyExists|import 1|refused 3 AlreadyExists|refused 4 UnknownParent|",
    ),
    // changes apply in their order
    (
        "new 0|genesis 01 4 aa=01 aa=02 bb=01 bb!|read 01 aa|read 01 bb|",
        "new|genesis|value 02|none|",
    ),
    // a chain of three
    (
        "new 0|genesis 01 4 aa=01|import 02 01 bb=02|import 03 02 aa=03|read 03 bb|read 03 aa|read 02 aa|",
        "new|genesis|import 1|import 2|value 02|value 03|value 01|",
    ),
    ("# only a comment||", ""),
    // the root of a state without keys
    (
        "new 0|genesis 01 256|root 01|",
        "new|genesis|root 03170a2e7597b7b7e3d84c05391d139a62b157e78786d8c082f29dcf4c111314|",
    ),
    // two leaves that become one when a key is deleted, and the block before as it was
    (
        "new 0|genesis 01 4 aa=01 ab=02|import 02 01 ab!|root 02|root 01|root 03|",
        "new|genesis|import 1|root 481f35c2eda667f1bc14d62b1c2ced344917448376fe30db2dc73b391ee1b514|root 71df5e47088fe469d8c944cab4a7f2c652ee1cf521ecfc05da70bd6e4d09fd64|refused 1 UnknownBlock|",
    ),
    // a key that begins another, and forks that come to one state by other ways
    (
        "new 0|genesis 01 4|import 02 01 aabb=02 aa=01|import 03 01 aa=02 cc=03|import 04 03 cc! aabb=02 aa=01|root 02|root 04|",
        "new|genesis|import 1|import 1|import 2|root 31dd6a8ce6badc189353d9531e0a9054fe2f73fe72d6236de0c15ac4418d95fb|root 31dd6a8ce6badc189353d9531e0a9054fe2f73fe72d6236de0c15ac4418d95fb|",
    ),
    // a key without a value, and leaves of 31 and of 32 bytes
    (
        "new 0|genesis 01 4 aa=-|import 02 01 aa=ababababababababababababababababababababababababababababab ab=cdcdcdcdcdcdcdcdcdcdcdcdcdcdcdcdcdcdcdcdcdcdcdcdcdcdcdcdcdcd|root 01|root 02|",
        "new|genesis|import 1|root 99bd6135a0892dc2efc5b792adb3280c24dcf8dde8290f64faa78cbeb86996a9|root 376fa5c51f83f54e94cb4b89cf2be4d9d0ae795444a502edc7bf6b84d34738c5|",
    ),
    // the least key above, and the keys with a prefix
    (
        "new 0|genesis 01 256 aa=01 aabb=02|next 01 -|next 01 aa|next 01 aabb|list 01 aa|",
        "new|genesis|next aa|next aabb|none|list aa aabb|",
    ),
    // from before the first key, between two, past the last, and by prefixes at, within and behind keys
    (
        "new 0|genesis 01 4 aa=01 aabb=02 ac=03|next 01 00|next 01 aaaa|next 01 aabb|next 01 aabc|next 01 ad|list 01 -|list 01 aabb|list 01 aabbcc|list 01 ab|next 02 aa|list 02 -|",
        "new|genesis|next aa|next aabb|next ac|next ac|none|list aa aabb ac|list aabb|list|list|refused 1 UnknownBlock|refused 1 UnknownBlock|",
    ),
    // the empty key, and a state without keys
    (
        "new 0|genesis 01 4 00=02 -=01|next 01 -|list 01 -|list 01 00|import 02 01 -! 00!|next 02 -|list 02 -|",
        "new|genesis|next 00|list - 00|list 00|import 1|none|list|",
    ),
    // each block has its own keys
    (
        "new 0|genesis 01 4 aa=01|import 02 01 aa! bb=02|import 03 01 ab=03|next 01 -|next 02 -|next 03 aa|list 01 -|list 02 -|list 03 -|",
        "new|genesis|import 1|import 1|next aa|next bb|next ab|list aa|list bb|list aa ab|",
    ),
    // each job before genesis, and genesis again, with another id and with its own
    (
        "new 0|import 02 01|read 01 aa|next 01 aa|list 01 -|root 01|genesis 01 4 aa=01|genesis 02 4 aa=02|genesis 01 4|read 01 aa|read 02 aa|",
        "new|refused 10 NoGenesis|refused 10 NoGenesis|refused 10 NoGenesis|refused 10 NoGenesis|refused 10 NoGenesis|genesis|refused 9 HasGenesis|refused 9 HasGenesis|value 01|refused 1 UnknownBlock|",
    ),
    // no parent and an id that exists at once
    (
        "new 0|genesis 01 4|import 01 09|import 01 01|",
        "new|genesis|refused 4 UnknownParent|refused 3 AlreadyExists|",
    ),
    // each stage before genesis
    (
        "new 0|log|enact|clean|grow|flush|flush|",
        "new|idle|idle|cleaned 0|idle|flushed 0|flushed 0|",
    ),
    // genesis and four imports are commits, and the refused one is none
    (
        "new 0|genesis 01 4 aa=01|import 02 01 aa=02|import 03 02 bb=03|import 02 03|import 04 01|import 05 04 aa!|log|log|log|log|log|log|flush|enact|enact|enact|enact|enact|enact|clean|grow|",
        "new|genesis|import 1|import 2|refused 3 AlreadyExists|import 1|import 2|logged 1|logged 2|logged 3|logged 4|logged 5|idle|flushed 5|enacted 1|enacted 2|enacted 3|enacted 4|enacted 5|idle|cleaned 5|idle|",
    ),
    // enacting stops at the last flushed record, and reads are as before
    (
        "new 0|genesis 01 4 aa=01|import 02 01 aa=02|import 03 02 bb=03|enact|log|log|read 02 aa|log|flush|log|enact|enact|read 02 aa|enact|enact|clean|flush|read 03 bb|enact|import 04 03 cc=04|log|clean|list 04 -|flush|enact|clean|",
        "new|genesis|import 1|import 2|idle|logged 1|logged 2|value 02|logged 3|flushed 3|idle|enacted 1|enacted 2|value 02|enacted 3|idle|cleaned 3|flushed 3|value 03|idle|import 3|logged 4|cleaned 3|list aa bb cc|flushed 4|enacted 4|cleaned 4|",
    ),
    // a second flush, where more was logged than the first one flushed
    (
        "new 0|genesis 01 4 aa=01|import 02 01|import 03 01|import 04 01|import 05 01|log|log|log|flush|log|log|enact|enact|enact|enact|clean|flush|enact|enact|enact|clean|read 05 aa|genesis 06 4|log|",
        "new|genesis|import 1|import 1|import 1|import 1|logged 1|logged 2|logged 3|flushed 3|logged 4|logged 5|enacted 1|enacted 2|enacted 3|idle|cleaned 3|flushed 5|enacted 4|enacted 5|idle|cleaned 5|value 01|refused 9 HasGenesis|idle|",
    ),
];

// Scripts that stop at a bad line, and what is written up to it.
const STOPPED: [(&str, &str); 14] = [
    // the last line has no line feed
    ("new 0|genesis 01 4", "new|stop 3 line 2|"),
    // comments and empty lines are counted
    (
        "# c||new 0||# x|genesis 01 4|read 1 aa|",
        "new|genesis|stop 3 line 7|",
    ),
    // lines that may not be where they are
    (
        "new 0|genesis 01 4|root 01 aa|",
        "new|genesis|stop 3 line 3|",
    ),
    ("new 0|genesis 01 4|new 0|", "new|genesis|stop 3 line 3|"),
    ("genesis 01 4|", "stop 3 line 1|"),
    ("read 01 aa|", "stop 3 line 1|"),
    ("import 02 01|", "stop 3 line 1|"),
    ("log|", "stop 3 line 1|"),
    ("# c|flush|new 0|", "stop 3 line 2|"),
    ("new 0|log|new 0|", "new|idle|stop 3 line 3|"),
    ("new 0|log|log 1|", "new|idle|stop 3 line 3|"),
    ("new 0|new 0|genesis 01 4|", "new|stop 3 line 2|"),
    // words that begin no line
    ("open|", "stop 3 line 1|"),
    ("new 0|genesis 01 4|canon 01|", "new|genesis|stop 3 line 3|"),
];

// Other words than the one word `script`.
const OTHER_WORDS: [&[&str]; 5] = [
    &[],
    &["script", "x"],
    &["-h"],
    &["gen", "01", "5"],
    &["scripts"],
];

// Which call of the source, of the sink and of the disk fails, the words, the input, the exit code and what is written. Of the calls of the disk, `new` makes two reads of gate
// slots, then cuts and syncs each of the 42 files, writes two head cells and syncs them, and writes a gate slot and syncs it: 91.
const FAULTS: [(Fails, &[&str], &str, u8, &str); 10] = [
    (
        (None, Some(2), None),
        &["script"],
        "new 0|genesis 01 4 aa=01 bb=07|import 02 01 aa=02|read 02 aa|",
        5,
        "new|genesis|",
    ),
    (
        (Some(1), None, None),
        &["script"],
        "new 0|",
        4,
        "new|stop 4|",
    ),
    ((None, Some(0), None), &["-h"], "", 5, ""),
    // both fail: the source, and the sink at the last line for it
    ((Some(1), Some(1), None), &["script"], "new 0|", 5, "new|"),
    (
        (None, Some(1), None),
        &["script"],
        "new 0|new 0|",
        5,
        "new|",
    ),
    // the first sync
    (
        (None, None, Some(3)),
        &["script"],
        "new 0|genesis 01 4|",
        6,
        "stop 6|",
    ),
    // the first read, and the last call of `new`
    (
        (None, None, Some(0)),
        &["script"],
        "new 0|genesis 01 4|",
        6,
        "stop 6|",
    ),
    (
        (None, None, Some(90)),
        &["script"],
        "new 0|genesis 01 4|",
        6,
        "stop 6|",
    ),
    // the record of the first commit, after its chunk was read
    (
        (None, None, Some(92)),
        &["script"],
        "new 0|genesis 01 4 aa=01|read 01 aa|log|read 01 aa|",
        6,
        "new|genesis|value 01|stop 6|",
    ),
    // the disk, and the sink at the last line for it
    ((None, Some(0), Some(3)), &["script"], "new 0|", 5, ""),
];

#[test]
fn replies_to_scripts(rt: HostRuntime) -> Result<(), Fail> {
    let alloc = rt.alloc();
    for (script, want) in ANSWERED {
        let input = lines(alloc, script)?;
        let (code, written) = tried(alloc, &["script"], &input, NONE_FAILS)?;
        assert_eq!(rt; code, 0, "{script}");
        assert_eq!(rt; written, lines(alloc, want)?, "{script}");
    }
    for (script, want) in STOPPED {
        let input = lines(alloc, script)?;
        let (code, written) = tried(alloc, &["script"], &input, NONE_FAILS)?;
        assert_eq!(rt; code, 3, "{script}");
        assert_eq!(rt; written, lines(alloc, want)?, "{script}");
    }
    Ok(())
}

#[test]
fn other_words_and_faults(rt: HostRuntime) -> Result<(), Fail> {
    let alloc = rt.alloc();
    for words in OTHER_WORDS {
        let (code, written) = tried(alloc, words, b"new 0\n", NONE_FAILS)?;
        assert_eq!(rt; code, 2, "{words:?}");
        assert_eq!(rt; written.as_slice(), b"stop 2\n".as_slice(), "{words:?}");
    }
    for (fails, words, script, want_code, want) in FAULTS {
        let input = lines(alloc, script)?;
        let (code, written) = tried(alloc, words, &input, fails)?;
        assert_eq!(rt; code, want_code, "{script}");
        assert_eq!(rt; written, lines(alloc, want)?, "{script}");
    }
    Ok(())
}

// The first number with siblings, the parent of them, and the lines before and their replies.
const LEVELS: [(u32, &str, &str, &str); 2] = [
    (1, "01", "new 0|genesis 01 4|", "new|genesis|"),
    (
        2,
        "ff",
        "new 0|genesis 01 4|import ff 01|",
        "new|genesis|import 1|",
    ),
];

#[test]
fn a_number_has_at_most_32_blocks(rt: HostRuntime) -> Result<(), Fail> {
    let alloc = rt.alloc();
    for (number, parent, before, replies) in LEVELS {
        let mut script = lines(alloc, before)?;
        let mut want = lines(alloc, replies)?;
        for id in 2..34 {
            let line = format!(in alloc; "import {id:02x} {parent}\n")?;
            script.extend_from_slice(line.as_bytes())?;
            let reply = format!(in alloc; "import {number}\n")?;
            want.extend_from_slice(reply.as_bytes())?;
        }
        // the other refusals come before the limit, and what it refuses is not accepted
        let last = format!(in alloc;
            "import 22 99\nimport 05 {parent}\nimport 22 {parent}\nroot 22\n"
        )?;
        script.extend_from_slice(last.as_bytes())?;
        let refused = format!(in alloc;
            "refused 4 UnknownParent\nrefused 3 AlreadyExists\nrefused 6 TooManySiblings {number}\nrefused 1 UnknownBlock\n"
        )?;
        want.extend_from_slice(refused.as_bytes())?;
        let (code, written) = tried(alloc, &["script"], &script, NONE_FAILS)?;
        assert_eq!(rt; code, 0, "{before}");
        assert_eq!(rt; written, want, "{before}");
    }
    Ok(())
}

// A source that gives at most so many bytes at a time, and counts its calls and those with less room than 65,536
// bytes.
#[derive(Drop)]
struct Counted {
    inner: MemSource,
    most: usize,
    calls: u64,
    short: u64,
}

impl Source for Counted {
    ghost use Rattle.std.specs.Prelude.{None};
    ghost use Rattle.sdb_io.specs.Memory.{failed_takes};

    ghost left = { λ _. None };

    ghost fault_count = { λ s. failed_takes s.inner };

    fn take(&mut self, into: &mut [u8]) -> Result<usize, SourceFault> {
        self.calls = self.calls.saturating_add(1);
        if into.len() != 65536 {
            self.short = self.short.saturating_add(1);
        }
        let room = into.len().min(self.most);
        self.inner.take(&mut into[..room])
    }

    fn faults(&self) -> u64 {
        self.inner.faults()
    }
}

// The script, how many bytes are given at a time, the exit code, and how many calls there are: none while a whole
// line waits, and none after the end.
const CALLS: [(&str, usize, u8, u64); 6] = [
    ("", 8, 0, 1),
    ("new 0|", 6, 0, 2),
    ("new 0|", 2, 0, 4),
    ("new 0", 2, 3, 4),
    ("new 0|x|new 0|", 8, 3, 1),
    ("new 0|new 0|x|", 6, 3, 2),
];

#[test]
fn a_source_is_asked_only_where_no_line_waits(rt: HostRuntime) -> Result<(), Fail> {
    let alloc = rt.alloc();
    let words = script_words(alloc)?;
    for (script, most, want, calls) in CALLS {
        let input = lines(alloc, script)?;
        let mut source = Counted {
            inner: MemSource::new(alloc, &input)?,
            most,
            calls: 0,
            short: 0,
        };
        let mut sink = MemSink::new(alloc);
        assert_eq!(rt;
            run(alloc, &words, &mut source, &mut sink, MemDisk::new(alloc))
                .status
                .code(),
            want,
            "{script}"
        );
        assert_eq!(rt; source.calls, calls, "{script}");
        assert_eq!(rt; source.short, 0, "{script}");
    }
    Ok(())
}

#[test]
fn exit_codes(rt: HostRuntime) -> Result<(), Fail> {
    for (status, code) in [
        (Status::Done, 0),
        (Status::Usage, 2),
        (Status::Script, 3),
        (Status::SourceFault, 4),
        (Status::SinkFault, 5),
        (Status::DiskFault, 6),
        (Status::Occupied, 8),
        (Status::Damaged, 9),
        (Status::IndexFull, 10),
        (Status::NoMemory, 11),
        (Status::TierFull, 12),
        (Status::NumbersEnd, 13),
    ] {
        assert_eq!(rt; status.code(), code);
    }
    Ok(())
}
