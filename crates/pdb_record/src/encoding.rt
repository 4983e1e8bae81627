ghost use Rattle.std.specs.Prelude.{◌≡◌, ◌≤◌, ◌+◌, ◌^◌, ◌++◌, List, All, IfOk, OnOk, length};
ghost use Rattle.pdb_cells.specs.Puts.{IsWholeCell, NoCellTwice};
ghost use Rattle.pdb_model.specs.Records.{body_bytes, put_bytes, record_bytes};

use crate::heads::{Head, header_bytes};
use crate::layout::checksum;
use pdb_cells::{Put, Puts};
use sdb_base::{Bytes, OutOfMemory};
use std::alloc::Global;

// a put's file and index take so many bytes
pub(crate) const BEFORE_CELL: usize = 10;

// a header and the checksum at a record's end take so many bytes
pub(crate) const AROUND_BODY: usize = 56;

/// How long the body of a record of these puts is, in bytes.
pub fn body_len(puts: &[Put]) -> u64
    requires { length (body_bytes puts.now) ≤ 2 ^ 62 }
    ensures { result ≡ length (body_bytes puts.now) }
{
    let mut len = 0;
    for put in puts {
        len += (BEFORE_CELL + put.bytes.len()) as u64;
    }
    len
}

/// Adds a put to a body.
fn add_put(bytes: &mut Vec<u8>, put: &Put) -> Result<(), OutOfMemory>
    ensures { OnOk result (bytes.new.items ≡ bytes.old.items ++ put_bytes put.now) }
{
    bytes.extend_from_slice(&put.name.file.to_le_bytes())?;
    bytes.extend_from_slice(&put.name.index.to_le_bytes())?;
    bytes.extend_from_slice(put.bytes.as_slice())?;
    Ok(())
}

/// A record's bytes. It has a number from 1 on, a body of at most 2^62 bytes, and puts of whole cells of files with
/// cells, none of them twice; it may have none. `commits` is the number of commits in all records up to and with it.
/// `OutOfMemory` comes only for want of memory.
#[tactic(auto, unfolding(pdb_model::specs::Records::record_bytes))]
pub fn encode(alloc: Global, number: u64, commits: u64, puts: &Puts) -> Result<Bytes, OutOfMemory>
    requires first { 1 ≤ number }
    requires short { length (body_bytes puts.now) ≤ 2 ^ 62 }
    requires whole { All IsWholeCell puts.now }
    requires once { NoCellTwice puts.now }
    ensures { IfOk result (λ b. b ≡ record_bytes (record { number = number; commits = commits; puts = puts.now })) }
{
    let body = body_len(puts.as_slice());
    let head = Head {
        number,
        commits,
        body,
        puts: puts.len() as u64,
    };
    let mut bytes = Vec::with_capacity(alloc, body as usize + AROUND_BODY)?;
    bytes.extend_from_slice(&header_bytes(&head))?;
    for put in puts.as_slice() {
        add_put(&mut bytes, put)?;
    }
    let end = checksum(bytes.as_slice());
    bytes.extend_from_slice(&end)?;
    Ok(Bytes::from_vec(bytes))
}
