ghost use Rattle.std.specs.Prelude.{◌≡◌, ◌≤◌, length};

use crate::first_record::{first_record, is_end};
use crate::record_ref::RecordRef;

/// What there is at a scanner's place.
#[derive(Clone, Copy, Debug)]
pub enum Scan<'a> {
    /// A record, whole.
    Whole(RecordRef<'a>),
    /// The end of the log: no bytes are left, or the next 48, all where there are fewer, are zeros.
    End,
    /// Anything else.
    Torn,
}

/// Goes through the bytes of a log, record by record.
#[derive(Clone, Copy, Debug)]
pub struct Scanner<'a> {
    bytes: &'a [u8],
    at: usize,
    ghost within: { at ≤ length bytes.now },
}

impl<'a> Scanner<'a> {
    ghost use Rattle.std.specs.Prelude.{◌+◌};
    ghost use Rattle.pdb_model.specs.Records.{IsEndOfLog, Record};
    ghost use Rattle.pdb_record.specs.declared.scanner.Scan.TheVariants.{End};
    ghost use Rattle.pdb_record.specs.Scans.{BodyIsAt, ComesTo, HasHere, IfWhole, IsPast, IsScan, Shows, WholeAnd, place, scanned};

    /// A scanner of these bytes from a place on, at most their end.
    pub fn new(bytes: &'a [u8], at: usize) -> Scanner<'a>
        requires { at ≤ length bytes.now }
        ensures bytes { result.bytes ≡ bytes.entry }
        ensures place { place result ≡ at }
    {
        Scanner { bytes, at }
    }

    /// What there is at this place. After a whole record the scanner has come to the byte after it.
    pub fn next(&mut self) -> Scan<'a>
        ensures answer { IsScan result self.old }
        ensures found { (x : Record) → HasHere self.old x → WholeAnd result (λ r. Shows r x) × IsPast x self.old self.new }
        ensures ended { IsEndOfLog (scanned self.old) (place self.old) → result ≡ End }
        ensures goes_on { ComesTo result self.old self.new }
        ensures borrowed { IfWhole result (λ r. BodyIsAt r self.old (place self.old + 48)) }
    {
        let left = &self.bytes[self.at..];
        if is_end(left) {
            return Scan::End;
        }
        let Some(found) = first_record(left) else {
            return Scan::Torn;
        };
        self.at += found.len();
        Scan::Whole(found)
    }
}
