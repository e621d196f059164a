//! The check of a link file, part by part.
ghost use Rattle.std.specs.Prelude.{◌≡◌, ◌+◌, ◌≤◌, Some, None, Ok, Err, IfOk, IfErr, OnOk, MatchResult};
ghost use Rattle.table.specs.Table.{Table};
ghost use Rattle.table.specs.declared.refusals.FileFault.TheVariants.{Record};
ghost use Rattle.link_file.specs.Check.{first_fault, ends_wrong, longest_file, header_cases, record_cases, cases_of_records, answer, checked};
ghost use Rattle.link_file.specs.Format.{header_length, record_length, records_of, number16, four};
ghost use Rattle.link_file.specs.Reading.{LawfulFile, Filled};

use super::fields::Fields;
use super::input::Reader;
use price::StorableKind;
use table::marks::Mark;
use table::refusals::{FileFault, RecordFault};
use table::{MOST_LINKS, MOST_POINTS};

/// The bytes before the first record.
pub const HEADER: usize = 12;

/// The bytes of a record.
pub const RECORD: usize = 10;

/// The bytes of the longest file.
pub const LONGEST: usize = HEADER + RECORD * MOST_LINKS;

// Whether two ends do not suit a table of so many points.
fn ends_wrong(points: u16, first: u16, second: u16) -> bool
    ensures { result ≡ ends_wrong points first second }
{
    first >= points || second >= points || first == second
}

// The record that stands at a place of the file.
fn check_record<K: StorableKind>(
    bytes: &[u8; RECORD],
    at: usize,
    points: u16,
) -> Result<(), RecordFault>
    requires { at + record_length ≤ longest_file }
    ensures { MatchResult result (λ _. first_fault (record_cases K.forms points at bytes.now) ≡ None) (λ e. first_fault (record_cases K.forms points at bytes.now) ≡ Some (Record e)) }
{
    let fields = Fields::of(bytes);
    if fields.length != 9 {
        return Err(RecordFault::Length(at));
    }
    if ends_wrong(points, fields.first, fields.second) {
        return Err(RecordFault::Ends(at + 1));
    }
    Mark::try_from(fields.mark).map_err(|_| RecordFault::Mark(at + 5))?;
    K::price_of(fields.price).ok_or(RecordFault::Price(at + 6))?;
    Ok(())
}

impl<'a, K: StorableKind> Reader<'a, K> {
    // The reader of a file whose header is right. Its records are not judged yet.
    fn open(bytes: &'a [u8]) -> Result<Reader<'a, K>, FileFault>
        ensures refused { IfErr result (λ e. first_fault (header_cases K.StorableKind.forms bytes.now) ≡ Some e) }
        ensures passed { OnOk result (first_fault (header_cases K.StorableKind.forms bytes.now) ≡ None) }
        ensures records { IfOk result (λ r. r.records.now ≡ records_of bytes.now) }
        ensures points { IfOk result (λ r. r.points ≡ number16 bytes.now 6) }
        ensures budget { IfOk result (λ r. K.StorableKind.forms.budget_of (four bytes.now 8) ≡ Some r.budget) }
    {
        if bytes.len() < HEADER || bytes.len() > LONGEST {
            return Err(FileFault::Size);
        }
        if bytes[0] != 1 {
            return Err(FileFault::Version);
        }
        let after = u32::from_be_bytes([bytes[1], bytes[2], bytes[3], bytes[4]]);
        if after as usize != bytes.len() - 5 {
            return Err(FileFault::LengthField);
        }
        if bytes[5] != K::code() {
            return Err(FileFault::Kind);
        }
        let points = u16::from_be_bytes([bytes[6], bytes[7]]);
        if points == 0 || points > MOST_POINTS {
            return Err(FileFault::PointCount);
        }
        let form = [bytes[8], bytes[9], bytes[10], bytes[11]];
        let budget = K::budget_of(form).ok_or(FileFault::Budget)?;
        let (records, []) = bytes[HEADER..].as_chunks::<RECORD>() else {
            return Err(FileFault::Records);
        };
        Ok(Reader {
            records,
            points,
            budget,
        })
    }

    // Judges the records, first to last.
    fn check_records(&self) -> Result<(), FileFault>
        ensures { result ≡ answer (first_fault (cases_of_records K.StorableKind.forms self.now.points header_length self.now.records.now)) }
    {
        for (number, bytes) in self.records.iter().enumerate() {
            check_record::<K>(bytes, HEADER + RECORD * number, self.points)?;
        }
        Ok(())
    }

    // The reader of a file, judged part by part.
    fn read(bytes: &'a [u8]) -> Result<Reader<'a, K>, FileFault>
        ensures refused { IfErr result (λ e. checked K.StorableKind.forms bytes.now ≡ Err e) }
        ensures passed { OnOk result (checked K.StorableKind.forms bytes.now ≡ Ok tt) }
        ensures filled { IfOk result (λ r. Filled K.PriceKind.operations K.StorableKind.forms r bytes.now) }
    {
        let reader = Reader::<K>::open(bytes)?;
        reader.check_records()?;
        Ok(reader)
    }

    /// Checks a link file, and fills the reader with it. A refused file leaves the reader as it was.
    /// A file passes exactly when it is the file of a lawful table and an admitted budget.
    pub fn check(&mut self, bytes: &'a [u8]) -> Result<(), FileFault>
        ensures result { result ≡ checked K.StorableKind.forms bytes.now }
        ensures complete { (t : Table K) (budget : K) → LawfulFile K.PriceKind.operations K.StorableKind.forms t budget bytes.now → result ≡ Ok tt }
        ensures reader { MatchResult result (λ _. Filled K.PriceKind.operations K.StorableKind.forms self.new bytes.now) (λ _. self.new ≡ self.old) }
    {
        *self = Reader::read(bytes)?;
        Ok(())
    }
}
