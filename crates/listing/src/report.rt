//! The whole printed list of a link file.
ghost use Rattle.std.specs.Prelude.{◌≡◌, ◌++◌, string_bytes, IfOk, OnOk};
ghost use Rattle.link_file.specs.Check.{checked};
ghost use Rattle.listing.specs.Whole.{table_text, file_text};

use super::amounts::ListedKind;
use super::line_of;
use link_file::Reader;
use std::alloc::{AllocError, Global};
use table::LinkTable;
use table::refusals::FileFault;

/// The text that is printed of a file, and what its check answered.
#[derive(Drop)]
pub struct Report {
    pub text: String,
    pub answer: Result<(), FileFault>,
}

// All lines of a table.
#[tactic(auto, using(crate::proofs::Listed::next_text, crate::proofs::Listed::whole_text))]
fn append_table<K: ListedKind, L: LinkTable<K>>(
    table: &L,
    budget: K,
    text: &mut String,
) -> Result<(), AllocError>
    ensures { OnOk result (string_bytes text.new ≡ string_bytes text.old ++ table_text K.ListedKind.printed K.StorableKind.forms.code (L.LinkTable.meaning table.now) budget) }
{
    // A table is asked by number: it lends no list to walk.
    for number in 0..=table.link_count() {
        text.push_str(&line_of(table, budget, number))?;
    }
    Ok(())
}

/// Checks a link file of a kind and lists it: every line of the list, or the line of its refusal.
pub fn list_file<K: ListedKind>(heap: Global, bytes: &[u8]) -> Result<Report, AllocError>
    ensures text { IfOk result (λ p. string_bytes p.text ≡ file_text K.ListedKind.printed K.PriceKind.operations K.StorableKind.forms bytes.now) }
    ensures answer { IfOk result (λ p. p.answer ≡ checked K.StorableKind.forms bytes.now) }
{
    let mut text = String::new(heap);
    let mut reader = Reader::<K>::new();
    let answer = reader.check(bytes);
    match answer {
        Ok(()) => append_table(&reader, reader.budget(), &mut text)?,
        Err(fault) => writeln!(text, "{fault}")?,
    }
    Ok(Report { text, answer })
}
