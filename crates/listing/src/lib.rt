//! The printed list of a link table, one line at a time.
//!
//! Line 0 has the point count, the link count, the kind's code and the budget; a line follows for each link, with its number, its
//! two ends, its mark and its price:
//!
//! ```text
//! points 4 links 5 kind 1 budget 10
//! 0 0 1 free 4
//! 1 1 2 free 3
//! ```
//!
//! Numbers are decimal, a negative one has a minus sign, and each line ends in byte 10.
#![tactic(auto)]

ghost use Rattle.std.specs.Prelude.{◌≡◌, ◌≤◌, length};
ghost use Rattle.table.specs.Buffers.{written_length, written_to};
ghost use Rattle.listing.specs.Lines.{room, head_line, link_line, line_of, refusal_line};

use amounts::ListedKind;
use table::LinkTable;
use table::links::Link;
use table::refusals::{FileFault, PlanFault};
use text::{Line, copy_text, push_number};

pub mod amounts;
mod report;
mod text;

pub use report::{Report, list_file};
pub use text::ROOM;

/// Composes one line of the list into a buffer, and answers its length. Past the last line the answer is 0 and nothing is written.
/// A buffer that is too short for the line is refused with 33 and left as it was; bytes past the line stay.
/// No line is longer than 128 bytes.
pub fn compose_line<K: ListedKind, L: LinkTable<K>>(
    table: &L,
    budget: K,
    number: usize,
    out: &mut [u8],
) -> Result<usize, PlanFault>
    ensures value { result ≡ written_length (line_of K.ListedKind.printed K.StorableKind.forms.code (L.LinkTable.meaning table.now) budget number) out.old }
    ensures after { out.new ≡ written_to (line_of K.ListedKind.printed K.StorableKind.forms.code (L.LinkTable.meaning table.now) budget number) out.old }
    ensures enough { length (line_of K.ListedKind.printed K.StorableKind.forms.code (L.LinkTable.meaning table.now) budget number) ≤ room }
{
    copy_text(&line_of(table, budget, number), out)
}

/// Composes the line of a refused file into a buffer, `refused 17 at 22`, and answers its length.
/// A buffer that is too short for it is refused with 33 and left as it was; bytes past the line stay.
pub fn compose_refusal(fault: FileFault, out: &mut [u8]) -> Result<usize, PlanFault>
    ensures value { result ≡ written_length (refusal_line fault) out.old }
    ensures after { out.new ≡ written_to (refusal_line fault) out.old }
    ensures enough { length (refusal_line fault) ≤ room }
{
    copy_text(&refusal_line(fault), out)
}

// The line of this number, which is empty past the last line.
#[tactic(auto, using(crate::proofs::Listed::line_of_link, crate::proofs::Listed::line_of_none))]
fn line_of<K: ListedKind, L: LinkTable<K>>(table: &L, budget: K, number: usize) -> Line
    ensures { result.bytes ≡ line_of K.ListedKind.printed K.StorableKind.forms.code (L.LinkTable.meaning table.now) budget number }
{
    let Some(link_number) = number.checked_sub(1) else {
        return head_line(
            table.points(),
            table.link_count(),
            K::code(),
            budget.amount(),
        );
    };
    match table.link(link_number) {
        Some(link) => link_line(link_number, link),
        None => Line::new(),
    }
}

// Line 0.
fn head_line(points: u16, links: usize, code: u8, budget: i64) -> Line
    ensures { result.bytes ≡ head_line points links code budget }
{
    let mut line = Line::new();
    line.push_str("points ");
    push_number(&mut line, points);
    line.push_str(" links ");
    push_number(&mut line, links);
    line.push_str(" kind ");
    push_number(&mut line, code);
    line.push_str(" budget ");
    push_number(&mut line, budget);
    line.push_str("\n");
    line
}

// The line of a link.
fn link_line<K: ListedKind>(number: usize, link: Link<K>) -> Line
    ensures { result.bytes ≡ link_line K.ListedKind.printed number link }
{
    let mut line = Line::new();
    push_number(&mut line, number);
    line.push_str(" ");
    push_number(&mut line, link.first);
    line.push_str(" ");
    push_number(&mut line, link.second);
    line.push_str(" ");
    line.push_str(link.mark.word());
    line.push_str(" ");
    push_number(&mut line, link.price.amount());
    line.push_str("\n");
    line
}

// The line of a refused file.
fn refusal_line(fault: FileFault) -> Line
    ensures { result.bytes ≡ refusal_line fault }
{
    let mut line = Line::new();
    line.push_str("refused ");
    push_number(&mut line, fault.number());
    line.push_str(" at ");
    push_number(&mut line, fault.place());
    line.push_str("\n");
    line
}
