// The text of a log table, piece by piece: its heading, then the line of each record that has one.
#![tactic(auto)]

ghost use Rattle.std.specs.Prelude.{◌≡◌, ◌+◌, ◌*◌, ◌/◌, ◌≤◌, ◌<◌, length};
ghost use Rattle.model.specs.Bytes.{view, bytes_of};
ghost use Rattle.model.specs.Listing.{is_table};
ghost use Rattle.listing_text.specs.Wrote.{Put};
ghost use Rattle.listing.specs.Pieces.{heading, record_text, pieces, piece, Filled};

use listing_text::Text;

// How many bytes of text were written, and the piece that is next.
#[derive(Clone, Copy)]
pub struct Part {
    pub count: usize,
    pub next: u32,
}

#[tactic(auto, unfolding(model::specs::Listing::is_table, model::specs::Scan::every))]
fn is_table(table: &[u8]) -> bool
    ensures { result ≡ is_table (view table.now) }
{
    1 <= table.len() && table.len() <= 65536 && table.len() % 512 == 0
}

// How many pieces the text has.
#[tactic(auto, using(crate::proofs::Whole::table_short), unfolding(crate::specs::Pieces::pieces))]
pub fn pieces(table: &[u8]) -> u32
    ensures { result ≡ pieces (view table.now) }
{
    if is_table(table) {
        (table.len() / 32) as u32 + 1
    } else {
        1
    }
}

#[tactic(auto, using(crate::proofs::Whole::table_short), unfolding(crate::specs::Pieces::heading, model::specs::Text::line, model::specs::Text::ascii))]
fn put_heading(text: &mut Text<'_>, table: &[u8])
    requires { text.old.end + 119 ≤ length text.old.out.now }
    ensures { Put (heading (view table.now)) text.old text.new × (text.new.end ≤ text.old.end + 119) }
{
    if is_table(table) {
        text.field(b"log ", (table.len() / 512) as u32);
        text.text(b" sectors\n");
    } else {
        text.text(b"not a log\n");
    }
}

// The line of record k, if it has one.
#[tactic(auto, using(crate::proofs::Whole::line_told, listing_text::proofs::Buffer::put_none), unfolding(crate::specs::Pieces::record_text))]
fn put_line(text: &mut Text<'_>, table: &[u8], k: u32)
    requires { (512 * (k / 16) + 512 ≤ length table.now) × (text.old.end + 119 ≤ length text.old.out.now) }
    ensures { Put (record_text (bytes_of table.now) k) text.old text.new × (text.new.end ≤ text.old.end + 119) }
{
    if log_record::tells(table, k / 16, k % 16) {
        listing_line::put_record(text, table, k);
    }
}

// Piece i of the text. None has more than 119 bytes.
#[tactic(auto, using(crate::proofs::Whole::piece_record, crate::proofs::Whole::record_within), unfolding(crate::specs::Pieces::piece))]
fn put_piece(text: &mut Text<'_>, table: &[u8], i: u32)
    requires { (i < pieces (view table.now)) × (text.old.end + 119 ≤ length text.old.out.now) }
    ensures { Put (piece (view table.now) i) text.old text.new × (text.new.end ≤ text.old.end + 119) }
{
    if i == 0 {
        put_heading(text, table);
    } else {
        put_line(text, table, i - 1);
    }
}

// The pieces from `from` on, as long as the buffer has room for the longest.
pub fn fill(out: &mut [u8], table: &[u8], from: u32) -> Part
    requires { (from ≤ pieces (view table.now)) × (119 ≤ length out.old) }
    ensures { Filled (view table.now) from out.old out.new result.count result.next }
{
    let n = pieces(table);
    let mut text = Text { out, end: 0 };
    for i in from..n {
        if text.out.len() - text.end < 119 {
            return Part {
                count: text.end,
                next: i,
            };
        }
        put_piece(&mut text, table, i);
    }
    Part {
        count: text.end,
        next: n,
    }
}
