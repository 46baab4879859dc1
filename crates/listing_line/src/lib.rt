// The line of one log record: it is put into a lent buffer, and has at most 119 bytes.
#![tactic(auto)]

ghost use Rattle.std.specs.Prelude.{◌≡◌, ◌+◌, ◌*◌, ◌/◌, ◌%◌, ◌≤◌, length};
ghost use Rattle.model.specs.Bytes.{bytes_of, part};
ghost use Rattle.model.specs.Listing.{record_line};
ghost use Rattle.listing_text.specs.Wrote.{Put};
ghost use Rattle.listing_line.specs.Words.{place_text, operation_text, state_text, head_text, numbers, slot_text, size_text};

use listing_text::Text;

// The numbers of a record that its line ends with.
#[derive(Clone, Copy)]
pub struct Numbers {
    pub slot: u32,
    pub first: u32,
    pub from: u32,
    pub size: u32,
}

// The record's sector, and its number there.
#[tactic(auto, using(listing_text::proofs::Buffer::put_then), unfolding(crate::specs::Words::place_text))]
fn put_place(line: &mut Text<'_>, s: u32, r: u32)
    requires { line.old.end + 21 ≤ length line.old.out.now }
    ensures { Put (place_text s r) line.old line.new × (line.new.end ≤ line.old.end + 21) }
{
    line.field(b"", s);
    line.field(b" ", r);
}

// The word of an operation.
fn operation_word(number: u32) -> &'static [u8]
    ensures { (result.now ≡ operation_text number) × (length result.now ≤ 9) }
{
    match number {
        0 => b" part",
        1 => b" create",
        2 => b" update",
        3 => b" delete",
        4 => b" truncate",
        5 => b" rename",
        6 => b" replace",
        _ => b" unknown",
    }
}

// What the record's first byte says of its state.
fn state_word(b: u32) -> &'static [u8]
    ensures { (result.now ≡ state_text b) × (length result.now ≤ 11) }
{
    if b == 0xE5 {
        b" committed "
    } else {
        b" pending "
    }
}

// What stands before the name of record k of a table.
#[tactic(auto, using(listing_text::proofs::Buffer::put_then, crate::proofs::Laws::record_byte), unfolding(crate::specs::Words::head_text))]
fn put_head(line: &mut Text<'_>, table: &[u8], k: u32)
    requires { (32 * k + 32 ≤ length table.now) × (line.old.end + 41 ≤ length line.old.out.now) }
    ensures { Put (head_text (k / 16) (k % 16) (part (bytes_of table.now) (32 * k))) line.old line.new × (line.new.end ≤ line.old.end + 41) }
{
    let number = sector::byte(table, k / 16, 32 * (k % 16) + 13);
    let state = sector::byte(table, k / 16, 32 * (k % 16));
    put_place(line, k / 16, k % 16);
    line.text(operation_word(number));
    line.text(state_word(state));
}

#[tactic(auto, using(crate::proofs::Laws::record_number), unfolding(crate::specs::Words::numbers))]
fn numbers_of(table: &[u8], k: u32) -> Numbers
    requires { 32 * k + 32 ≤ length table.now }
    ensures { result ≡ numbers (part (bytes_of table.now) (32 * k)) }
{
    let s = k / 16;
    let j = 32 * (k % 16);
    Numbers {
        slot: sector::le::<2>(table, s, j + 18),
        first: 65536 * sector::le::<2>(table, s, j + 20) + sector::le::<2>(table, s, j + 26),
        from: sector::le::<4>(table, s, j + 22),
        size: sector::le::<4>(table, s, j + 28),
    }
}

fn put_slot(line: &mut Text<'_>, n: Numbers)
    requires { line.old.end + 33 ≤ length line.old.out.now }
    ensures { Put (slot_text n) line.old line.new × (line.new.end ≤ line.old.end + 33) }
{
    line.field(b" slot ", n.slot);
    line.field(b" first ", n.first);
}

fn put_size(line: &mut Text<'_>, n: Numbers)
    requires { line.old.end + 33 ≤ length line.old.out.now }
    ensures { Put (size_text n) line.old line.new × (line.new.end ≤ line.old.end + 33) }
{
    line.field(b" from ", n.from);
    line.field(b" size ", n.size);
    line.byte(b'\n');
}

// The line of record k of a table.
pub fn put_record(line: &mut Text<'_>, table: &[u8], k: u32)
    requires { (32 * k + 32 ≤ length table.now) × (line.old.end + 119 ≤ length line.old.out.now) }
    ensures { Put (record_line (k / 16) (k % 16) (part (bytes_of table.now) (32 * k))) line.old line.new × (line.new.end ≤ line.old.end + 119) }
{
    let n = numbers_of(table, k);
    put_head(line, table, k);
    line.name(table, 32 * k as usize);
    put_slot(line, n);
    put_size(line, n);
}
