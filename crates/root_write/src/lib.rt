// The root's part of a change.
#![tactic(auto)]

ghost use Rattle.std.specs.Prelude.{◌≡◌, map, ℕ, ◌+◌, ◌*◌, ◌/◌, ◌<◌, eqb, length, get_or};
ghost use Rattle.model.specs.Bytes.{bytes_of};
ghost use Rattle.model.specs.Scan.{any};
ghost use Rattle.model.specs.Sector.{card_of};
ghost use Rattle.model.specs.Root.{slot_at};
ghost use Rattle.model.specs.Long.{name_slots};
ghost use Rattle.model.specs.Record.{with_text};
ghost use Rattle.model.specs.Pending.{named_slots};
ghost use Rattle.model.specs.Promises.{Held, Texted, Spent};
ghost use Rattle.operations.specs.Finish.{Slots, set_stamp, mark_deleted, effect, root_sector, root_stores};
ghost use Rattle.root_write.specs.Slots.{resized, root_turn};

use model::{Layout, Operation, Stopped};

// The 32 bytes of slot k.
fn load_slot(w: &[u8], l: Layout, k: u32) -> [u8; 32]
    requires { Held l w.now × (k < l.entries) }
    ensures { (j : ℕ) → j < 32 → get_or result j 0 ≡ slot_at l (card_of w.now) k j }
{
    let mut b = [0u8; 32];
    sector::copy(&mut b, 0, w, root_read::slot_start(l, k), 32);
    b
}

// An entry with a new size, and with another first cluster if that changes.
fn resize(b: [u8; 32], moves: bool, first: u32, size: u32) -> [u8; 32]
    ensures { bytes_of result ≡ resized (bytes_of b) moves first size }
{
    let moved = if moves {
        sector_build::set(b, 26, 2, first)
    } else {
        b
    };
    sector_build::set(moved, 28, 4, size)
}

// The same, written at a stamp.
fn rewrite(b: [u8; 32], moves: bool, first: u32, size: u32, stamp: u32) -> [u8; 32]
    ensures { bytes_of result ≡ set_stamp stamp (resized (bytes_of b) moves first size) }
{
    sector_build::set_stamp(resize(b, moves, first, size), stamp)
}

// A deleted entry.
fn mark(b: [u8; 32]) -> [u8; 32]
    ensures { bytes_of result ≡ mark_deleted (bytes_of b) }
{
    sector_build::set(b, 0, 1, 0xE5)
}

// Whether slot s of a name, or one of the n before it, is in root sector r. Of those before it the sector's last slot is the nearest.
fn reaches(s: u32, n: u32, r: u32) -> bool
    ensures { result ≡ any (map (λ k. eqb (k / 16) r) (name_slots s n)) }
{
    s / 16 == r || r < s / 16 && root_names::has_slot(s, n, 16 * r + 15)
}

// Whether an operation names a slot in root sector r.
fn concerns(o: Operation, r: u32) -> bool
    ensures { result ≡ any (map (λ k. eqb (k / 16) r) (named_slots o)) }
{
    let a = root_names::slots_of(o);
    reaches(a.slot, a.count, r) || a.to / 16 == r
}

// The 32 bytes of slot k after the edits of an operation with a text. The slots that they are made of may be edited already.
fn slot_after(w: &[u8], l: Layout, o: Operation, text: &[u8], k: u32) -> [u8; 32]
    requires held { Held l w.now × (k < l.entries) }
    requires slots { Slots l.entries (with_text o (bytes_of text.now)) × Texted text.now }
    ensures { (j : ℕ) → j < 32 → get_or result j 0 ≡ effect (with_text o (bytes_of text.now)) (slot_at l (card_of w.now)) k j }
{
    let b = load_slot(w, l, k);
    if !root_names::names(o, k) {
        return b;
    }
    match o {
        Operation::Create { entry, stamp, .. } => root_spell::name_slot(entry, stamp, text, k),
        Operation::Update {
            last,
            from,
            size,
            stamp,
            ..
        } => rewrite(b, last == 0, from, size, stamp),
        Operation::Truncate { size, stamp, .. } => rewrite(b, size == 0, 0, size, stamp),
        Operation::Replace {
            from,
            size,
            stamp,
            ..
        } => rewrite(b, true, from, size, stamp),
        Operation::Delete { .. } => mark(b),
        Operation::Rename {
            entry,
            count,
            renamed,
            ..
        } => {
            if root_names::has_slot(entry.slot, count, k) {
                return mark(b);
            }
            sector_build::set_name(load_slot(w, l, entry.slot), renamed)
        }
    }
}

// Root sector r after the edits of an operation with a text, into a buffer.
fn load_edited(w: &[u8], l: Layout, o: Operation, text: &[u8], r: u32, buf: &mut [u8])
    requires held { Held l w.now × (r < l.entries / 16) × (length buf.old ≡ 512) }
    requires slots { Slots l.entries (with_text o (bytes_of text.now)) × Texted text.now }
    ensures { (j : ℕ) → j < 512
        → get_or buf.new j 0 ≡ root_sector (effect (with_text o (bytes_of text.now)) (slot_at l (card_of w.now))) r j }
{
    for i in 0..16 {
        sector_build::lay(buf, i as usize, &slot_after(w, l, o, text, 16 * r + i));
    }
}

// Root sector r after these edits is stored, if the operation concerns it.
fn store_concerned(
    w: &mut [u8],
    l: Layout,
    o: Operation,
    text: &[u8],
    r: u32,
    limit: &mut u32,
) -> Result<(), Stopped>
    requires held { Held l w.old × (r < l.entries / 16) }
    requires slots { Slots l.entries (with_text o (bytes_of text.now)) × Texted text.now }
    ensures { Spent limit.old limit.new (root_turn l (with_text o (bytes_of text.now)) (card_of w.old) r) w.old w.new result }
{
    if !concerns(o, r) {
        return Ok(());
    }
    let mut buf = [0u8; 512];
    load_edited(w, l, o, text, r, &mut buf);
    sector::store_sector(w, root_read::root_place(l, r), &buf, limit)
}

// The root sectors that an operation with a text concerns, rising.
pub fn store_root(
    w: &mut [u8],
    l: Layout,
    o: Operation,
    text: &[u8],
    limit: &mut u32,
) -> Result<(), Stopped>
    requires held { Held l w.old }
    requires slots { Slots l.entries (with_text o (bytes_of text.now)) × Texted text.now }
    ensures { Spent limit.old limit.new (root_stores l (with_text o (bytes_of text.now)) (card_of w.old)) w.old w.new result }
{
    for r in 0..l.entries / 16 {
        store_concerned(w, l, o, text, r, limit)?;
    }
    Ok(())
}
