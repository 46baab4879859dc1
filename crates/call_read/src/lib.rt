// Read, list and the reading of a long name: a card that is clean, and what they leave in a lent buffer.
#![tactic(auto)]

ghost use Rattle.std.specs.Prelude.{length, get_or, ◌≡◌, ℕ, ◌+◌, ◌*◌, ◌/◌, ◌≤◌, ◌<◌, min};
ghost use Rattle.model.specs.Bytes.{view, bytes_of, overlay};
ghost use Rattle.model.specs.Sector.{card_of, window_of};
ghost use Rattle.model.specs.Promises.{Held};
ghost use Rattle.operations.specs.Reading.{read_on, read, list, shown, directory_listing, long_reading, long_name_on, long_name};
ghost use Rattle.call_read.specs.Gave.{Gave};
ghost use Rattle.model.specs.Root.{slot_at};
ghost use Rattle.model.specs.LongName.{long_byte};
ghost use Rattle.operations.specs.Promises.{Fills};
ghost use Rattle.call_read.specs.Filled.{Listed};

use model::{Access, Ended, Ground, Layout, Volume};

// Slot k into the 32 bytes of the buffer from `at` on: of a list of slots, so the place is the caller's.
fn copy_slot(out: &mut [u8], at: usize, w: &[u8], l: Layout, k: u32)
    requires { Held l w.now × (k < l.entries) × (at + 32 ≤ length out.old) }
    ensures { (i : ℕ) → get_or out.new i 0 ≡ overlay 32 (slot_at l (card_of w.now) k) at (bytes_of out.old) i }
{
    sector::copy(out, at, w, root_read::slot_start(l, k), 32);
}

// Slot k after the n that are listed before it, if it is listed and fits; and how many are listed now.
fn list_slot(out: &mut [u8], w: &[u8], l: Layout, k: u32, n: u32) -> u32
    requires { Held l w.now × (k < l.entries) × (n ≤ k) }
    ensures { Listed l (card_of w.now) k n out.old out.new result }
{
    if !root_read::is_listed(w, l, k) {
        return n;
    }
    let at = 32 * n as usize;
    if out.len() < at + 32 {
        return n + 1;
    }
    copy_slot(out, at, w, l, k);
    n + 1
}

// The listed slots, as many as fit whole, and how many there are.
fn copy_listed(out: &mut [u8], w: &[u8], l: Layout) -> u32
    requires { Held l w.now }
    ensures { Fills (directory_listing l (card_of w.now) (shown l (card_of w.now)) (length out.old)) out.old
        out.new result }
{
    let entries = l.entries;
    let mut k = 0;
    let mut n = 0;
    // no `for`, since k passes over whole sectors that were never used
    while k < entries {
        if root_read::is_blank(w, l, k) {
            k += 16;
            continue;
        }
        n = list_slot(out, w, l, k, n);
        k += 1;
    }
    n
}

pub fn list(w: &[u8], buffer: &mut [u8]) -> Result<Ended, Ground>
    ensures { Gave (list (window_of w.now) (length buffer.old)) buffer.old buffer.new result }
{
    let v = volume::clean(w)?;
    let l = v.layout;
    Ok(Ended::Done(copy_listed(buffer, w, l)))
}

fn read_from(
    w: &[u8],
    v: Volume,
    name: &[u8],
    offset: u64,
    buffer: &mut [u8],
) -> Result<Ended, Ground>
    requires { Held v.layout w.now }
    ensures { Gave (read_on v (card_of w.now) (view name.now) offset (length buffer.old)) buffer.old
        buffer.new result }
{
    let f = root_lookup::file_of(w, v, Access::Read, name)?;
    let l = v.layout;
    Ok(Ended::Done(file_read::read_file(w, l, f, offset, buffer)))
}

pub fn read(w: &[u8], name: &[u8], offset: u64, buffer: &mut [u8]) -> Result<Ended, Ground>
    ensures { Gave (read (window_of w.now) (view name.now) offset (length buffer.old)) buffer.old
        buffer.new result }
{
    let v = volume::clean(w)?;
    read_from(w, v, name, offset, buffer)
}

// The first n characters in the long entries of slot s, as many as fit.
fn copy_characters(out: &mut [u8], w: &[u8], l: Layout, s: u32, n: u32)
    requires { Held l w.now × (s < l.entries) × (n ≤ 13 * s) }
    ensures { (i : ℕ) → get_or out.new i 0
        ≡ overlay (2 * min (length out.old / 2) n) (long_byte (slot_at l (card_of w.now)) s) 0 (bytes_of out.old) i }
{
    let room = out.len() / 2 * 2;
    let end = 2 * n as usize;
    for i in 0..end.min(room) {
        out[i] = root_long::long_byte(w, l, s, i as u32) as u8;
    }
}

// The long name of slot s, as many characters as fit, and how many there are.
fn copy_name(out: &mut [u8], w: &[u8], l: Layout, s: u32) -> u32
    requires { Held l w.now × (s < l.entries) }
    ensures { Fills (long_reading (slot_at l (card_of w.now)) s (length out.old)) out.old out.new result }
{
    let n = root_long::long_length(w, l, s);
    copy_characters(out, w, l, s, n);
    n
}

// NAME and ABSENT; a directory's long name is read too.
fn long_name_on(w: &[u8], v: Volume, name: &[u8], buffer: &mut [u8]) -> Result<Ended, Ground>
    requires { Held v.layout w.now }
    ensures { Gave (long_name_on v (card_of w.now) (view name.now) (length buffer.old)) buffer.old
        buffer.new result }
{
    if !root_names::is_name(name) {
        return Err(Ground::Name);
    }
    let l = v.layout;
    let s = root_lookup::slot_of(w, v, name);
    if l.entries <= s {
        return Err(Ground::Absent);
    }
    Ok(Ended::Done(copy_name(buffer, w, l, s)))
}

pub fn long_name(w: &[u8], name: &[u8], buffer: &mut [u8]) -> Result<Ended, Ground>
    ensures { Gave (long_name (window_of w.now) (view name.now) (length buffer.old)) buffer.old
        buffer.new result }
{
    let v = volume::clean(w)?;
    long_name_on(w, v, name, buffer)
}
