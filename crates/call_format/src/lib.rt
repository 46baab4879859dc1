// Format: a fresh card, whatever the window holds.
#![tactic(auto)]

ghost use Rattle.std.specs.Prelude.{◌≡◌, true, ◌&&◌, [], ◌∷◌, ℕ, ◌+◌, ◌*◌, ◌≤◌, ◌<◌, leb, length, get_or};
ghost use Rattle.model.specs.Bytes.{bytes_of, zeros, patch};
ghost use Rattle.model.specs.Sector.{window_of, store};
ghost use Rattle.model.specs.Boot.{fields_ok};
ghost use Rattle.model.specs.Log.{most_sectors};
ghost use Rattle.model.specs.Promises.{Held, Spent};
ghost use Rattle.formatting.specs.Fresh.{with_fats, fewest, total_at_19, total_at_32, fresh_boot, fresh_entry, fresh_fat};
ghost use Rattle.formatting.specs.Format.{fresh_table, fresh_tables, format};
ghost use Rattle.call_outcome.specs.Did.{Did};
ghost use Rattle.call_format.specs.Formed.{formed, fields_in, with_marks, with_sizes, with_shape, rest_stores};

use model::{Ended, Fields, Ground, Layout, Stopped};
use sector_build::put;

// The numbers of a fresh card with FATs of so many sectors.
fn with_fats(total: u32, factor: u32, fatsize: u32) -> Fields
    ensures { result ≡ with_fats total factor fatsize }
{
    Fields {
        factor,
        reserved: 1,
        fatsize,
        entries: 512,
        total,
    }
}

// The fewest sectors of a FAT that hold an entry for each cluster, and two more.
fn fewest(total: u32, factor: u32) -> u32
    requires { fields_ok (with_fats total factor 1) ≡ true }
    ensures { result ≡ fewest total factor }
{
    for n in 1..65535 {
        if boot::fat_holds(with_fats(total, factor, n)) {
            return n;
        }
    }
    65535
}

// Whether a log may have n clusters.
fn is_log(n: u32, factor: u32) -> bool
    requires { (1 ≤ factor) × (factor ≤ 64) }
    ensures { result ≡ (leb 1 n && leb (n * factor) most_sectors) }
{
    1 <= n && n <= 128 && n * factor <= 128
}

// The layout of the fresh card with these numbers, if there is one.
fn formed(total: u32, factor: u32, n: u32) -> Option<Layout>
    ensures { result ≡ formed total factor n }
{
    if !boot::is_plain(with_fats(total, factor, 1)) || !is_log(n, factor) {
        return None;
    }
    boot::arranged(with_fats(total, factor, fewest(total, factor)))
}

// ---- the boot sector

// What stands at 19 and at 32 of a card of so many sectors.
fn total_at_19(total: u32) -> u64
    ensures { result ≡ total_at_19 total }
{
    if total < 65536 { u64::from(total) } else { 0 }
}

fn total_at_32(total: u32) -> u64
    ensures { result ≡ total_at_32 total }
{
    if total < 65536 { 0 } else { u64::from(total) }
}

// Media byte, jump and signature.
fn put_marks(buf: &mut [u8])
    requires { length buf.old ≡ 512 }
    ensures { bytes_of buf.new ≡ with_marks (bytes_of buf.old) }
{
    put(buf, 21, 1, 0xF8);
    put(buf, 0, 3, 0x903CEB);
    put(buf, 510, 2, 0xAA55);
}

// Total sectors and sectors per FAT.
fn put_sizes(buf: &mut [u8], total: u32, fatsize: u32)
    requires { length buf.old ≡ 512 }
    ensures { bytes_of buf.new ≡ with_sizes total fatsize (bytes_of buf.old) }
{
    put(buf, 32, 4, total_at_32(total));
    put(buf, 22, 2, u64::from(fatsize));
    put(buf, 19, 2, total_at_19(total));
}

// Root entries, FATs, reserved sectors, sectors per cluster and bytes per sector.
fn put_shape(buf: &mut [u8], factor: u32)
    requires { length buf.old ≡ 512 }
    ensures { bytes_of buf.new ≡ with_shape factor (bytes_of buf.old) }
{
    put(buf, 17, 2, 512);
    put(buf, 16, 1, 2);
    put(buf, 14, 2, 1);
    put(buf, 13, 1, u64::from(factor));
    put(buf, 11, 2, 512);
}

// The store of the boot sector of a fresh layout.
fn store_boot(w: &mut [u8], l: Layout, limit: &mut u32) -> Result<(), Stopped>
    requires { 512 ≤ length w.old }
    ensures { Spent limit.old limit.new (store 0 (fresh_boot (fields_in l)) ∷ []) w.old w.new result }
{
    let mut buf = [0u8; 512];
    put_marks(&mut buf);
    put_sizes(&mut buf, l.total, l.fatsize);
    put_shape(&mut buf, l.factor);
    sector::store_sector(w, 0, &buf, limit)
}

// ---- the FATs, the root and the log

// Entry k of a fresh FAT with a log of n clusters.
#[tactic(auto, unfolding(formatting::specs::Fresh::fresh_entry, formatting::specs::Fresh::log_mark))]
fn fresh_entry(n: u32, k: u32) -> u64
    requires { n ≤ 128 }
    ensures { (result ≡ fresh_entry n k) × (result < 65536) }
{
    match k {
        0 => 0xFFF8,
        1 => 0xFFFF,
        _ if k < 2 + n => 0xFFF6,
        _ => 0,
    }
}

// Its first sector, into a buffer.
fn fill_fat(buf: &mut [u8], n: u32)
    requires { (length buf.old ≡ 512) × (n ≤ 128) }
    ensures { (j : ℕ) → j < 512 → get_or buf.new j 0 ≡ fresh_fat n 0 j }
{
    for k in 0..256 {
        put(buf, 2 * k, 2, fresh_entry(n, k as u32));
    }
}

// The store of it as a sector.
fn store_fat(w: &mut [u8], s: u32, n: u32, limit: &mut u32) -> Result<(), Stopped>
    requires { (512 * s + 512 ≤ length w.old) × (n ≤ 128) }
    ensures { Spent limit.old limit.new (store s (fresh_fat n 0) ∷ []) w.old w.new result }
{
    let mut buf = [0u8; 512];
    fill_fat(&mut buf, n);
    sector::store_sector(w, s, &buf, limit)
}

// The store of sector k after the boot sector: the FATs' first have the marks, all others are zero.
fn store_table(w: &mut [u8], l: Layout, n: u32, k: u32, limit: &mut u32) -> Result<(), Stopped>
    requires { Held l w.old × (l.fat1 + k < l.total) × (n ≤ 128) }
    ensures { Spent limit.old limit.new (store (l.fat1 + k) (fresh_table l n k) ∷ []) w.old w.new result }
{
    if k == 0 || k == l.fatsize {
        return store_fat(w, l.fat1 + k, n, limit);
    }
    sector::store_zeros(w, l.fat1 + k, limit)
}

// All of them, up to the log's last sector.
fn store_tables(w: &mut [u8], l: Layout, n: u32, limit: &mut u32) -> Result<(), Stopped>
    requires { Held l w.old × (n ≤ 128) }
    ensures { Spent limit.old limit.new (fresh_tables l n) w.old w.new result }
{
    for k in 0..l.start - l.fat1 + n * l.factor {
        store_table(w, l, n, k, limit)?;
    }
    Ok(())
}

// ---- the call

// A boot sector of zeros, the tables, then the true boot sector.
fn store_card(w: &mut [u8], l: Layout, n: u32, limit: &mut u32) -> Result<(), Stopped>
    requires { Held l w.old × (n ≤ 128) }
    ensures { Spent limit.old limit.new (store 0 zeros ∷ rest_stores l n) w.old w.new result }
{
    sector::store_zeros(w, 0, limit)?;
    store_tables(w, l, n, limit)?;
    store_boot(w, l, limit)
}

pub fn format(w: &mut [u8], total: u32, factor: u32, n: u32, limit: u32) -> Result<Ended, Ground>
    ensures { Did limit (format (window_of w.old) total factor n) w.old w.new result }
{
    let l = formed(total, factor, n).ok_or(Ground::Size)?;
    if w.len() < 512 * total as usize {
        return Err(Ground::Window);
    }
    let mut left = limit;
    let stored = store_card(w, l, n, &mut left);
    Ok(call_outcome::ended(stored, limit - left))
}
