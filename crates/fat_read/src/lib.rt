// Entries of a FAT: read, classed, counted and sought; the log's run; the two FATs compared.
#![tactic(auto)]

ghost use Rattle.std.specs.Prelude.{◌≡◌, true, false, ◌+◌, ◌-◌, ◌*◌, ◌%◌, ◌≤◌, ◌<◌, min, eqb, length};
ghost use Rattle.model.specs.Bytes.{bytes_of};
ghost use Rattle.model.specs.Scan.{first_from, count_from, nth_from};
ghost use Rattle.model.specs.Sector.{card_of};
ghost use Rattle.model.specs.Fat.{fat_at, fat1_of, entry, class, fats_agree};
ghost use Rattle.model.specs.Chain.{cluster_sector};
ghost use Rattle.model.specs.Promises.{Number, Fits, Held};
ghost use Rattle.fat_read.specs.Located.{holds, lacks, located, Locates};

use model::{Area, Class, Layout};

#[tactic(auto, unfolding(model::specs::Bytes::le))]
fn pair(w: &[u8], at: usize) -> u32
    requires { at + 2 ≤ length w.now }
    ensures { Number 2 (bytes_of w.now) at result }
{
    u32::from(w[at]) + 256 * u32::from(w[at + 1])
}

// Entry k of the FAT that begins at a sector.
#[tactic(auto, using(crate::proofs::Laws::flat))]
pub fn entry_at(w: &[u8], fat: u32, k: u32) -> u32
    requires { 512 * fat + 2 * (k + 1) ≤ length w.now }
    ensures { (result ≡ entry (fat_at (card_of w.now) fat) k) × (result < 65536) }
{
    pair(w, 512 * fat as usize + 2 * k as usize)
}

#[tactic(auto, unfolding(model::specs::Fat::class, model::specs::Fat::in_range, model::specs::Fat::is_end, model::specs::Scan::between))]
pub fn classify(l: Layout, v: u32) -> Class
    requires { l.clusters ≤ 65524 }
    ensures { result ≡ class l v }
{
    match v {
        0 => Class::Free,
        0xFFF6 => Class::Reserved,
        0xFFF7 => Class::Bad,
        0xFFF8..=0xFFFF => Class::End,
        2..=0xFFF5 if v <= l.clusters + 1 => Class::Next,
        _ => Class::Other,
    }
}

// The mark of the log.
#[tactic(auto, unfolding(model::specs::Fat::class, model::specs::Fat::in_range, model::specs::Fat::is_end, model::specs::Scan::between))]
fn is_reserved(l: Layout, v: u32) -> bool
    requires { l.clusters ≤ 65524 }
    ensures { result ≡ eqb v 0xFFF6 }
{
    classify(l, v) == Class::Reserved
}

// The first sector of cluster k.
#[tactic(auto, using(crate::proofs::Runs::product, crate::proofs::Runs::on_card), unfolding(model::specs::Chain::cluster_sector))]
pub fn cluster_sector(l: Layout, k: u32) -> u32
    requires { Fits l × (2 ≤ k) × (k ≤ l.clusters + 1) }
    ensures { (result ≡ cluster_sector l k) × (l.start ≤ result) × (result + l.factor ≤ l.total) }
{
    l.start + (k - 2) * l.factor
}

// How many of the n entries from k on hold v. The count is as wide as an entry: so the compiler counts eight entries at once.
pub fn count_entries(w: &[u8], fat: u32, k: u32, n: u32, v: u32) -> u32
    requires { (512 * fat + 2 * (k + n) ≤ length w.now) × (n < 65536) }
    ensures { (result ≡ count_from (holds v (fat_at (card_of w.now) fat)) k n) × (result ≤ n) }
{
    let at = 512 * fat as usize + 2 * k as usize;
    let mut found: u16 = 0;
    for i in 0..n as usize {
        if pair(w, at + 2 * i) == v {
            found += 1;
        }
    }
    u32::from(found)
}

// Whether one of the 256 entries from k on holds v. The loop has no way out but its end: so the compiler compares eight entries
// at once.
fn is_among(w: &[u8], fat: u32, k: u32, v: u32) -> bool
    requires { 512 * fat + 2 * (k + 256) ≤ length w.now }
    ensures { result ≡ false → count_from (holds v (fat_at (card_of w.now) fat)) k 256 ≡ 0 }
{
    let at = 512 * fat as usize + 2 * k as usize;
    let mut seen = false;
    for i in 0..256 {
        seen |= pair(w, at + 2 * i) == v;
    }
    seen
}

// Whether a whole sector of the FAT begins at entry k, below the end, and holds no v.
fn is_bare(w: &[u8], fat: u32, k: u32, end: u32, v: u32) -> bool
    requires { (k ≤ end) × (512 * fat + 2 * end ≤ length w.now) }
    ensures { result ≡ true → (k + 256 ≤ end) × (count_from (holds v (fat_at (card_of w.now) fat)) k 256 ≡ 0) }
{
    k % 256 == 0 && 256 <= end - k && !is_among(w, fat, k, v)
}

// The first entry from k on that holds v, or the end. A sector that holds none is passed over whole, so this is no `for`.
pub fn find_entry(w: &[u8], fat: u32, k: u32, n: u32, v: u32) -> u32
    requires { (k + n < 4294967296) × (512 * fat + 2 * (k + n) ≤ length w.now) }
    ensures { (result ≡ first_from (holds v (fat_at (card_of w.now) fat)) k n) × (k ≤ result) × (result ≤ k + n) }
{
    let end = k + n;
    let mut i = k;
    while i < end {
        if is_bare(w, fat, i, end, v) {
            i += 256;
            continue;
        }
        if entry_at(w, fat, i) == v {
            return i;
        }
        i += 1;
    }
    end
}

// How many entries from k on, below the end, lie in one sector of the FAT.
fn sector_left(k: u32, end: u32) -> u32
    requires { k < end }
    ensures { result ≡ min (256 - k % 256) (end - k) }
{
    (256 - k % 256).min(end - k)
}

// The m-th entry from k on that holds v, or the end: entry by entry.
fn pass_entries(w: &[u8], fat: u32, k: u32, n: u32, v: u32, m: u32) -> u32
    requires { (k + n < 4294967296) × (512 * fat + 2 * (k + n) ≤ length w.now) × (1 ≤ m) }
    ensures { result ≡ nth_from (holds v (fat_at (card_of w.now) fat)) k n m }
{
    let end = k + n;
    let mut left = m;
    for i in k..end {
        if entry_at(w, fat, i) == v {
            if left == 1 {
                return i;
            }
            left -= 1;
        }
    }
    end
}

// The same, sector by sector: one that holds too few is passed over by its count, and no sector is read after the one that has it.
// The first step may be shorter, from the middle of a sector to its end, so this is no `for`.
pub fn find_nth(w: &[u8], fat: u32, k: u32, n: u32, v: u32, m: u32) -> u32
    requires { (k + n < 4294967296) × (512 * fat + 2 * (k + n) ≤ length w.now) × (1 ≤ m) }
    ensures { result ≡ nth_from (holds v (fat_at (card_of w.now) fat)) k n m }
{
    let end = k + n;
    let mut i = k;
    let mut left = m;
    while i < end {
        let size = sector_left(i, end);
        let found = count_entries(w, fat, i, size, v);
        if left <= found {
            return pass_entries(w, fat, i, size, v, left);
        }
        left -= found;
        i += size;
    }
    end
}

// The first entry from k on that is not reserved, or the end.
fn find_other(w: &[u8], l: Layout, k: u32, n: u32) -> u32
    requires { (l.clusters ≤ 65524) × (k + n < 4294967296) × (512 * l.fat1 + 2 * (k + n) ≤ length w.now) }
    ensures { (result ≡ first_from (lacks 0xFFF6 (fat1_of l (card_of w.now))) k n) × (k ≤ result) × (result ≤ k + n) }
{
    let end = k + n;
    for i in k..end {
        if !is_reserved(l, entry_at(w, l.fat1, i)) {
            return i;
        }
    }
    end
}

// The log, in one pass: the first cluster marked, the end of its run, and none marked after it.
#[tactic(auto, using(crate::proofs::Runs::nothing, crate::proofs::Runs::too_long, crate::proofs::Runs::product))]
pub fn locate(w: &[u8], l: Layout) -> Option<Area>
    requires { Held l w.now }
    ensures { (result ≡ located l (fat1_of l (card_of w.now))) × Locates l result }
{
    let end = l.clusters + 2;
    let start = find_entry(w, l.fat1, 2, l.clusters, 0xFFF6);
    let stop = find_other(w, l, start, end - start);
    let size = stop - start;
    if size == 0 {
        return None;
    }
    let sectors = size * l.factor;
    if 128 < sectors {
        return None;
    }
    if find_entry(w, l.fat1, stop, end - stop, 0xFFF6) < end {
        return None;
    }
    Some(Area {
        sector: cluster_sector(l, start),
        sectors,
    })
}

// Whether the two FATs hold the same bytes.
pub fn agree(w: &[u8], l: Layout) -> bool
    requires { Held l w.now }
    ensures { result ≡ fats_agree l (card_of w.now) }
{
    (0..l.fatsize).all(|s| !sector::differs(w, l.fat1 + s, l.fat2 + s))
}
