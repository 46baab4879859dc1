// Renewal: FAT2 with the lowest free clusters linked after the last one kept, and the end of a chain freed, in one pass.
#![tactic(auto)]

ghost use Rattle.std.specs.Prelude.{◌≡◌, false, ℕ, ◌+◌, ◌*◌, ◌/◌, ◌%◌, ◌≤◌, ◌<◌, length, get_or, take};
ghost use Rattle.model.specs.Sector.{card_of};
ghost use Rattle.model.specs.Fat.{entry, fat1_of, fat2_of, free_clusters, link, write_fat};
ghost use Rattle.model.specs.Chain.{chain};
ghost use Rattle.model.specs.Promises.{Held, Spent};
ghost use Rattle.fat_copy.specs.Change.{lead, own_fat, renewal};
ghost use Rattle.fat_release.specs.Release.{cut, cleared, mark_of, Inside};
ghost use Rattle.fat_write.specs.Allocate.{grown, news, following, NextNew, Above, Moved};
ghost use Rattle.fat_write.specs.Renew.{renewed, passed, exchanged};

use model::{Layout, Stopped};

// The new clusters that are still to be linked: the next one, and how many.
#[derive(Clone, Copy)]
pub struct New {
    pub at: u32,
    pub left: u32,
}

// What new cluster `at` leads to: the next, or the end where it is the last.
fn next_new(w: &[u8], l: Layout, at: u32, left: u32) -> u32
    requires { Held l w.now × (at < l.clusters + 2) }
    ensures { (result ≡ following l (own_fat l w.now) at left) × (result < 65536) }
{
    if left == 1 {
        return 0xFFFF;
    }
    fat_read::find_entry(w, l.fat1, at + 1, l.clusters + 1 - at, 0)
}

// Fills a buffer with sector s of FAT1, with `last` leading to `first` and the new clusters in it linked.
fn link_sector(w: &[u8], l: Layout, s: u32, last: u32, first: u32, next: &mut New, buf: &mut [u8])
    requires { Held l w.now × (s < l.fatsize) × (first < 65536) × NextNew l (own_fat l w.now) next.old.at next.old.left
        × Above s next.old.at next.old.left × (length buf.old ≡ 512) }
    ensures { ((j : ℕ) → j < 512
        → get_or buf.new j 0 ≡ link (news l (own_fat l w.now) next.old.at next.old.left) (lead last first (own_fat l w.now)) s j)
        × Moved l (own_fat l w.now) (s + 1) next.old.at next.old.left next.new.at next.new.left × Above (s + 1) next.new.at next.new.left }
{
    let end = 256 * (s + 1);
    fat_copy::load_leading(buf, w, l.fat1, s, last, first);
    // From one new cluster to the next, as far as they lie in this sector.
    while 0 < next.left && next.at < end {
        let k = next.at;
        next.at = next_new(w, l, k, next.left);
        next.left -= 1;
        fat_copy::put_entry(buf, k, next.at);
    }
}

// Whether sector s may hold `last`, a new cluster or, by the marks, a freed one.
fn is_changed(marks: &[u8], s: u32, last: u32, next: New) -> bool
    requires { length marks.now % 1024 ≡ 0 }
    ensures { result ≡ false → (s ≡ last / 256 → ⊥) × (0 < next.left → s ≡ next.at / 256 → ⊥)
        × ((i : ℕ) → i < 256 → mark_of marks.now (256 * (s % 32) + i) ≡ 0) }
{
    last / 256 == s
        || (0 < next.left && next.at / 256 == s)
        || fat_release::has_mark(marks, 256 * (s % 32) as usize)
}

// Sector s of FAT2, from FAT1's: `last` leads to `value`, the new clusters in it are linked, the marked ones freed. One with no
// entry to change becomes FAT1's.
fn renew_sector(
    w: &mut [u8],
    l: Layout,
    s: u32,
    last: u32,
    value: u32,
    next: &mut New,
    marks: &[u8],
    limit: &mut u32,
) -> Result<(), Stopped>
    requires { Held l w.old × (s < l.fatsize) × (value < 65536) × NextNew l (own_fat l w.old) next.old.at next.old.left
        × Above s next.old.at next.old.left × (length marks.now % 1024 ≡ 0) }
    ensures { Spent limit.old limit.new
        (renewal (l.fat2 + s)
        (cleared marks.now (link (news l (own_fat l w.old) next.old.at next.old.left) (lead last value (own_fat l w.old))) s)
        (card_of w.old (l.fat2 + s))) w.old w.new result
        × Moved l (own_fat l w.old) (s + 1) next.old.at next.old.left next.new.at next.new.left × Above (s + 1) next.new.at next.new.left }
{
    if !is_changed(marks, s, last, *next) {
        return fat_copy::copy_changed(w, l.fat1 + s, l.fat2 + s, limit);
    }
    let mut buf = [0u8; 512];
    link_sector(w, l, s, last, value, next, &mut buf);
    fat_release::clear_marked(&mut buf, marks, 256 * (s % 32) as usize);
    fat_copy::store_changed(w, l.fat2 + s, &buf, limit)
}

// All of FAT2: `last` leads to `value`, the new clusters are linked, and the m clusters from `old` on freed (numbers, as `passed` takes
// them). The marks of freed clusters need 1 KiB; none where nothing is freed.
fn renew_all(
    w: &mut [u8],
    l: Layout,
    last: u32,
    value: u32,
    new: New,
    old: u32,
    m: u32,
    marks: &mut [u8],
    limit: &mut u32,
) -> Result<(), Stopped>
    requires held { Held l w.old × (value < 65536) × NextNew l (own_fat l w.old) new.at new.left × Inside l (chain (entry (own_fat l w.old)) m old) }
    requires marks_len { (length marks.old % 1024 ≡ 0) × (0 < m → length marks.old ≡ 1024) }
    ensures { Spent limit.old limit.new (write_fat l l.fat2 (passed l (own_fat l w.old) last value new.at new.left m old) (fat2_of l (card_of w.old)))
        w.old w.new result }
{
    let mut next = new;
    for s in 0..l.fatsize {
        fat_release::mark_block(w, l, marks, s, old, m);
        renew_sector(w, l, s, last, value, &mut next, marks, limit)?;
    }
    Ok(())
}

// Where nothing is new: the m clusters from `old` on are freed; the last one kept is `last`, 0 if there is none.
fn free_clusters(
    w: &mut [u8],
    l: Layout,
    last: u32,
    old: u32,
    m: u32,
    marks: &mut [u8],
    limit: &mut u32,
) -> Result<(), Stopped>
    requires held { Held l w.old × Inside l (chain (entry (fat1_of l (card_of w.old))) m old) }
    requires marks_len { (length marks.old % 1024 ≡ 0) × (0 < m → length marks.old ≡ 1024) }
    ensures { Spent limit.old limit.new (write_fat l l.fat2 (cut (fat1_of l (card_of w.old)) last old m) (fat2_of l (card_of w.old)))
        w.old w.new result }
{
    let none = New { at: 0, left: 0 };
    if m == 0 {
        return renew_all(w, l, 0, 0, none, 0, 0, marks, limit);
    }
    renew_all(w, l, last, 0xFFFF, none, old, m, marks, limit)
}

// Step 2 of any change of a file's clusters: the sectors of FAT2 that change when the n lowest free clusters are linked after
// `last`, the last one kept (0 if there is none), and the m clusters from `old` on are freed.
fn renew_fat(
    w: &mut [u8],
    l: Layout,
    last: u32,
    n: u32,
    old: u32,
    m: u32,
    marks: &mut [u8],
    limit: &mut u32,
) -> Result<(), Stopped>
    requires held { Held l w.old × (n ≤ length (free_clusters l (fat1_of l (card_of w.old)))) × Inside l (chain (entry (fat1_of l (card_of w.old))) m old) }
    requires marks_len { (length marks.old % 1024 ≡ 0) × (0 < m → length marks.old ≡ 1024) }
    ensures { Spent limit.old limit.new
        (write_fat l l.fat2
        (renewed last (take n (free_clusters l (fat1_of l (card_of w.old)))) (chain (entry (fat1_of l (card_of w.old))) m old)
        (fat1_of l (card_of w.old))) (fat2_of l (card_of w.old))) w.old w.new result }
{
    if n == 0 {
        return free_clusters(w, l, last, old, m, marks, limit);
    }
    let first = fat_read::find_entry(w, l.fat1, 2, l.clusters, 0);
    let new = New { at: first, left: n };
    renew_all(w, l, last, first, new, old, m, marks, limit)
}

// Step 2 of a truncate or a delete, where nothing is new: the sectors of FAT2 that change when the m clusters from `old` on are
// freed; the last one kept is `last`, 0 if there is none.
pub fn shorten_fat(
    w: &mut [u8],
    l: Layout,
    last: u32,
    old: u32,
    m: u32,
    limit: &mut u32,
) -> Result<(), Stopped>
    requires { Held l w.old × Inside l (chain (entry (fat1_of l (card_of w.old))) m old) }
    ensures { Spent limit.old limit.new (write_fat l l.fat2 (cut (fat1_of l (card_of w.old)) last old m) (fat2_of l (card_of w.old)))
        w.old w.new result }
{
    let mut marks = [0u8; 1024];
    free_clusters(w, l, last, old, m, &mut marks, limit)
}

// Step 2 of an append, where nothing is freed: the sectors of FAT2 that change when the n lowest free clusters are linked after
// `last`, 0 if the file has no cluster.
pub fn extend_fat(
    w: &mut [u8],
    l: Layout,
    last: u32,
    n: u32,
    limit: &mut u32,
) -> Result<(), Stopped>
    requires { Held l w.old × (n ≤ length (free_clusters l (fat1_of l (card_of w.old)))) }
    ensures { Spent limit.old limit.new (write_fat l l.fat2 (grown l (fat1_of l (card_of w.old)) last n) (fat2_of l (card_of w.old)))
        w.old w.new result }
{
    renew_fat(w, l, last, n, 0, 0, &mut [], limit)
}

// Step 2 of a replace, where no cluster is kept: the sectors of FAT2 that change when the n lowest free clusters are linked among
// themselves, and the m clusters from `old` on are freed.
pub fn exchange_fat(
    w: &mut [u8],
    l: Layout,
    n: u32,
    old: u32,
    m: u32,
    limit: &mut u32,
) -> Result<(), Stopped>
    requires { Held l w.old × (n ≤ length (free_clusters l (fat1_of l (card_of w.old)))) × Inside l (chain (entry (fat1_of l (card_of w.old))) m old) }
    ensures { Spent limit.old limit.new (write_fat l l.fat2 (exchanged l (fat1_of l (card_of w.old)) n old m) (fat2_of l (card_of w.old)))
        w.old w.new result }
{
    let mut marks = [0u8; 1024];
    renew_fat(w, l, 0, n, old, m, &mut marks, limit)
}
