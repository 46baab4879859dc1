// An append's first step: the data sectors that get new bytes; how many clusters an append takes, and the first of them.
#![tactic(auto)]

ghost use Rattle.std.specs.Prelude.{◌≡◌, true, [], ◌∷◌, ◌+◌, ◌-◌, ◌*◌, ◌/◌, ◌≤◌, ◌<◌, min, length};
ghost use Rattle.model.specs.Bytes.{bytes_of, view};
ghost use Rattle.model.specs.Sector.{card_of, clip};
ghost use Rattle.model.specs.Fat.{fat1_of, free_clusters};
ghost use Rattle.model.specs.Promises.{Fits, Held, Spent};
ghost use Rattle.operations.specs.Plan.{clusters_of, last_cluster, appended, append_sector, added};
ghost use Rattle.file_append.specs.Extents.{append_data, Room, first_new, moved};

use model::{File, Layout, Stopped};

// Where an append stands: the cluster reached, how many of the file's clusters are passed, that one among them, and where
// the search for the next free one begins.
#[derive(Clone, Copy)]
pub struct Cursor {
    pub cluster: u32,
    pub passed: u32,
    pub from: u32,
}

// How many clusters an append of n bytes takes, however many bytes those are.
pub fn added_clusters(l: Layout, f: File, n: usize) -> u64
    requires { Fits l }
    ensures { result ≡ added l f n }
{
    let bytes = 512 * l.factor as usize;
    let spare = fat_chain::clusters_for(l, f.size) as usize * bytes - f.size as usize;
    if n <= spare {
        return 0;
    }
    fat_chain::clusters_needed(l, (n - spare) as u64)
}

// The first of n new clusters, 0 if there is none.
pub fn first_new(w: &[u8], l: Layout, n: u32) -> u32
    requires { Held l w.now × (n ≤ length (free_clusters l (fat1_of l (card_of w.now)))) }
    ensures { result ≡ first_new l (card_of w.now) n }
{
    if n == 0 {
        return 0;
    }
    fat_chain::next_free(w, l, 2)
}

// How many of the 512 bytes from an offset on lie below n.
fn below(n: usize, at: usize) -> usize
    ensures { result ≡ min 512 (n - at) }
{
    n.saturating_sub(at).min(512)
}

// How many sectors n bytes take.
fn sectors_for(n: usize) -> u32
    requires { n < 4294967296 }
    ensures { result ≡ (n + 511) / 512 }
{
    n.div_ceil(512) as u32
}

// Sector q of a file of `size` bytes, which is sector s of the card, once the new bytes are appended: old bytes, new ones, zeros.
fn build(buf: &mut [u8; 512], w: &[u8], s: u32, size: u32, new: &[u8], q: u32)
    requires { (512 * s + 512 ≤ length w.now) × (size < 512 * q + 512) × (512 * q < size + length new.now) × (size + length new.now < 4294967296) }
    ensures { clip (bytes_of buf.new) ≡ clip (appended (card_of w.now s) size (view new.now) q) }
{
    let at = 512 * q as usize;
    let old = size as usize;
    let a = below(old, at);
    let b = below(old + new.len(), at);
    buf[..a].copy_from_slice(&sector::bytes(w, s)[..a]);
    buf[a..b].copy_from_slice(&new[at + a - old..at + b - old]);
    buf[b..].fill(0);
}

// Whether sector q of a file of `size` bytes is filled by n bytes appended, all 512 of its bytes being new.
fn is_filled(size: u32, n: usize, q: u32) -> bool
    requires { size + n < 4294967296 }
    ensures { result ≡ true → (size ≤ 512 * q) × (512 * q + 512 ≤ size + n) }
{
    let at = 512 * q as usize;
    let old = size as usize;
    old <= at && at + 512 <= old + n
}

// Stores that sector, if the limit allows a store: one that is filled straight from the new bytes.
fn append_sector(
    w: &mut [u8],
    s: u32,
    size: u32,
    new: &[u8],
    q: u32,
    limit: &mut u32,
) -> Result<(), Stopped>
    requires { (512 * s + 512 ≤ length w.old) × (size < 512 * q + 512) × (512 * q < size + length new.now) × (size + length new.now < 4294967296) }
    ensures { Spent limit.old limit.new (append_sector (card_of w.old) s size (view new.now) q ∷ []) w.old w.new result }
{
    if is_filled(size, new.len(), q) {
        let from = 512 * q as usize - size as usize;
        return sector::store_sector(w, s, &new[from..from + 512], limit);
    }
    let mut buf = [0u8; 512];
    build(&mut buf, w, s, size, new, q);
    sector::store_sector(w, s, &buf, limit)
}

// The cursor at cluster number x of the file.
fn advance(w: &[u8], l: Layout, p: Cursor, x: u32) -> Cursor
    requires { Held l w.now × (p.from ≤ l.clusters + 2) × (x < 4294967295) }
    ensures { result ≡ moved l (fat1_of l (card_of w.now)) p x }
{
    if x < p.passed {
        return p;
    }
    let cluster = fat_chain::next_free(w, l, p.from);
    Cursor {
        cluster,
        passed: p.passed + 1,
        from: cluster + 1,
    }
}

// The data sectors that get new bytes, by rising file offset. The file's last cluster is given; the new ones are sought
// once each, on the way.
pub fn append_data(
    w: &mut [u8],
    l: Layout,
    f: File,
    last: u32,
    new: &[u8],
    limit: &mut u32,
) -> Result<(), Stopped>
    requires { Held l w.old × Room l (card_of w.old) f (length new.now) × (last ≡ last_cluster (clusters_of l (fat1_of l (card_of w.old)) f)) }
    ensures { Spent limit.old limit.new (append_data l (card_of w.old) f (view new.now)) w.old w.new result }
{
    let mut p = Cursor {
        cluster: last,
        passed: fat_chain::clusters_for(l, f.size),
        from: 2,
    };
    for q in f.size / 512..sectors_for(f.size as usize + new.len()) {
        p = advance(w, l, p, q / l.factor);
        let s = file_read::sector_in(l, p.cluster, q);
        append_sector(w, s, f.size, new, q, limit)?;
    }
    Ok(())
}
