// A file along its chain: its clusters and their sectors, its last cluster, and its bytes read into a lent buffer.
#![tactic(auto)]

ghost use Rattle.std.specs.Prelude.{◌≡◌, ◌+◌, ◌*◌, ◌%◌, ◌≤◌, ◌<◌, min, length};
ghost use Rattle.model.specs.Sector.{card_of};
ghost use Rattle.model.specs.Fat.{fat1_of, entry};
ghost use Rattle.model.specs.Chain.{cluster_sector};
ghost use Rattle.model.specs.Promises.{Fits, Held};
ghost use Rattle.operations.specs.Plan.{clusters_of, last_cluster};
ghost use Rattle.operations.specs.Reading.{reading};
ghost use Rattle.fat_chain.specs.Links.{links};
ghost use Rattle.file_read.specs.Files.{Proper, Adjoining, Reaches, bytes_from, Read};
ghost use Rattle.operations.specs.Promises.{Fills};

use model::{File, Layout};

// The cluster n links after k. Every entry that a link can name lies in the window.
#[tactic(auto, using(fat_chain::proofs::Links::links_none, fat_chain::proofs::Links::links_more, fat_chain::proofs::Links::in_window))]
pub fn follow(w: &[u8], l: Layout, k: u32, n: u32) -> u32
    requires { Held l w.now × (k < 65536) }
    ensures { (result ≡ links (entry (fat1_of l (card_of w.now))) n k) × (result < 65536) }
{
    let mut at = k;
    for _i in 0..n {
        at = fat_read::entry_at(w, l.fat1, at);
    }
    at
}

// The last cluster of a file that keeps the chain rule, 0 if it has none.
#[tactic(auto, using(crate::proofs::Laws::last_laws))]
pub fn last_cluster(w: &[u8], l: Layout, f: File) -> u32
    requires { Held l w.now × Proper l (card_of w.now) f }
    ensures { result ≡ last_cluster (clusters_of l (fat1_of l (card_of w.now)) f) }
{
    if f.size == 0 {
        return 0;
    }
    follow(w, l, f.first, fat_chain::clusters_for(l, f.size) - 1)
}

// The sector of a file's 512 bytes number q, in cluster k.
#[tactic(auto, using(operations::proofs::DataStores::in_data))]
pub fn sector_in(l: Layout, k: u32, q: u32) -> u32
    requires { Fits l × (2 ≤ k) × (k < 2 + l.clusters) }
    ensures { (result ≡ cluster_sector l k + q % l.factor) × (l.start ≤ result) × (result < l.total) }
{
    fat_read::cluster_sector(l, k) + q % l.factor
}

// How many sectors of a file, from the one number q on, lie one after another: those of cluster k and of up to n more.
#[tactic(auto, using(crate::proofs::Laws::run_ahead, fat_chain::proofs::Links::links_none))]
fn sectors_ahead(w: &[u8], l: Layout, k: u32, q: u32, n: u32) -> u32
    requires { Held l w.now × Reaches l (entry (fat1_of l (card_of w.now))) k n × (n < 4294967295) }
    ensures { (1 ≤ result) × (result < 8388608) × (cluster_sector l k + q % l.factor + result ≤ l.total)
        × Adjoining l (entry (fat1_of l (card_of w.now))) k q result }
{
    fat_chain::run_length(w, l, k, n + 1) * l.factor - q % l.factor
}

// The bytes of the m sectors from s on, from an offset on, into the buffer from `done` on, up to `count`; and how far the buffer
// is then done.
#[tactic(auto, using(crate::proofs::Laws::read_sectors_is))]
fn read_sectors(
    buffer: &mut [u8],
    w: &[u8],
    s: u32,
    m: u32,
    from: u32,
    done: u32,
    count: u32,
) -> u32
    requires { (512 * (s + m) ≤ length w.now) × (m < 8388608) × (from < 512 * m) × (done ≤ count) × (count ≤ length buffer.old) }
    ensures { Read (bytes_from (card_of w.now) s) (512 * m) from done count buffer.old buffer.new result }
{
    let n = (512 * m - from).min(count - done);
    sector::copy(
        buffer,
        done as usize,
        w,
        512 * s as usize + from as usize,
        n as usize,
    );
    done + n
}

// The bytes of a file that keeps the chain rule, from an offset within it on, as many as the buffer takes; and how many. The
// cluster reached and its number go along; clusters that lie one after another are copied at once.
#[tactic(auto, using(crate::proofs::Laws::within_laws))]
fn read_within(w: &[u8], l: Layout, f: File, offset: u32, buffer: &mut [u8]) -> u32
    requires { Held l w.now × Proper l (card_of w.now) f × (offset < f.size) }
    ensures { Fills (reading l (card_of w.now) f offset (length buffer.old)) buffer.old buffer.new result }
{
    let count = buffer.len().min((f.size - offset) as usize) as u32;
    if count == 0 {
        return 0;
    }
    let last = (offset + count - 1) / 512 / l.factor;
    let mut cluster = f.first;
    let mut index = 0;
    let mut done = 0;
    // Each turn goes on after all the sectors that the turn before copied, so this is no `for`.
    while done < count {
        let at = offset + done;
        let q = at / 512;
        let x = q / l.factor;
        cluster = follow(w, l, cluster, x - index);
        index = x;
        let s = sector_in(l, cluster, q);
        let m = sectors_ahead(w, l, cluster, q, last - x);
        done = read_sectors(buffer, w, s, m, at % 512, done, count);
    }
    count
}

// The same from any offset. Not inlined, so that a call that reads keeps to 512 bytes of stack.
#[inline(never)]
pub fn read_file(w: &[u8], l: Layout, f: File, offset: u64, buffer: &mut [u8]) -> u32
    requires { Held l w.now × Proper l (card_of w.now) f }
    ensures { Fills (reading l (card_of w.now) f offset (length buffer.old)) buffer.old buffer.new result }
{
    if u64::from(f.size) <= offset {
        return 0;
    }
    read_within(w, l, f, offset as u32, buffer)
}
