// Chains of clusters along FAT1, and the clusters that are free there.
#![tactic(auto)]

ghost use Rattle.std.specs.Prelude.{◌≡◌, ◌+◌, ◌-◌, ◌≤◌, ◌<◌, length};
ghost use Rattle.model.specs.Scan.{first_from, nth_from};
ghost use Rattle.model.specs.Sector.{card_of};
ghost use Rattle.model.specs.Fat.{fat1_of, entry, in_range, is_end, free_clusters};
ghost use Rattle.model.specs.Chain.{needed, ends_after, keeps_chain};
ghost use Rattle.model.specs.Promises.{Fits, Held};
ghost use Rattle.fat_read.specs.Located.{holds};
ghost use Rattle.fat_chain.specs.Links.{Adjacent};

use model::{Class, Layout};

// A cluster of the card.
#[tactic(auto, unfolding(model::specs::Fat::class, model::specs::Fat::in_range, model::specs::Fat::is_end, model::specs::Scan::between))]
fn is_inside(l: Layout, k: u32) -> bool
    requires { l.clusters ≤ 65524 }
    ensures { result ≡ in_range l k }
{
    fat_read::classify(l, k) == Class::Next
}

// A value that ends a chain.
#[tactic(auto, unfolding(model::specs::Fat::class, model::specs::Fat::in_range, model::specs::Fat::is_end, model::specs::Scan::between))]
fn is_end(l: Layout, v: u32) -> bool
    requires { l.clusters ≤ 65524 }
    ensures { result ≡ is_end v }
{
    fat_read::classify(l, v) == Class::End
}

// The clusters that so many bytes need, whatever their number.
#[tactic(auto, using(crate::proofs::Laws::needed_ceil))]
pub fn clusters_needed(l: Layout, bytes: u64) -> u64
    requires { Fits l }
    ensures { result ≡ needed l bytes }
{
    bytes.div_ceil(512 * u64::from(l.factor))
}

// Those that a file's size needs, by the same rule: a function of its own, in 32 bits, by which reading keeps to its 512 bytes of stack.
#[tactic(auto, using(crate::proofs::Laws::needed_ceil))]
pub fn clusters_for(l: Layout, size: u32) -> u32
    requires { Fits l }
    ensures { result ≡ needed l size }
{
    size.div_ceil(512 * l.factor)
}

// How many clusters from k on lie one after another on the card, each linked to the next: at least 1, at most n.
pub fn run_length(w: &[u8], l: Layout, k: u32, n: u32) -> u32
    requires { Held l w.now × (k < 65536) × (1 ≤ n) }
    ensures { (1 ≤ result) × (result ≤ n) × (k + result ≤ 65536) × Adjacent (entry (fat1_of l (card_of w.now))) k result }
{
    for m in 1..n {
        if fat_read::entry_at(w, l.fat1, k + m - 1) != k + m {
            return m;
        }
    }
    n
}

// The n clusters from the first on are within range, and the last holds an end value. Clusters that lie one after another are
// passed at once: the processor need not wait for one entry to know where the next is. So a turn takes a run, and this is no `for`.
fn ends(w: &[u8], l: Layout, first: u32, n: u32) -> bool
    requires { Held l w.now }
    ensures { result ≡ ends_after l (entry (fat1_of l (card_of w.now))) n first }
{
    let mut k = first;
    let mut left = n;
    while 0 < left {
        if !is_inside(l, k) {
            return false;
        }
        let m = run_length(w, l, k, left);
        let last = k + m - 1;
        if !is_inside(l, last) {
            return false;
        }
        k = fat_read::entry_at(w, l.fat1, last);
        if left == m {
            return is_end(l, k);
        }
        left -= m;
    }
    false
}

// The chain rule for a file with this first cluster and size. A chain has no more clusters than the card, so that a size
// that needs more is refused without a walk.
pub fn keeps(w: &[u8], l: Layout, first: u32, size: u32) -> bool
    requires { Held l w.now }
    ensures { result ≡ keeps_chain l (entry (fat1_of l (card_of w.now))) first size }
{
    if size == 0 {
        return first == 0;
    }
    let n = clusters_for(l, size);
    n <= l.clusters && ends(w, l, first, n)
}

// How many clusters are free.
pub fn count_free(w: &[u8], l: Layout) -> u32
    requires { Held l w.now }
    ensures { (result ≡ length (free_clusters l (fat1_of l (card_of w.now)))) × (result ≤ l.clusters) }
{
    fat_read::count_entries(w, l.fat1, 2, l.clusters, 0)
}

// The first free cluster from k on; past the last one where there is none.
pub fn next_free(w: &[u8], l: Layout, k: u32) -> u32
    requires { Held l w.now × (k ≤ l.clusters + 2) }
    ensures { (result ≡ first_from (holds 0 (fat1_of l (card_of w.now))) k (l.clusters + 2 - k)) × (k ≤ result) × (result ≤ l.clusters + 2) }
{
    fat_read::find_entry(w, l.fat1, k, l.clusters + 2 - k, 0)
}

// The n-th free cluster, the lowest being number 1; past the last one where fewer are free. No sector of FAT1 is read after the one
// that has it.
pub fn nth_free(w: &[u8], l: Layout, n: u32) -> u32
    requires { Held l w.now × (1 ≤ n) }
    ensures { result ≡ nth_from (holds 0 (fat1_of l (card_of w.now))) 2 l.clusters n }
{
    fat_read::find_nth(w, l.fat1, 2, l.clusters, 0, n)
}
