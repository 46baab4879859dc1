// Append: grounds, data sectors, FAT2, and the steps through the log.
#![tactic(auto)]

ghost use Rattle.std.specs.Prelude.{◌≡◌, ◌<◌, length};
ghost use Rattle.model.specs.Bytes.{view};
ghost use Rattle.model.specs.Sector.{card_of, window_of};
ghost use Rattle.model.specs.Fat.{fat1_of};
ghost use Rattle.model.specs.Promises.{Held, Spent};
ghost use Rattle.operations.specs.Program.{stores};
ghost use Rattle.operations.specs.Plan.{clusters_of, last_cluster, added, append_stores};
ghost use Rattle.operations.specs.Calls.{append_to, append_on, append};
ghost use Rattle.volume.specs.Opened.{Ready};
ghost use Rattle.root_lookup.specs.Found.{Chained};
ghost use Rattle.file_append.specs.Extents.{Room};
ghost use Rattle.call_outcome.specs.Did.{Did};
ghost use Rattle.call_append.specs.Append.{chain_stores};

use model::{Access, Ended, File, Ground, Layout, Operation, Stopped, Volume};

// Steps 1 and 2: the data sectors, then FAT2.
fn store_chain(
    w: &mut [u8],
    l: Layout,
    f: File,
    last: u32,
    n: u32,
    bytes: &[u8],
    limit: &mut u32,
) -> Result<(), Stopped>
    requires held { Held l w.old × Room l (card_of w.old) f (length bytes.now) }
    requires growth { (last ≡ last_cluster (clusters_of l (fat1_of l (card_of w.old)) f)) × (n ≡ added l f (length bytes.now)) }
    ensures { Spent limit.old limit.new (chain_stores l (card_of w.old) f (view bytes.now) last n) w.old w.new result }
{
    file_append::append_data(w, l, f, last, bytes, limit)?;
    fat_write::extend_fat(w, l, last, n, limit)
}

// The stores of an append of some bytes that there is room for.
fn store_append(
    w: &mut [u8],
    v: Volume,
    f: File,
    last: u32,
    n: u32,
    bytes: &[u8],
    stamp: u32,
    limit: &mut u32,
) -> Result<(), Stopped>
    requires ready { Ready v w.old × Room v.layout (card_of w.old) f (length bytes.now) × (f.entry.slot < v.layout.entries) }
    requires growth { (last ≡ last_cluster (clusters_of v.layout (fat1_of v.layout (card_of w.old)) f)) × (n ≡ added v.layout f (length bytes.now)) }
    ensures { Spent limit.old limit.new (stores (append_stores v (card_of w.old) f (view bytes.now) stamp)) w.old w.new result }
{
    let l = v.layout;
    let from = file_append::first_new(w, l, n);
    store_chain(w, l, f, last, n, bytes, limit)?;
    let o = Operation::Update {
        entry: f.entry,
        last,
        from,
        size: f.size + bytes.len() as u32,
        stamp,
    };
    log_steps::plain_steps(w, v, o, limit)
}

// NOSPACE; then the stores, none where there are no bytes to append.
fn append_to(
    w: &mut [u8],
    v: Volume,
    f: File,
    bytes: &[u8],
    stamp: u32,
    limit: u32,
) -> Result<Ended, Ground>
    requires { Ready v w.old × Chained v (card_of w.old) f }
    ensures { Did limit (append_to v (card_of w.old) f (view bytes.now) stamp) w.old w.new result }
{
    let l = v.layout;
    let n = file_append::added_clusters(l, f, bytes.len());
    if u64::from(fat_chain::count_free(w, l)) < n {
        return Err(Ground::Nospace);
    }
    if bytes.is_empty() {
        return Ok(Ended::Done(0));
    }
    let last = file_read::last_cluster(w, l, f);
    let mut left = limit;
    let stored = store_append(w, v, f, last, n as u32, bytes, stamp, &mut left);
    Ok(call_outcome::ended(stored, limit - left))
}

fn append_on(
    w: &mut [u8],
    v: Volume,
    name: &[u8],
    bytes: &[u8],
    stamp: u32,
    limit: u32,
) -> Result<Ended, Ground>
    requires { Ready v w.old }
    ensures { Did limit (append_on v (card_of w.old) (view name.now) (view bytes.now) stamp) w.old w.new result }
{
    let f = root_lookup::file_of(w, v, Access::Write, name)?;
    append_to(w, v, f, bytes, stamp, limit)
}

pub fn append(
    w: &mut [u8],
    name: &[u8],
    bytes: &[u8],
    seconds: u32,
    limit: u32,
) -> Result<Ended, Ground>
    ensures { Did limit (append (window_of w.old) (view name.now) (view bytes.now) seconds) w.old w.new result }
{
    let v = volume::clean_at(w, seconds)?;
    append_on(w, v, name, bytes, clock::stamp(seconds), limit)
}
