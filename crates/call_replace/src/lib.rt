// Replace: grounds, data sectors along new clusters, FAT2 with these linked and the old ones freed, and the steps through the log.
#![tactic(auto)]

ghost use Rattle.std.specs.Prelude.{◌≡◌, length};
ghost use Rattle.model.specs.Bytes.{view};
ghost use Rattle.model.specs.Sector.{card_of, window_of};
ghost use Rattle.model.specs.Chain.{needed};
ghost use Rattle.model.specs.Promises.{Held, Spent};
ghost use Rattle.operations.specs.Program.{stores};
ghost use Rattle.operations.specs.Plan.{added, replace_stores};
ghost use Rattle.operations.specs.Calls.{replace_file, replace_on, replace};
ghost use Rattle.volume.specs.Opened.{Ready};
ghost use Rattle.root_lookup.specs.Found.{Chained};
ghost use Rattle.file_read.specs.Files as files;
ghost use Rattle.file_append.specs.Extents.{Room};
ghost use Rattle.call_outcome.specs.Did.{Did};
ghost use Rattle.call_replace.specs.Replace.{emptied, exchange_stores};

use model::{Access, Ended, File, Ground, Layout, Operation, Stopped, Volume};

// Steps 1 and 2 of a replace of file f: the data sectors along n new clusters, as of an append to the file without its bytes; then FAT2
// with these linked and the file's own clusters freed.
fn store_fresh(
    w: &mut [u8],
    l: Layout,
    f: File,
    n: u32,
    bytes: &[u8],
    limit: &mut u32,
) -> Result<(), Stopped>
    requires held { Held l w.old × files.Proper l (card_of w.old) f × Room l (card_of w.old) (emptied f) (length bytes.now) }
    requires taken { n ≡ added l (emptied f) (length bytes.now) }
    ensures { Spent limit.old limit.new (exchange_stores l (card_of w.old) (emptied f) (view bytes.now) n f.first (needed l f.size))
        w.old w.new result }
{
    let m = fat_chain::clusters_for(l, f.size);
    let g = File {
        first: 0,
        size: 0,
        ..f
    };
    file_append::append_data(w, l, g, 0, bytes, limit)?;
    fat_write::exchange_fat(w, l, n, f.first, m, limit)
}

// The stores of a replace by bytes that there is room for.
fn store_replace(
    w: &mut [u8],
    v: Volume,
    f: File,
    n: u32,
    bytes: &[u8],
    stamp: u32,
    limit: &mut u32,
) -> Result<(), Stopped>
    requires ready { Ready v w.old × Chained v (card_of w.old) f × Room v.layout (card_of w.old) (emptied f) (length bytes.now) }
    requires taken { n ≡ added v.layout (emptied f) (length bytes.now) }
    ensures { Spent limit.old limit.new (stores (replace_stores v (card_of w.old) f (view bytes.now) stamp)) w.old w.new result }
{
    let l = v.layout;
    let from = file_append::first_new(w, l, n);
    store_fresh(w, l, f, n, bytes, limit)?;
    let o = Operation::Replace {
        entry: f.entry,
        first: f.first,
        from,
        size: bytes.len() as u32,
        stamp,
    };
    log_steps::plain_steps(w, v, o, limit)
}

// NOSPACE; then the stores.
fn replace_file(
    w: &mut [u8],
    v: Volume,
    f: File,
    bytes: &[u8],
    stamp: u32,
    limit: u32,
) -> Result<Ended, Ground>
    requires { Ready v w.old × Chained v (card_of w.old) f }
    ensures { Did limit (replace_file v (card_of w.old) f (view bytes.now) stamp) w.old w.new result }
{
    let l = v.layout;
    let n = fat_chain::clusters_needed(l, bytes.len() as u64);
    if u64::from(fat_chain::count_free(w, l)) < n {
        return Err(Ground::Nospace);
    }
    let mut left = limit;
    let stored = store_replace(w, v, f, n as u32, bytes, stamp, &mut left);
    Ok(call_outcome::ended(stored, limit - left))
}

fn replace_on(
    w: &mut [u8],
    v: Volume,
    name: &[u8],
    bytes: &[u8],
    stamp: u32,
    limit: u32,
) -> Result<Ended, Ground>
    requires { Ready v w.old }
    ensures { Did limit (replace_on v (card_of w.old) (view name.now) (view bytes.now) stamp) w.old w.new result }
{
    let f = root_lookup::file_of(w, v, Access::Write, name)?;
    replace_file(w, v, f, bytes, stamp, limit)
}

pub fn replace(
    w: &mut [u8],
    name: &[u8],
    bytes: &[u8],
    seconds: u32,
    limit: u32,
) -> Result<Ended, Ground>
    ensures { Did limit (replace (window_of w.old) (view name.now) (view bytes.now) seconds) w.old w.new result }
{
    let v = volume::clean_at(w, seconds)?;
    replace_on(w, v, name, bytes, clock::stamp(seconds), limit)
}
