// Truncate and delete: the calls that free clusters.
#![tactic(auto)]

ghost use Rattle.std.specs.Prelude.{[], ◌<◌, ◌≤◌};
ghost use Rattle.model.specs.Bytes.{view};
ghost use Rattle.model.specs.Sector.{card_of, window_of};
ghost use Rattle.model.specs.Fat.{entry, fat1_of};
ghost use Rattle.model.specs.Chain.{chain};
ghost use Rattle.model.specs.Record.{plain};
ghost use Rattle.model.specs.Promises.{Held, Spent};
ghost use Rattle.operations.specs.Finish.{Slots};
ghost use Rattle.operations.specs.Program.{stores};
ghost use Rattle.operations.specs.Plan.{operate, old_fat, truncate_stores, delete_stores};
ghost use Rattle.operations.specs.Calls.{truncate_as, truncate_on, delete_on, truncate, delete};
ghost use Rattle.volume.specs.Opened.{Ready};
ghost use Rattle.root_lookup.specs.Found.{Chained};
ghost use Rattle.file_read.specs.Files as files;
ghost use Rattle.fat_release.specs.Release.{cut, Inside};
ghost use Rattle.call_outcome.specs.Did.{Did};
ghost use Rattle.call_truncate.specs.Parts.{Parts};

use model::{Access, Ended, File, Ground, Layout, Operation, Stopped, Volume};

// The part of a chain that is freed: the last cluster kept before it, its first cluster, 0 where there is none, and how many it has.
#[derive(Clone, Copy)]
pub struct Tail {
    pub kept: u32,
    pub from: u32,
    pub freed: u32,
}

// The stores of an operation that cuts a chain: FAT2's, then those that its group makes to be done.
fn shorten(w: &mut [u8], v: Volume, c: Tail, o: Operation, limit: &mut u32) -> Result<(), Stopped>
    requires ready { Ready v w.old }
    requires inside { Inside v.layout (chain (entry (fat1_of v.layout (card_of w.old))) c.freed c.from) }
    requires slots { Slots v.layout.entries (plain o) }
    ensures { Spent limit.old limit.new
        (stores (operate v (card_of w.old) [] (cut (old_fat v (card_of w.old)) c.kept c.from c.freed) (plain o)))
        w.old w.new result }
{
    let l = v.layout;
    fat_write::shorten_fat(w, l, c.kept, c.from, c.freed, limit)?;
    log_steps::plain_steps(w, v, o, limit)
}

// Delete of a file that keeps the chain rule.
fn delete_file(w: &mut [u8], v: Volume, f: File, limit: &mut u32) -> Result<(), Stopped>
    requires ready { Ready v w.old }
    requires chained { Chained v (card_of w.old) f }
    ensures { Spent limit.old limit.new (stores (delete_stores v (card_of w.old) f)) w.old w.new result }
{
    let l = v.layout;
    let c = Tail {
        kept: 0,
        from: f.first,
        freed: fat_chain::clusters_for(l, f.size),
    };
    let entry = f.entry;
    let o = Operation::Delete {
        entry,
        count: root_long::long_count(w, l, entry.slot),
        first: f.first,
        size: f.size,
    };
    shorten(w, v, c, o, limit)
}

// Delete, on a clean card.
fn delete_on(w: &mut [u8], v: Volume, name: &[u8], limit: u32) -> Result<Ended, Ground>
    requires { Ready v w.old }
    ensures { Did limit (delete_on v (card_of w.old) (view name.now)) w.old w.new result }
{
    let f = root_lookup::file_of(w, v, Access::Write, name)?;
    let mut left = limit;
    let stored = delete_file(w, v, f, &mut left);
    Ok(call_outcome::ended(stored, limit - left))
}

pub fn delete(w: &mut [u8], name: &[u8], limit: u32) -> Result<Ended, Ground>
    ensures { Did limit (delete (window_of w.old) (view name.now)) w.old w.new result }
{
    let v = volume::clean(w)?;
    delete_on(w, v, name, limit)
}

// Where the chain of a file is cut that is to have a smaller size. It is walked up to the first cluster freed.
fn cut_at(w: &[u8], l: Layout, f: File, size: u32) -> Tail
    requires { Held l w.now × files.Proper l (card_of w.now) f × (size ≤ f.size) }
    ensures { Parts l (fat1_of l (card_of w.now)) f size result }
{
    let m = fat_chain::clusters_for(l, f.size);
    let n = fat_chain::clusters_for(l, size);
    if n == m {
        return Tail {
            kept: 0,
            from: 0,
            freed: 0,
        };
    }
    if n == 0 {
        return Tail {
            kept: 0,
            from: f.first,
            freed: m,
        };
    }
    let kept = file_read::follow(w, l, f.first, n - 1);
    Tail {
        kept,
        from: fat_read::entry_at(w, l.fat1, kept),
        freed: m - n,
    }
}

// Truncate of a file that keeps the chain rule, to a smaller size.
fn truncate_file(
    w: &mut [u8],
    v: Volume,
    f: File,
    size: u32,
    stamp: u32,
    limit: &mut u32,
) -> Result<(), Stopped>
    requires ready { Ready v w.old }
    requires chained { Chained v (card_of w.old) f × (size < f.size) }
    ensures { Spent limit.old limit.new (stores (truncate_stores v (card_of w.old) f size stamp)) w.old w.new result }
{
    let l = v.layout;
    let c = cut_at(w, l, f, size);
    let entry = f.entry;
    let o = Operation::Truncate {
        entry,
        first: f.first,
        from: c.from,
        size,
        stamp,
    };
    shorten(w, v, c, o, limit)
}

// LENGTH, and a size that is the present one. Any other fits 32 bits.
fn truncate_as(
    w: &mut [u8],
    v: Volume,
    f: File,
    size: u64,
    stamp: u32,
    limit: u32,
) -> Result<Ended, Ground>
    requires ready { Ready v w.old }
    requires chained { Chained v (card_of w.old) f }
    ensures { Did limit (truncate_as v (card_of w.old) f size stamp) w.old w.new result }
{
    let present = u64::from(f.size);
    if present < size {
        return Err(Ground::Length);
    }
    if present == size {
        return Ok(Ended::Done(0));
    }
    let mut left = limit;
    let stored = truncate_file(w, v, f, size as u32, stamp, &mut left);
    Ok(call_outcome::ended(stored, limit - left))
}

// Truncate, on a clean card.
fn truncate_on(
    w: &mut [u8],
    v: Volume,
    name: &[u8],
    size: u64,
    stamp: u32,
    limit: u32,
) -> Result<Ended, Ground>
    requires { Ready v w.old }
    ensures { Did limit (truncate_on v (card_of w.old) (view name.now) size stamp) w.old w.new result }
{
    let f = root_lookup::file_of(w, v, Access::Write, name)?;
    truncate_as(w, v, f, size, stamp, limit)
}

pub fn truncate(
    w: &mut [u8],
    name: &[u8],
    size: u64,
    seconds: u32,
    limit: u32,
) -> Result<Ended, Ground>
    ensures { Did limit (truncate (window_of w.old) (view name.now) size seconds) w.old w.new result }
{
    let v = volume::clean_at(w, seconds)?;
    truncate_on(w, v, name, size, clock::stamp(seconds), limit)
}
