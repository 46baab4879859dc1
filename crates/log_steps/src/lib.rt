// Steps 3 to 6: the group of a change, and what it makes to be done; a recovery redoes steps 4 to 6 alone.
#![tactic(auto)]

ghost use Rattle.std.specs.Prelude.{◌≡◌, [], ◌∷◌, ℕ, ◌+◌, ◌*◌, ◌≤◌, ◌<◌, length, get_or};
ghost use Rattle.model.specs.Bytes.{bytes_of};
ghost use Rattle.model.specs.Sector.{card_of};
ghost use Rattle.model.specs.Record.{with_text, plain, group_of, planned, committed, mark_committed};
ghost use Rattle.model.specs.Promises.{Held, Texted, Room, Spent};
ghost use Rattle.operations.specs.Program.{stores};
ghost use Rattle.operations.specs.Finish.{Slots, finish, redo};
ghost use Rattle.log_steps.specs.Steps.{group_steps, log_steps};

use model::{Layout, Operation, Plan, Stopped, Volume};

// The first n records of a log sector, in the buffer that holds it, start 0xE5.
fn mark(buf: &mut [u8; 512], n: u32)
    requires { n ≤ 16 }
    ensures { (j : ℕ) → get_or buf.new j 0 ≡ committed n (bytes_of buf.old) j }
{
    for k in 0..n as usize {
        buf[32 * k] = 0xE5;
    }
}

// Log sector s again, its first n records committed.
fn commit(w: &mut [u8], s: u32, n: u32, limit: &mut u32) -> Result<(), Stopped>
    requires { (512 * s + 512 ≤ length w.old) × (n ≤ 16) }
    ensures { Spent limit.old limit.new (mark_committed (card_of w.old) s n ∷ []) w.old w.new result }
{
    let mut buf = sector::load(w, s);
    mark(&mut buf, n);
    sector::store_sector(w, s, &buf, limit)
}

// FAT2's sectors into FAT1, then the root sectors.
fn finish(
    w: &mut [u8],
    l: Layout,
    o: Operation,
    text: &[u8],
    limit: &mut u32,
) -> Result<(), Stopped>
    requires held { Held l w.old }
    requires slots { Slots l.entries (with_text o (bytes_of text.now)) × Texted text.now }
    ensures { Spent limit.old limit.new (finish l (with_text o (bytes_of text.now)) (card_of w.old)) w.old w.new result }
{
    fat_copy::to_fat1(w, l, limit)?;
    root_write::store_root(w, l, o, text, limit)
}

// The plan of a group in the data region: its operation finished, then its records committed.
pub fn redo(w: &mut [u8], l: Layout, p: Plan, text: &[u8], limit: &mut u32) -> Result<(), Stopped>
    requires held { Held l w.old }
    requires slots { Slots l.entries (with_text p.operation (bytes_of text.now)) × Texted text.now }
    requires group_within { (l.start ≤ p.sector) × (p.sector < l.total) × (p.records ≤ 16) }
    ensures { Spent limit.old limit.new (stores (redo l (planned p (bytes_of text.now)) (card_of w.old))) w.old w.new result }
{
    finish(w, l, p.operation, text, limit)?;
    commit(w, p.sector, p.records, limit)
}

// The group stored, then redone.
fn store_and_redo(
    w: &mut [u8],
    l: Layout,
    p: Plan,
    text: &[u8],
    limit: &mut u32,
) -> Result<(), Stopped>
    requires held { Held l w.old }
    requires slots { Slots l.entries (with_text p.operation (bytes_of text.now)) × Texted text.now × Room p.operation text.now }
    requires group_within { (l.start ≤ p.sector) × (p.sector < l.total) × (p.records ≤ 16) }
    ensures { Spent limit.old limit.new (group_steps l (planned p (bytes_of text.now)) (card_of w.old)) w.old w.new result }
{
    log_write::store_group(w, p, text, limit)?;
    redo(w, l, p, text, limit)
}

// The plan of the group of an operation with a text, in log sector s.
#[tactic(auto, unfolding(model::specs::Record::group_records, model::specs::Record::records))]
fn plan_for(s: u32, o: Operation, text: &[u8]) -> Plan
    requires { Texted text.now × Room o text.now }
    ensures { (planned result (bytes_of text.now) ≡ group_of s (with_text o (bytes_of text.now))) × (result.operation ≡ o) × (result.sector ≡ s)
        × (result.records ≤ 16) }
{
    Plan {
        sector: s,
        records: log_group::group_records(o, root_names::text_length(text)),
        operation: o,
    }
}

// The log cleared if it is full, then the group of an operation with a text stored and redone.
pub fn log_steps(
    w: &mut [u8],
    v: Volume,
    o: Operation,
    text: &[u8],
    limit: &mut u32,
) -> Result<(), Stopped>
    requires held { Held v.layout w.old }
    requires log_within { (v.layout.start ≤ v.log.sector) × (1 ≤ v.log.sectors) × (v.log.sector + v.log.sectors ≤ v.layout.total) }
    requires slots { Slots v.layout.entries (with_text o (bytes_of text.now)) × Texted text.now × Room o text.now }
    ensures { Spent limit.old limit.new (log_steps v (with_text o (bytes_of text.now)) (card_of w.old)) w.old w.new result }
{
    let s = log_write::group_sector(w, v.log);
    log_write::clear_log(w, v.log, limit)?;
    store_and_redo(w, v.layout, plan_for(s, o, text), text, limit)
}

// The same of an operation without a text.
pub fn plain_steps(w: &mut [u8], v: Volume, o: Operation, limit: &mut u32) -> Result<(), Stopped>
    requires held { Held v.layout w.old }
    requires log_within { (v.layout.start ≤ v.log.sector) × (1 ≤ v.log.sectors) × (v.log.sector + v.log.sectors ≤ v.layout.total) }
    requires slots { Slots v.layout.entries (plain o) }
    ensures { Spent limit.old limit.new (log_steps v (plain o) (card_of w.old)) w.old w.new result }
{
    log_steps(w, v, o, &[], limit)
}
