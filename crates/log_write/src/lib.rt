// Step 3: the log cleared if it is full, and the group of a change stored.
#![tactic(auto)]

ghost use Rattle.std.specs.Prelude.{◌≡◌, [], ◌∷◌, map, ◌+◌, ◌-◌, ◌*◌, ◌≤◌, ◌<◌, length, get_or};
ghost use Rattle.model.specs.Bytes.{bytes_of, zeros};
ghost use Rattle.model.specs.Sector.{card_of};
ghost use Rattle.model.specs.Log.{log_of, unused};
ghost use Rattle.model.specs.Record.{record_bytes, record_in, record_of, stamp_record, operation_records, lay, with_text, encode, planned};
ghost use Rattle.model.specs.Promises.{Room, Spent};
ghost use Rattle.operations.specs.Plan.{clear_all, clearing, group_sector, group_store};
ghost use Rattle.log_write.specs.Place.{Within};

use model::{Area, Entry, Operation, Plan, Record, Stopped};

// The lowest log sector whose first byte is 0, counted from the log's first; as many as there are where there is none.
fn unused_sector(w: &[u8], a: Area) -> u32
    requires { Within a w.now }
    ensures { result ≡ unused a.sectors (log_of a (card_of w.now)) }
{
    for k in 0..a.sectors {
        if sector::byte(w, a.sector + k, 0) == 0 {
            return k;
        }
    }
    a.sectors
}

// Where the next group goes.
#[tactic(auto, unfolding(operations::specs::Plan::group_sector))]
pub fn group_sector(w: &[u8], a: Area) -> u32
    requires { Within a w.now }
    ensures { result ≡ group_sector a (log_of a (card_of w.now)) }
{
    let u = unused_sector(w, a);
    if u < a.sectors {
        return a.sector + u;
    }
    a.sector
}

// All log sectors as zeros, the highest first.
fn clear_all(w: &mut [u8], a: Area, limit: &mut u32) -> Result<(), Stopped>
    requires { Within a w.old }
    ensures { Spent limit.old limit.new (clear_all a) w.old w.new result }
{
    for k in (0..a.sectors).rev() {
        sector::store_zeros(w, a.sector + k, limit)?;
    }
    Ok(())
}

// Clears the log if no sector of it is unused.
#[tactic(auto, using(model::proofs::Runs::spent_none), unfolding(operations::specs::Plan::clearing))]
pub fn clear_log(w: &mut [u8], a: Area, limit: &mut u32) -> Result<(), Stopped>
    requires { Within a w.old }
    ensures { Spent limit.old limit.new (clearing a (log_of a (card_of w.old))) w.old w.new result }
{
    if unused_sector(w, a) < a.sectors {
        return Ok(());
    }
    clear_all(w, a, limit)
}

// The bytes of a log record.
fn record_bytes(r: Record) -> [u8; 32]
    ensures { bytes_of result ≡ record_bytes r }
{
    let b = sector_build::set([0u8; 32], 28, 4, r.size);
    let b = sector_build::set(b, 26, 2, r.cluster);
    let b = sector_build::set(b, 22, 4, r.from);
    let b = sector_build::set(b, 20, 2, r.high);
    let b = sector_build::set(b, 18, 2, r.slot);
    let b = sector_build::set(b, 14, 4, r.directory);
    let b = sector_build::set(b, 13, 1, r.number);
    let b = sector_build::set(b, 12, 1, r.count);
    let b = sector_build::set(b, 11, 1, r.attributes);
    sector_build::set_name(b, r.name)
}

// A record about an entry.
#[tactic(auto, unfolding(model::specs::Record::record_of))]
fn record_about(e: Entry, number: u32, count: u32, cluster: u32, from: u32, size: u32) -> Record
    ensures { result ≡ record_of e number count cluster from size }
{
    Record {
        name: e.name,
        attributes: e.attributes,
        count,
        number,
        directory: 0,
        slot: e.slot,
        high: 0,
        from,
        cluster,
        size,
    }
}

// Record k of two: the first, and its stamp.
fn stamped(first: Record, stamp: u32, k: u32) -> Record
    requires { k < 2 }
    ensures { result ≡ get_or (first ∷ stamp_record stamp ∷ []) k (record_in zeros) }
{
    if k == 0 {
        first
    } else {
        log_record::stamp_record(stamp)
    }
}

// Record k of those that tell an operation.
#[tactic(auto, unfolding(model::specs::Record::operation_records))]
fn record_of(o: Operation, k: u32) -> Record
    requires { k < length (operation_records o) }
    ensures { result ≡ get_or (operation_records o) k (record_in zeros) }
{
    match o {
        Operation::Create {
            entry,
            count,
            stamp,
        } => stamped(record_about(entry, 1, count, 0, 0, 0), stamp, k),
        Operation::Update {
            entry,
            last,
            from,
            size,
            stamp,
        } => stamped(record_about(entry, 2, 0, last, from, size), stamp, k),
        Operation::Delete {
            entry,
            count,
            first,
            size,
        } => record_about(entry, 3, count, first, 0, size),
        Operation::Truncate {
            entry,
            first,
            from,
            size,
            stamp,
        } => stamped(record_about(entry, 4, 0, first, from, size), stamp, k),
        Operation::Rename {
            entry,
            count,
            first,
            size,
            to,
            renamed,
        } => {
            if k == 0 {
                return record_about(entry, 5, count, first, 0, size);
            }
            let e = Entry {
                slot: to,
                name: renamed,
                attributes: entry.attributes,
            };
            record_about(e, 0, count, first, 0, size)
        }
        Operation::Replace {
            entry,
            first,
            from,
            size,
            stamp,
        } => stamped(record_about(entry, 6, 0, first, from, size), stamp, k),
    }
}

// The records that tell an operation, in a sector from record 0 on, the rest zero.
fn lay_records(o: Operation, buf: &mut [u8; 512])
    ensures { bytes_of buf.new ≡ lay (map record_bytes (operation_records o)) }
{
    *buf = [0u8; 512];
    for k in 0..log_group::records_of(o) {
        sector_build::lay(buf, k as usize, &record_bytes(record_of(o, k)));
    }
}

// The group of an operation with a text, as its log sector: the characters stand after the records.
fn encode_group(o: Operation, text: &[u8], buf: &mut [u8; 512])
    requires { Room o text.now }
    ensures { bytes_of buf.new ≡ encode (with_text o (bytes_of text.now)) }
{
    lay_records(o, buf);
    let at = 32 * log_group::records_of(o) as usize;
    sector::copy(buf, at, text, 0, text.len());
}

// The store of a group.
#[tactic(auto, unfolding(operations::specs::Plan::group_store))]
pub fn store_group(w: &mut [u8], p: Plan, text: &[u8], limit: &mut u32) -> Result<(), Stopped>
    requires { (512 * p.sector + 512 ≤ length w.old) × Room p.operation text.now }
    ensures { Spent limit.old limit.new (group_store (planned p (bytes_of text.now)) ∷ []) w.old w.new result }
{
    let mut buf = [0u8; 512];
    encode_group(p.operation, text, &mut buf);
    sector::store_sector(w, p.sector, &buf, limit)
}
