// Log records as they stand in a sector, and ground RECORD's rules for them.
#![tactic(auto)]

ghost use Rattle.std.specs.Prelude.{◌≡◌, ◌+◌, ◌*◌, ◌≤◌, ◌<◌, length};
ghost use Rattle.model.specs.Sector.{card_of};
ghost use Rattle.model.specs.Scan.{all};
ghost use Rattle.model.specs.Record.{record_at, stamp_record, group_size, starts, leads, tells, pends};
ghost use Rattle.model.specs.Pending.{slot_ok, most_counted, count_ok, record_ok, alike, apart, is_stamp, pair_ok, part_ok, records_ok};

use model::{Name, Record};

// Where the characters of a long name begin in a sector that is led, and for how many bytes of them it has room.
pub const TEXT_START: usize = 64;

pub const TEXT_ROOM: usize = 448;

// Whether record 0 of sector s leads it: a create with a long name, whose characters stand in the records after it.
#[tactic(auto, unfolding(model::specs::Record::leads, model::specs::Scan::every))]
pub fn leads(log: &[u8], s: u32) -> bool
    requires { 512 * s + 512 ≤ length log.now }
    ensures { result ≡ leads (card_of log.now s) }
{
    sector::byte(log, s, 0) != 0 && sector::byte(log, s, 13) == 1 && 1 <= sector::byte(log, s, 12)
}

// Whether record r of sector s tells something: all do that do not begin 0, in a sector that is led only the first.
#[tactic(auto, unfolding(model::specs::Record::tells))]
pub fn tells(log: &[u8], s: u32, r: u32) -> bool
    requires { (512 * s + 512 ≤ length log.now) × (r < 16) }
    ensures { result ≡ tells (card_of log.now s) r }
{
    sector::byte(log, s, 32 * r) != 0 && (r == 0 || !leads(log, s))
}

// Whether record r of sector s is pending.
#[tactic(auto, unfolding(model::specs::Record::pends))]
pub fn pends(log: &[u8], s: u32, r: u32) -> bool
    requires { (512 * s + 512 ≤ length log.now) × (r < 16) }
    ensures { result ≡ pends (card_of log.now s) r }
{
    tells(log, s, r) && sector::byte(log, s, 32 * r) != 0xE5
}

// Whether record r of sector s begins as a pending one: neither unused nor committed.
pub fn starts(log: &[u8], s: u32, r: u32) -> bool
    requires { (512 * s + 512 ≤ length log.now) × (r < 16) }
    ensures { result ≡ starts (card_of log.now s (32 * r)) }
{
    !matches!(sector::byte(log, s, 32 * r), 0 | 0xE5)
}

// A slot that a record may name: below the root entries, and not above z, the lowest slot beginning 0.
#[tactic(auto, unfolding(model::specs::Pending::slot_ok))]
fn slot_ok(entries: u32, z: u32, k: u32) -> bool
    ensures { result ≡ slot_ok entries z k }
{
    k < entries && k <= z
}

// Record k of sector s.
#[tactic(auto, using(model::proofs::Sectors::le_part))]
pub fn load(log: &[u8], s: u32, k: u32) -> Record
    requires { (512 * s + 512 ≤ length log.now) × (k < 16) }
    ensures { result ≡ record_at (card_of log.now s) k }
{
    let at = 32 * k;
    Record {
        name: root_names::name_at(log, s, at),
        attributes: sector::byte(log, s, at + 11),
        count: sector::byte(log, s, at + 12),
        number: sector::byte(log, s, at + 13),
        directory: sector::le::<4>(log, s, at + 14),
        slot: sector::le::<2>(log, s, at + 18),
        high: sector::le::<2>(log, s, at + 20),
        from: sector::le::<4>(log, s, at + 22),
        cluster: sector::le::<2>(log, s, at + 26),
        size: sector::le::<4>(log, s, at + 28),
    }
}

// How many entries of a long name a record may tell of.
#[tactic(auto, unfolding(model::specs::Pending::most_counted))]
fn most_counted(number: u32) -> u32
    ensures { result ≡ most_counted number }
{
    match number {
        1 => 16,
        3 | 5 => root_names::MOST_LONG,
        _ => 0,
    }
}

// The long-name count, which is not above the slot.
#[tactic(auto, unfolding(model::specs::Pending::count_ok))]
fn count_ok(r: Record) -> bool
    ensures { result ≡ count_ok r }
{
    r.count <= most_counted(r.number) && r.count <= r.slot
}

// The fields of record 0 that are judged.
#[tactic(auto, unfolding(model::specs::Pending::record_ok, model::specs::Scan::every, model::specs::Scan::between))]
fn record_ok(r: Record, entries: u32, z: u32) -> bool
    ensures { result ≡ record_ok entries z r }
{
    matches!(r.number, 1..=6)
        && r.directory == 0
        && r.high == 0
        && count_ok(r)
        && r.from < 65536
        && slot_ok(entries, z, r.slot)
}

// Whether two records are alike but for name, operation and slot.
#[tactic(auto, unfolding(model::specs::Pending::alike, model::specs::Scan::every))]
fn is_alike(r: Record, d: Record) -> bool
    ensures { result ≡ alike r d }
{
    d == Record {
        name: d.name,
        number: d.number,
        slot: d.slot,
        ..r
    }
}

// Whether none of the first n records of sector s has slot k: as its own, or among those before it that its count tells of.
fn is_apart(log: &[u8], s: u32, n: u32, k: u32) -> bool
    requires { (512 * s + 512 ≤ length log.now) × (n ≤ 16) }
    ensures { result ≡ all (apart (record_at (card_of log.now s)) k) n }
{
    for i in 0..n {
        let r = load(log, s, i);
        if root_names::has_slot(r.slot, r.count, k) {
            return false;
        }
    }
    true
}

// A stamp: the record that begins 0x54 and holds a time (low two bytes) and a date (high two), and no byte else.
#[tactic(auto, unfolding(model::specs::Record::stamp_record))]
pub fn stamp_record(stamp: u32) -> Record
    ensures { result ≡ stamp_record stamp }
{
    Record {
        name: Name {
            stem: 0x54,
            extension: 0,
        },
        attributes: 0,
        count: 0,
        number: 0,
        directory: stamp,
        slot: 0,
        high: 0,
        from: 0,
        cluster: 0,
        size: 0,
    }
}

// Whether a record is a stamp, of any time and date.
#[tactic(auto, unfolding(model::specs::Pending::is_stamp, model::specs::Scan::every, model::specs::Record::stamp_record))]
fn is_stamp(r: Record) -> bool
    ensures { result ≡ is_stamp r }
{
    r == stamp_record(r.directory)
}

// Record k of sector s, in the group of a rename: the record before with another name and slot.
#[tactic(auto, unfolding(model::specs::Pending::pair_ok, model::specs::Scan::every))]
fn pair_ok(log: &[u8], s: u32, k: u32, entries: u32, z: u32) -> bool
    requires { (512 * s + 512 ≤ length log.now) × (1 ≤ k) × (k < 16) }
    ensures { result ≡ pair_ok entries z (record_at (card_of log.now s)) k }
{
    let d = load(log, s, k);
    is_alike(load(log, s, k - 1), d) && slot_ok(entries, z, d.slot) && is_apart(log, s, k, d.slot)
}

// Record k of sector s, which is part of the record before: of a rename, or a stamp.
#[tactic(auto, unfolding(model::specs::Pending::part_ok))]
fn part_ok(log: &[u8], s: u32, k: u32, operation: u32, entries: u32, z: u32) -> bool
    requires { (512 * s + 512 ≤ length log.now) × (1 ≤ k) × (k < 16) × (operation ≡ (record_at (card_of log.now s) 0).number) }
    ensures { result ≡ part_ok entries z (record_at (card_of log.now s)) k }
{
    if operation == 5 {
        pair_ok(log, s, k, entries, z)
    } else {
        is_stamp(load(log, s, k))
    }
}

// The m records of the group in sector s.
#[tactic(auto, unfolding(model::specs::Pending::records_ok, model::specs::Scan::every))]
pub fn records_ok(log: &[u8], s: u32, m: u32, entries: u32, z: u32) -> bool
    requires within { (512 * s + 512 ≤ length log.now) × (m ≤ 16) }
    requires counted { m ≡ group_size (record_at (card_of log.now s)) }
    ensures { result ≡ records_ok entries z (record_at (card_of log.now s)) }
{
    let r = load(log, s, 0);
    if !record_ok(r, entries, z) {
        return false;
    }
    for k in 1..m {
        if !part_ok(log, s, k, r.number, entries, z) {
            return false;
        }
    }
    true
}
