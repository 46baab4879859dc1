// The group in a log sector: whether RECORD takes its records, and the operation that they tell of.
#![tactic(auto)]

ghost use Rattle.std.specs.Prelude.{◌≡◌, ◌+◌, ◌*◌, ◌/◌, ◌≤◌, ◌<◌, length, true, ◌&&◌};
ghost use Rattle.model.specs.Sector.{card_of};
ghost use Rattle.model.specs.Scan.{all};
ghost use Rattle.model.specs.Bytes.{bytes_of};
ghost use Rattle.model.specs.Record.{record_at, operation_records, operation_of, group_size, starts, leads};
ghost use Rattle.model.specs.Record.{text_room, text_length, text_in, change_of, planned, group_in};
ghost use Rattle.model.specs.Pending.{fills, characters_ok, empty_from, group_ok};

use model::{Entry, Operation, Plan};

// The records of an operation with its stamp, and those of a rename.
const STAMPED: u32 = 2;

const PAIR: u32 = 2;

// How many records tell an operation.
#[tactic(auto, unfolding(model::specs::Record::operation_records))]
pub fn records_of(o: Operation) -> u32
    ensures { (result ≡ length (operation_records o)) × (1 ≤ result) × (result ≤ 16) }
{
    match o {
        Operation::Create { .. }
        | Operation::Update { .. }
        | Operation::Truncate { .. }
        | Operation::Replace { .. } => STAMPED,
        Operation::Delete { .. } => 1,
        Operation::Rename { .. } => PAIR,
    }
}

// How many records a group has: those that tell its operation, and those of n characters.
pub fn group_records(o: Operation, n: u32) -> u32
    requires { 32 * length (operation_records o) + 2 * n ≤ 512 }
    ensures { (result ≡ length (operation_records o) + (n + 15) / 16) × (result ≤ 16) }
{
    records_of(o) + (n + 15) / 16
}

// The operation that the records tell of. Inlined: the grounds of a card are then asked in one frame, which calls nothing.
#[inline(always)]
#[tactic(auto, unfolding(model::specs::Record::operation_of))]
pub fn operation_at(log: &[u8], s: u32) -> Operation
    requires { 512 * s + 512 ≤ length log.now }
    ensures { result ≡ operation_of (record_at (card_of log.now s)) }
{
    let r = log_record::load(log, s, 0);
    let d = log_record::load(log, s, 1);
    let stamp = d.directory;
    let entry = Entry {
        slot: r.slot,
        name: r.name,
        attributes: r.attributes,
    };
    match r.number {
        1 => Operation::Create {
            entry,
            count: r.count,
            stamp,
        },
        2 => Operation::Update {
            entry,
            last: r.cluster,
            from: r.from,
            size: r.size,
            stamp,
        },
        3 => Operation::Delete {
            entry,
            count: r.count,
            first: r.cluster,
            size: r.size,
        },
        4 => Operation::Truncate {
            entry,
            first: r.cluster,
            from: r.from,
            size: r.size,
            stamp,
        },
        5 => Operation::Rename {
            entry,
            count: r.count,
            first: r.cluster,
            size: r.size,
            to: d.slot,
            renamed: d.name,
        },
        _ => Operation::Replace {
            entry,
            first: r.cluster,
            from: r.from,
            size: r.size,
            stamp,
        },
    }
}

// How many records of the group tell its operation.
#[tactic(auto, unfolding(model::specs::Record::group_size))]
pub fn group_size(log: &[u8], s: u32) -> u32
    requires { 512 * s + 512 ≤ length log.now }
    ensures { (result ≡ group_size (record_at (card_of log.now s))) × (1 ≤ result) × (result ≤ 16) }
{
    records_of(operation_at(log, s))
}

// How many long slots an operation fills.
fn fills(o: Operation) -> u32
    ensures { result ≡ fills o }
{
    match o {
        Operation::Create { count, .. } => count,
        _ => 0,
    }
}

// What follows the records of an operation that writes a long name, in sector s: its characters, if record 0 leads the sector.
#[tactic(auto, using(crate::proofs::Laws::follow))]
fn characters(log: &[u8], s: u32) -> &[u8]
    requires { 512 * s + 512 ≤ length log.now }
    ensures long { length result.now ≡ text_room }
    ensures led { leads (card_of log.now s) ≡ true → bytes_of result.now ≡ text_in (card_of log.now s) }
{
    &sector::bytes(log, s)[log_record::TEXT_START..]
}

// How many characters stand in the records after record 0: none where that leads nothing.
#[tactic(auto, using(crate::proofs::Laws::none_there))]
fn text_length(log: &[u8], s: u32) -> u32
    requires { 512 * s + 512 ≤ length log.now }
    ensures { result ≡ text_length (text_in (card_of log.now s)) }
{
    if log_record::leads(log, s) {
        root_names::text_length(characters(log, s))
    } else {
        0
    }
}

// Whether the n characters are allowed ones, as many as the long slots of the operation need.
fn characters_ok(log: &[u8], s: u32, n: u32) -> bool
    requires { (512 * s + 512 ≤ length log.now) × (n ≡ text_length (text_in (card_of log.now s))) }
    ensures { result ≡ characters_ok (change_of (card_of log.now s)) }
{
    root_names::long_slots(n) == fills(operation_at(log, s))
        && root_names::all_allowed(characters(log, s), n as usize)
}

// The characters into a buffer, with zeros after them.
pub fn text_at(w: &[u8], s: u32, text: &mut [u8; log_record::TEXT_ROOM])
    requires { 512 * s + 512 ≤ length w.now }
    ensures { bytes_of text.new ≡ text_in (card_of w.now s) }
{
    if log_record::leads(w, s) {
        text.copy_from_slice(characters(w, s));
    } else {
        text.fill(0);
    }
}

// Whether the first m records of the sector begin as pending ones.
fn all_start(log: &[u8], s: u32, m: u32) -> bool
    requires { (512 * s + 512 ≤ length log.now) × (m ≤ 16) }
    ensures { result ≡ all (λ k. starts (card_of log.now s (32 * k))) m }
{
    for k in 0..m {
        if !log_record::starts(log, s, k) {
            return false;
        }
    }
    true
}

// Whether the sector has no byte but zero from an offset on.
fn is_empty(log: &[u8], s: u32, from: u32) -> bool
    requires { (512 * s + 512 ≤ length log.now) × (from ≤ 512) }
    ensures { result ≡ empty_from from (card_of log.now s) }
{
    for j in from..512 {
        if sector::byte(log, s, j) != 0 {
            return false;
        }
    }
    true
}

// The characters after the m records that tell the operation, and only zeros after them.
#[tactic(auto, using(crate::proofs::Laws::text_fits))]
fn text_ok(log: &[u8], s: u32, m: u32) -> bool
    requires { (512 * s + 512 ≤ length log.now) × (m ≡ group_size (record_at (card_of log.now s))) }
    ensures { result ≡ (characters_ok (change_of (card_of log.now s))
        && empty_from (32 * m + 2 * text_length (text_in (card_of log.now s))) (card_of log.now s)) }
{
    let n = text_length(log, s);
    characters_ok(log, s, n) && is_empty(log, s, 32 * m + 2 * n)
}

// Whether the records of sector s are a group; z is the lowest root slot beginning 0.
#[tactic(auto, unfolding(model::specs::Pending::group_ok, model::specs::Scan::every, model::specs::Record::change_of))]
pub fn group_ok(log: &[u8], s: u32, entries: u32, z: u32) -> bool
    requires { 512 * s + 512 ≤ length log.now }
    ensures { result ≡ group_ok entries z (card_of log.now s) }
{
    let m = group_size(log, s);
    log_record::records_ok(log, s, m, entries, z) && all_start(log, s, m) && text_ok(log, s, m)
}

// The plan of what the group in sector s of a card makes to be done.
pub fn plan_at(w: &[u8], s: u32) -> Plan
    requires { 512 * s + 512 ≤ length w.now }
    ensures { (planned result (text_in (card_of w.now s)) ≡ group_in s (card_of w.now s)) × (result.records ≤ 16) }
{
    let operation = operation_at(w, s);
    Plan {
        sector: s,
        records: group_records(operation, text_length(w, s)),
        operation,
    }
}
