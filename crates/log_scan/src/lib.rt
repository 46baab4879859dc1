// The log: the scan for pending records, and the group that they make.
#![tactic(auto)]

ghost use Rattle.std.specs.Prelude.{◌≡◌, ◌+◌, ◌-◌, ◌*◌, ◌/◌, ◌≤◌, ◌<◌, length, eqb};
ghost use Rattle.model.specs.Sector.{card_of};
ghost use Rattle.model.specs.Scan.{first_from, among};
ghost use Rattle.model.specs.Promises.{Held};
ghost use Rattle.model.specs.Log.{log_of};
ghost use Rattle.model.specs.Bytes.{pick};
ghost use Rattle.model.specs.Root.{first_bytes, end_slot};
ghost use Rattle.model.specs.Pending.{pending_at, first_pending, alone, named_slots, end_past, pending_in, pending};
ghost use Rattle.log_scan.specs.Place.{Lent, place_of, judged, Seen, Table};

use model::{Area, Layout, Operation, Pending};

// Where a record stands in a log table: its sector, and its number there.
#[derive(Clone, Copy)]
pub struct Place {
    pub sector: u32,
    pub number: u32,
}

fn sectors_of(log: &[u8]) -> u32
    requires { length log.now ≤ 65536 }
    ensures { result ≡ length log.now / 512 }
{
    (log.len() / 512) as u32
}

// The first pending record of a log table. Sectors that hold none yet are passed over whole.
fn scan(log: &[u8]) -> Option<Place>
    requires { length log.now ≤ 65536 }
    ensures { result ≡ place_of (first_pending (length log.now / 512) (card_of log.now)) (length log.now / 512) }
{
    'log: {
        for s in 0..sectors_of(log) {
            if sector::is_blank(log, s) {
                continue;
            }
            for r in 0..16 {
                if log_record::pends(log, s, r) {
                    break 'log Some(Place {
                        sector: s,
                        number: r,
                    });
                }
            }
        }
        None
    }
}

// The first pending record from record `from` of the table on; the number of records where there is none.
fn next_pending(log: &[u8], from: u32) -> u32
    requires { (length log.now ≤ 65536) × (from ≤ 16 * (length log.now / 512)) }
    ensures { result ≡ first_from (pending_at (card_of log.now)) from (16 * (length log.now / 512) - from) }
{
    let n = 16 * sectors_of(log);
    for k in from..n {
        if log_record::pends(log, k / 16, k % 16) {
            return k;
        }
    }
    n
}

// Whether the m records from the first pending one, record 0 of sector s, are the only pending ones.
#[tactic(auto, using(crate::proofs::Laws::alone_is))]
fn is_alone(log: &[u8], s: u32, m: u32) -> bool
    requires { (length log.now ≤ 65536) × (s < length log.now / 512) × (m ≤ 16)
        × (first_pending (length log.now / 512) (card_of log.now) ≡ 16 * s) }
    ensures { result ≡ alone (length log.now / 512) (card_of log.now) (16 * s) m }
{
    16 * sectors_of(log) <= next_pending(log, 16 * s + m)
}

// What the first pending record, record r of sector s, begins.
#[tactic(auto, using(crate::proofs::Laws::judged_at))]
fn judge(log: &[u8], entries: u32, z: u32, a: Area, s: u32, r: u32) -> Pending
    requires { Lent a log.now × (s < a.sectors) × (r < 16) × (first_pending a.sectors (card_of log.now) ≡ 16 * s + r) }
    ensures { result ≡ judged entries z a (card_of log.now) (16 * s + r) }
{
    if r == 0
        && log_group::group_ok(log, s, entries, z)
        && is_alone(log, s, log_group::group_size(log, s))
    {
        Pending::Held(a.sector + s)
    } else {
        Pending::Broken
    }
}

// What is pending in a log table that lies at `a` and has its first pending record at `place`; z is the lowest root slot beginning 0, as
// RECORD reads it for that record's group.
fn pending_in(log: &[u8], entries: u32, z: u32, a: Area, place: Option<Place>) -> Pending
    requires { Lent a log.now × (place ≡ place_of (first_pending a.sectors (card_of log.now)) a.sectors) }
    ensures { result ≡ pending_in entries (λ _. z) a (card_of log.now) }
{
    match place {
        None => Pending::Nothing,
        Some(p) => judge(log, entries, z, a, p.sector, p.number),
    }
}

// The log table, as a part of the window. The scan is given this and nothing else.
fn table(w: &[u8], a: Area) -> &[u8]
    requires { (512 * (a.sector + a.sectors) ≤ length w.now) × (a.sectors ≤ 128) }
    ensures { Table a w.now result.now }
{
    let from = 512 * a.sector as usize;
    &w[from..from + 512 * a.sectors as usize]
}

// The first pending record of a card's log.
#[tactic(auto, using(crate::proofs::Laws::place_part))]
pub fn place_in(w: &[u8], l: Layout, a: Area) -> Option<Place>
    requires { Held l w.now × (a.sector + a.sectors ≤ l.total) × (a.sectors ≤ 128) }
    ensures { result ≡ place_of (first_pending a.sectors (log_of a (card_of w.now))) a.sectors }
{
    scan(table(w, a))
}

// Whether slot k begins 0, where an operation does not name it.
fn is_open(w: &[u8], l: Layout, o: Operation, k: u32) -> bool
    requires { Held l w.now × (k < l.entries) }
    ensures { result ≡ eqb (pick (among (named_slots o) k) 0xE5 (first_bytes l (card_of w.now) k)) 0 }
{
    !root_names::names(o, k) && root_read::slot_byte(w, l, k, 0) == 0
}

// The lowest slot that does; z is the lowest that begins 0, named or not.
fn end_past(w: &[u8], l: Layout, o: Operation, z: u32) -> u32
    requires { Held l w.now × (z ≡ end_slot l.entries (first_bytes l (card_of w.now))) × (z ≤ l.entries) }
    ensures { result ≡ end_past o l.entries (first_bytes l (card_of w.now)) }
{
    for k in z..l.entries {
        if is_open(w, l, o, k) {
            return k;
        }
    }
    l.entries
}

// The same for the group of the record at a place; z where there is none.
#[tactic(auto, using(crate::proofs::Laws::placed))]
fn seen_end(w: &[u8], l: Layout, a: Area, z: u32, place: Option<Place>) -> u32
    requires held { Held l w.now × (z ≡ end_slot l.entries (first_bytes l (card_of w.now))) × (z ≤ l.entries) }
    requires area { (a.sector + a.sectors ≤ l.total)
        × (place ≡ place_of (first_pending a.sectors (log_of a (card_of w.now))) a.sectors) }
    ensures { Seen l a (card_of w.now) place result }
{
    match place {
        None => z,
        Some(p) => end_past(w, l, log_group::operation_at(w, a.sector + p.sector), z),
    }
}

// What is pending on a card, whose first pending record stands at `place`; z is its lowest slot beginning 0.
pub fn pending_of(w: &[u8], l: Layout, a: Area, z: u32, place: Option<Place>) -> Pending
    requires held { Held l w.now × (z ≡ end_slot l.entries (first_bytes l (card_of w.now))) × (z ≤ l.entries) }
    requires area { (a.sector + a.sectors ≤ l.total) × (a.sectors ≤ 128)
        × (place ≡ place_of (first_pending a.sectors (log_of a (card_of w.now))) a.sectors) }
    ensures { result ≡ pending l a (card_of w.now) }
{
    let seen = seen_end(w, l, a, z, place);
    pending_in(table(w, a), l.entries, seen, a, place)
}
