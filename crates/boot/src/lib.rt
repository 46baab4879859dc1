// The boot sector, read into a layout.
#![tactic(auto)]

ghost use Rattle.std.specs.Prelude.{◌≡◌, true, ◌+◌, ◌≤◌, ◌<◌, length};
ghost use Rattle.model.specs.Sector.{card_of};
ghost use Rattle.model.specs.Boot.{total_sectors, fields, arrange, signed, fields_ok, fat_holds};
ghost use Rattle.boot.specs.Booted.{booted, sized, Placed, Narrow};

use model::{Fields, Layout};

#[tactic(auto, unfolding(model::specs::Boot::total_sectors))]
fn total_sectors(w: &[u8]) -> u32
    requires { 512 ≤ length w.now }
    ensures { result ≡ total_sectors (card_of w.now 0) }
{
    let short = sector::le::<2>(w, 0, 19);
    if short == 0 {
        sector::le::<4>(w, 0, 32)
    } else {
        short
    }
}

#[tactic(auto, unfolding(model::specs::Boot::fields))]
fn fields_of(w: &[u8]) -> Fields
    requires { 512 ≤ length w.now }
    ensures { (result ≡ fields (card_of w.now 0)) × Narrow result }
{
    Fields {
        factor: sector::byte(w, 0, 13),
        reserved: sector::le::<2>(w, 0, 14),
        fatsize: sector::le::<2>(w, 0, 22),
        entries: sector::le::<2>(w, 0, 17),
        total: total_sectors(w),
    }
}

#[tactic(auto, unfolding(model::specs::Boot::signed, model::specs::Scan::every))]
fn is_signed(w: &[u8]) -> bool
    requires { 512 ≤ length w.now }
    ensures { result ≡ signed (card_of w.now 0) }
{
    sector::byte(w, 0, 510) == 0x55
        && sector::byte(w, 0, 511) == 0xAA
        && sector::le::<2>(w, 0, 11) == 512
        && sector::byte(w, 0, 16) == 2
}

#[tactic(auto, unfolding(model::specs::Boot::fields_ok, model::specs::Scan::every))]
pub fn is_plain(f: Fields) -> bool
    ensures { result ≡ fields_ok f }
{
    f.factor.count_ones() == 1
        && f.factor <= 64
        && 1 <= f.reserved
        && f.entries % 16 == 0
        && 1 <= f.entries
        && 1 <= f.fatsize
}

// How many clusters the data region has. Sectors per cluster are 2 to the power of their trailing zeros.
fn clusters_of(f: Fields) -> u32
    requires { Narrow f × (fields_ok f ≡ true) }
    ensures { (result ≡ (arrange f).clusters) × (result + 2 < 4294967296) }
{
    let start = f.reserved + 2 * f.fatsize + f.entries / 16;
    f.total.saturating_sub(start) >> f.factor.trailing_zeros()
}

// Whether a FAT has an entry for each of them, and two more.
#[tactic(auto, unfolding(model::specs::Boot::arrange))]
pub fn fat_holds(f: Fields) -> bool
    requires { Narrow f × (fields_ok f ≡ true) }
    ensures { result ≡ fat_holds (arrange f) }
{
    clusters_of(f) + 2 <= 256 * f.fatsize
}

// The layout of fields that were accepted, if its sizes are.
#[tactic(auto, unfolding(crate::specs::Booted::sized, model::specs::Boot::size_ok, model::specs::Scan::every, model::specs::Scan::between))]
pub fn arranged(f: Fields) -> Option<Layout>
    requires { Narrow f × (fields_ok f ≡ true) }
    ensures { (result ≡ sized (arrange f)) × Placed result }
{
    let clusters = clusters_of(f);
    if clusters < 4085 || 65524 < clusters || !fat_holds(f) {
        return None;
    }
    let root = f.reserved + 2 * f.fatsize;
    Some(Layout {
        factor: f.factor,
        fatsize: f.fatsize,
        fat1: f.reserved,
        fat2: f.reserved + f.fatsize,
        root,
        entries: f.entries,
        start: root + f.entries / 16,
        total: f.total,
        clusters,
    })
}

// The layout that sector 0 gives.
#[tactic(auto, unfolding(crate::specs::Booted::booted, model::specs::Boot::boot_ok, model::specs::Scan::every))]
pub fn boot(w: &[u8]) -> Option<Layout>
    requires { 512 ≤ length w.now }
    ensures { (result ≡ booted (card_of w.now 0)) × Placed result }
{
    if !is_signed(w) {
        return None;
    }
    let f = fields_of(w);
    if !is_plain(f) {
        return None;
    }
    arranged(f)
}
