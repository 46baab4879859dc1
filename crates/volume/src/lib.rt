// Grounds 1 to 7 of a card, asked in order.
#![tactic(auto)]

ghost use Rattle.std.specs.Prelude.{◌≡◌, ◌≤◌};
ghost use Rattle.std.specs.Result.{IfOk};
ghost use Rattle.model.specs.Sector.{card_of, window_of};
ghost use Rattle.model.specs.Calendar.{last_second};
ghost use Rattle.model.specs.Ground.{answer_of};
ghost use Rattle.model.specs.Pending.{pending};
ghost use Rattle.model.specs.Volume.{mount, inspect, examine, settled, clean, clean_at};
ghost use Rattle.model.specs.Promises.{Held};
ghost use Rattle.fat_read.specs.Located.{Lies};
ghost use Rattle.volume.specs.Examined.{Carried, examine_on};
ghost use Rattle.volume.specs.Opened.{Ready, Legible};

use model::{Area, Ground, Layout, Pending, Volume};

// Grounds 1 to 3.
fn mount(w: &[u8]) -> Result<Layout, Ground>
    ensures answer { answer_of result ≡ mount (window_of w.now) }
    ensures held { IfOk result (λ l. Held l w.now) }
{
    if w.len() < 512 {
        return Err(Ground::Short);
    }
    let Some(l) = boot::boot(w) else {
        return Err(Ground::Boot);
    };
    if w.len() < 512 * l.total as usize {
        return Err(Ground::Window);
    }
    Ok(l)
}

// Grounds 5 and 6. The log is read first, since what is pending may tell how the root is to be read.
fn inspect(w: &[u8], l: Layout, a: Area) -> Result<Volume, Ground>
    requires { Held l w.now × Lies l a }
    ensures answer { answer_of result ≡ inspect (card_of w.now) l a (pending l a (card_of w.now)) }
    ensures carried { IfOk result (λ v. Carried v w.now) }
{
    let place = log_scan::place_in(w, l, a);
    let z = root_read::end_slot(w, l);
    let p = log_scan::pending_of(w, l, a, z, place);
    if !root_read::root_ok(w, l, z) {
        return Err(Ground::Root);
    }
    if let Pending::Broken = p {
        return Err(Ground::Record);
    }
    Ok(Volume {
        layout: l,
        log: a,
        pending: p,
    })
}

// Grounds 4 to 6.
fn examine_log(w: &[u8], l: Layout) -> Result<Volume, Ground>
    requires { Held l w.now }
    ensures answer { answer_of result ≡ examine_on (card_of w.now) l }
    ensures carried { IfOk result (λ v. Carried v w.now) }
{
    let Some(a) = fat_read::locate(w, l) else {
        return Err(Ground::Logarea);
    };
    inspect(w, l, a)
}

// Grounds 1 to 6.
pub fn examine(w: &[u8]) -> Result<Volume, Ground>
    ensures answer { answer_of result ≡ examine (window_of w.now) }
    ensures legible { IfOk result (λ v. Legible v w.now) }
{
    let l = mount(w)?;
    examine_log(w, l)
}

// Ground 7.
fn settle(w: &[u8], v: Volume) -> Result<Volume, Ground>
    requires { Carried v w.now }
    ensures answer { answer_of result ≡ settled (card_of w.now) v }
    ensures carried { IfOk result (λ v. Carried v w.now) }
{
    if let Pending::Held(_) = v.pending {
        return Err(Ground::Unclean);
    }
    let l = v.layout;
    if !fat_read::agree(w, l) {
        return Err(Ground::Unclean);
    }
    Ok(v)
}

// Grounds 1 to 7. Inlined, so that a call that reads keeps to 512 bytes of stack.
#[inline(always)]
pub fn clean(w: &[u8]) -> Result<Volume, Ground>
    ensures answer { answer_of result ≡ clean (window_of w.now) }
    ensures ready { IfOk result (λ v. Ready v w.now) }
{
    let v = examine(w)?;
    settle(w, v)
}

// Grounds 1 to 7, and CLOCK.
pub fn clean_at(w: &[u8], seconds: u32) -> Result<Volume, Ground>
    ensures answer { answer_of result ≡ clean_at (window_of w.now) seconds }
    ensures ready { IfOk result (λ v. Ready v w.now × (seconds ≤ last_second)) }
{
    let v = clean(w)?;
    if clock::LAST_SECOND < seconds {
        return Err(Ground::Clock);
    }
    Ok(v)
}
