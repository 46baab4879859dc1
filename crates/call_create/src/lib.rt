// Create, with a long name or without, and rename: the calls that change the root directory and neither data nor FATs.
#![tactic(auto)]

ghost use Rattle.std.specs.Prelude.{true, ◌≡◌, [], ◌*◌, ◌%◌, ◌≤◌, ◌<◌, length, Ok};
ghost use Rattle.model.specs.Bytes.{bytes_of, view};
ghost use Rattle.model.specs.Record.{with_text};
ghost use Rattle.model.specs.LongName.{most_characters};
ghost use Rattle.model.specs.Promises.{Texted, Room};
ghost use Rattle.model.specs.Sector.{card_of, window_of};
ghost use Rattle.model.specs.Root.{name_ok};
ghost use Rattle.model.specs.Ground.{granted};
ghost use Rattle.operations.specs.Finish.{Slots};
ghost use Rattle.operations.specs.Plan.{operate, old_fat, create_stores, rename_stores};
ghost use Rattle.operations.specs.Calls.{name_of, create_as, create_on, create_long_on, rename_as, rename_on, create, create_long, rename};
ghost use Rattle.volume.specs.Opened.{Ready};
ghost use Rattle.call_outcome.specs.Did.{Did};

use model::{Access, Ended, Entry, File, Ground, Operation, Volume};

// The stores of an operation with a text that needs neither data nor FAT stores.
fn record_change(w: &mut [u8], v: Volume, o: Operation, text: &[u8], limit: u32) -> Ended
    requires ready { Ready v w.old }
    requires slots { Slots v.layout.entries (with_text o (bytes_of text.now)) × Texted text.now × Room o text.now }
    ensures { Did limit
        (granted (operate v (card_of w.old) [] (old_fat v (card_of w.old)) (with_text o (bytes_of text.now))))
        w.old w.new (Ok result) }
{
    let mut left = limit;
    let stored = log_steps::log_steps(w, v, o, text, &mut left);
    call_outcome::ended(stored, limit - left)
}

// The stores of a create, once its slot is known.
fn create_at(
    w: &mut [u8],
    v: Volume,
    name: &[u8],
    text: &[u8],
    stamp: u32,
    slot: u32,
    limit: u32,
) -> Ended
    requires ready { Ready v w.old }
    requires slot_and_names { (slot < v.layout.entries) × (name_ok (view name.now) ≡ true) × (length text.now % 2 ≡ 0)
        × (length text.now ≤ 2 * most_characters) }
    ensures { Did limit (granted (create_stores v (card_of w.old) slot (name_of (view name.now)) (view text.now) stamp))
        w.old w.new (Ok result) }
{
    let entry = Entry {
        slot,
        name: root_names::name_of(name),
        attributes: 0x20,
    };
    let o = Operation::Create {
        entry,
        count: root_names::long_slots((text.len() / 2) as u32),
        stamp,
    };
    record_change(w, v, o, text, limit)
}

// Create with a text, once NAME and LONGNAME are asked.
fn create_as(
    w: &mut [u8],
    v: Volume,
    name: &[u8],
    text: &[u8],
    stamp: u32,
    limit: u32,
) -> Result<Ended, Ground>
    requires ready { Ready v w.old }
    requires names { (name_ok (view name.now) ≡ true) × (length text.now % 2 ≡ 0) × (length text.now ≤ 2 * most_characters) }
    ensures { Did limit (create_as v (card_of w.old) (view name.now) (view text.now) stamp) w.old w.new result }
{
    let s = root_lookup::new_slot(w, v, name, text)?;
    Ok(create_at(w, v, name, text, stamp, s, limit))
}

// Create, on a clean card.
fn create_on(w: &mut [u8], v: Volume, name: &[u8], stamp: u32, limit: u32) -> Result<Ended, Ground>
    requires { Ready v w.old }
    ensures { Did limit (create_on v (card_of w.old) (view name.now) stamp) w.old w.new result }
{
    if !root_names::is_name(name) {
        return Err(Ground::Name);
    }
    create_as(w, v, name, &[], stamp, limit)
}

pub fn create(w: &mut [u8], name: &[u8], seconds: u32, limit: u32) -> Result<Ended, Ground>
    ensures { Did limit (create (window_of w.old) (view name.now) seconds) w.old w.new result }
{
    let v = volume::clean_at(w, seconds)?;
    create_on(w, v, name, clock::stamp(seconds), limit)
}

// Create with a long name, on a clean card.
fn create_long_on(
    w: &mut [u8],
    v: Volume,
    name: &[u8],
    text: &[u8],
    stamp: u32,
    limit: u32,
) -> Result<Ended, Ground>
    requires { Ready v w.old }
    ensures { Did limit (create_long_on v (card_of w.old) (view name.now) (view text.now) stamp) w.old
        w.new result }
{
    if !root_names::is_name(name) {
        return Err(Ground::Name);
    }
    if !root_names::is_text(text) {
        return Err(Ground::Longname);
    }
    create_as(w, v, name, text, stamp, limit)
}

pub fn create_long(
    w: &mut [u8],
    name: &[u8],
    text: &[u8],
    seconds: u32,
    limit: u32,
) -> Result<Ended, Ground>
    ensures { Did limit (create_long (window_of w.old) (view name.now) (view text.now) seconds) w.old
        w.new result }
{
    let v = volume::clean_at(w, seconds)?;
    create_long_on(w, v, name, text, clock::stamp(seconds), limit)
}

// The stores of a rename, once its slots are known.
fn rename_to(w: &mut [u8], v: Volume, f: File, name: &[u8], to: u32, limit: u32) -> Ended
    requires ready { Ready v w.old }
    requires slots_and_name { (f.entry.slot < v.layout.entries) × (to < v.layout.entries) × (name_ok (view name.now) ≡ true) }
    ensures { Did limit (granted (rename_stores v (card_of w.old) f to (name_of (view name.now)))) w.old w.new (Ok result) }
{
    let l = v.layout;
    let entry = f.entry;
    let o = Operation::Rename {
        entry,
        count: root_long::long_count(w, l, entry.slot),
        first: f.first,
        size: f.size,
        to,
        renamed: root_names::name_of(name),
    };
    record_change(w, v, o, &[], limit)
}

// Rename of a file, whose new name keeps the name rule.
fn rename_as(w: &mut [u8], v: Volume, f: File, name: &[u8], limit: u32) -> Result<Ended, Ground>
    requires ready { Ready v w.old }
    requires slot_and_name { (f.entry.slot < v.layout.entries) × (name_ok (view name.now) ≡ true) }
    ensures { Did limit (rename_as v (card_of w.old) f (view name.now)) w.old w.new result }
{
    let s = root_lookup::new_slot(w, v, name, &[])?;
    Ok(rename_to(w, v, f, name, s, limit))
}

// Rename, on a clean card.
fn rename_on(w: &mut [u8], v: Volume, old: &[u8], new: &[u8], limit: u32) -> Result<Ended, Ground>
    requires { Ready v w.old }
    ensures { Did limit (rename_on v (card_of w.old) (view old.now) (view new.now)) w.old w.new result }
{
    if !root_names::is_name(old) || !root_names::is_name(new) {
        return Err(Ground::Name);
    }
    let f = root_lookup::file_named(w, v, Access::Write, old)?;
    rename_as(w, v, f, new, limit)
}

pub fn rename(w: &mut [u8], old: &[u8], new: &[u8], limit: u32) -> Result<Ended, Ground>
    ensures { Did limit (rename (window_of w.old) (view old.now) (view new.now)) w.old w.new result }
{
    let v = volume::clean(w)?;
    rename_on(w, v, old, new, limit)
}
