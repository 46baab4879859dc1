// Files by name: grounds 8 to 13, and 16.
#![tactic(auto)]

ghost use Rattle.std.specs.Prelude.{◌≡◌, true, ◌*◌, ◌≤◌, ◌<◌, length};
ghost use Rattle.std.specs.Result.{IfOk};
ghost use Rattle.model.specs.Bytes.{view};
ghost use Rattle.model.specs.Sector.{card_of};
ghost use Rattle.model.specs.Root.{name_ok, slot_holds, lookup};
ghost use Rattle.model.specs.LongName.{most_characters};
ghost use Rattle.model.specs.declared.Lookup.TheVariants as Lookup;
ghost use Rattle.model.specs.Promises.{Held};
ghost use Rattle.model.specs.Ground.{answer_of};
ghost use Rattle.operations.specs.Calls.{name_of, slot_of, admit, file_named, whole, file_of, taken, text_taken, new_slot};
ghost use Rattle.root_lookup.specs.Found.{Seated, Chained, run_answer};

use model::{Access, File, Ground, Layout, Lookup, Volume};

// The slot that a name means; as many as there are slots where none has it.
pub fn slot_of(w: &[u8], v: Volume, name: &[u8]) -> u32
    requires { Held v.layout w.now × (name_ok (view name.now) ≡ true) }
    ensures { (result ≡ slot_of v (card_of w.now) (view name.now)) × (result ≤ v.layout.entries) }
{
    let l = v.layout;
    root_read::find_slot(w, l, root_names::name_of(name))
}

// What is in the slot that a name means.
fn look_in(w: &[u8], v: Volume, s: u32) -> Lookup
    requires { Held v.layout w.now × (s ≤ v.layout.entries) }
    ensures { result ≡ slot_holds v.layout (card_of w.now) s }
{
    let l = v.layout;
    if l.entries <= s {
        return Lookup::Absent;
    }
    if root_read::is_directory(w, l, s) {
        return Lookup::Directory;
    }
    let file = root_read::file_at(w, l, s);
    let locked = file.entry.attributes % 2 == 1;
    Lookup::File { file, locked }
}

// What a name means.
fn look_up(w: &[u8], v: Volume, name: &[u8]) -> Lookup
    requires { Held v.layout w.now × (name_ok (view name.now) ≡ true) }
    ensures { result ≡ lookup v.layout (card_of w.now) (name_of (view name.now)) }
{
    look_in(w, v, slot_of(w, v, name))
}

// LOCKED, if the file is to be changed.
fn ask_mark(a: Access, f: File, locked: bool) -> Result<File, Ground>
    ensures { answer_of result ≡ admit a (Lookup.File f locked) }
{
    match a {
        Access::Write if locked => Err(Ground::Locked),
        Access::Write => Ok(f),
        Access::Read => Ok(f),
    }
}

// ABSENT, DIRECTORY and LOCKED.
fn admit(a: Access, o: Lookup) -> Result<File, Ground>
    ensures { answer_of result ≡ admit a o }
{
    match o {
        Lookup::Absent => Err(Ground::Absent),
        Lookup::Directory => Err(Ground::Directory),
        Lookup::File { file, locked } => ask_mark(a, file, locked),
    }
}

// The file that a name means, for reading or for writing.
pub fn file_named(w: &[u8], v: Volume, a: Access, name: &[u8]) -> Result<File, Ground>
    requires { Held v.layout w.now × (name_ok (view name.now) ≡ true) }
    ensures answer { answer_of result ≡ file_named a v (card_of w.now) (view name.now) }
    ensures seated { IfOk result (Seated v (card_of w.now)) }
{
    admit(a, look_up(w, v, name))
}

// CHAIN.
fn keep_whole(w: &[u8], v: Volume, f: File) -> Result<File, Ground>
    requires { Held v.layout w.now × Seated v (card_of w.now) f }
    ensures answer { answer_of result ≡ whole v (card_of w.now) f }
    ensures chained { IfOk result (Chained v (card_of w.now)) }
{
    let l = v.layout;
    if !fat_chain::keeps(w, l, f.first, f.size) {
        return Err(Ground::Chain);
    }
    Ok(f)
}

// The file that a name means, with NAME asked before and CHAIN after.
pub fn file_of(w: &[u8], v: Volume, a: Access, name: &[u8]) -> Result<File, Ground>
    requires { Held v.layout w.now }
    ensures answer { answer_of result ≡ file_of a v (card_of w.now) (view name.now) }
    ensures chained { IfOk result (Chained v (card_of w.now)) }
{
    if !root_names::is_name(name) {
        return Err(Ground::Name);
    }
    let f = file_named(w, v, a, name)?;
    keep_whole(w, v, f)
}

// EXISTS.
fn is_taken(w: &[u8], v: Volume, name: &[u8]) -> bool
    requires { Held v.layout w.now × (name_ok (view name.now) ≡ true) }
    ensures { result ≡ taken v (card_of w.now) (view name.now) }
{
    slot_of(w, v, name) < v.layout.entries
}

// EXISTS, of a text that is not empty.
fn is_text_taken(w: &[u8], v: Volume, text: &[u8]) -> bool
    requires { Held v.layout w.now }
    ensures { result ≡ text_taken v (card_of w.now) (view text.now) }
{
    let l = v.layout;
    !text.is_empty() && root_long::find_text(w, l, text) < l.entries
}

// ROOTFULL: the last slot of the lowest run of n + 1 free ones.
fn free_end(w: &[u8], l: Layout, n: u32) -> Result<u32, Ground>
    requires { Held l w.now × (n ≤ 16) }
    ensures answer { answer_of result ≡ run_answer l (card_of w.now) n }
    ensures inside { IfOk result (λ s. s < l.entries) }
{
    let s = root_read::free_run(w, l, n + 1);
    if s + n < l.entries {
        return Ok(s + n);
    }
    Err(Ground::Rootfull)
}

// EXISTS and ROOTFULL: the slot for a new name with a text.
pub fn new_slot(w: &[u8], v: Volume, name: &[u8], text: &[u8]) -> Result<u32, Ground>
    requires { Held v.layout w.now × (name_ok (view name.now) ≡ true) × (length text.now ≤ 2 * most_characters) }
    ensures answer { answer_of result ≡ new_slot v (card_of w.now) (view name.now) (view text.now) }
    ensures inside { IfOk result (λ s. s < v.layout.entries) }
{
    if is_taken(w, v, name) || is_text_taken(w, v, text) {
        return Err(Ground::Exists);
    }
    let l = v.layout;
    free_end(w, l, root_names::long_slots((text.len() / 2) as u32))
}
