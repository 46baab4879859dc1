// The root directory: its slots, and the slot of a name.
#![tactic(auto)]

ghost use Rattle.std.specs.Prelude.{◌≡◌, ℕ, Bool, true, ◌+◌, ◌-◌, ◌*◌, ◌/◌, ◌%◌, ◌≤◌, ◌<◌, eqb};
ghost use Rattle.model.specs.Scan.{all_from, first_from};
ghost use Rattle.model.specs.Sector.{card_of};
ghost use Rattle.model.specs.Promises.{Fits, Held};
ghost use Rattle.model.specs.Root.{root_place, slot_at, listed, is_directory, bears, find, first_bytes, end_slot, root_ok, file_at};
ghost use Rattle.model.specs.Root.{vacant, free_run};
ghost use Rattle.root_read.specs.Seek.{Tests, Unwritten};

use model::{Entry, File, Layout, Name};

// Where root sector r lies on the card.
pub fn root_place(l: Layout, r: u32) -> u32
    requires { Fits l × (r < l.entries / 16) }
    ensures { (result ≡ root_place l r) × (l.root ≤ result) × (result < l.start) }
{
    l.root + r
}

// Where slot k begins in the window.
pub fn slot_start(l: Layout, k: u32) -> usize
    requires { Fits l × (k < l.entries) }
    ensures { (result ≡ 512 * root_place l (k / 16) + 32 * (k % 16)) × (result + 32 ≤ 512 * l.total) }
{
    512 * root_place(l, k / 16) as usize + 32 * (k % 16) as usize
}

// Byte j of slot k.
pub fn slot_byte(w: &[u8], l: Layout, k: u32, j: u32) -> u32
    requires { Held l w.now × (k < l.entries) × (j < 32) }
    ensures { (result ≡ slot_at l (card_of w.now) k j) × (result < 256) }
{
    sector::byte(w, root_place(l, k / 16), 32 * (k % 16) + j)
}

// The lowest slot beginning 0; the number of slots where there is none.
pub fn end_slot(w: &[u8], l: Layout) -> u32
    requires { Held l w.now }
    ensures { (result ≡ end_slot l.entries (first_bytes l (card_of w.now))) × (result ≤ l.entries) }
{
    for k in 0..l.entries {
        if slot_byte(w, l, k, 0) == 0 {
            return k;
        }
    }
    l.entries
}

// Whether a sector of the root begins at slot k, and all of its slots begin 0: what seeks other slots passes it over whole.
pub fn is_blank(w: &[u8], l: Layout, k: u32) -> bool
    requires { Held l w.now × (k < l.entries) }
    ensures { result ≡ true → (k + 16 ≤ l.entries) × (all_from (λ m. eqb (slot_at l (card_of w.now) m 0) 0) k 16 ≡ true) }
{
    k % 16 == 0 && sector::is_blank(w, root_place(l, k / 16))
}

// The lowest slot, `from` or above, that a test takes; the number of slots where there is none. The test takes no slot beginning 0, so sectors in
// which nothing was ever used are passed over whole.
pub fn seek<F: Fn(u32) -> bool>(w: &[u8], l: Layout, from: u32, test: F) -> u32
    requires held { Held l w.now × (from ≤ l.entries) }
    requires callable { (k : ℕ) → k < l.entries → F.pre test k }
    ensures found { (p : ℕ → Bool) → Tests (F.post test) p l.entries → Unwritten l (card_of w.now) p → result ≡ first_from p from (l.entries - from) }
    ensures within { result ≤ l.entries }
{
    // no `for`, since k passes over whole sectors
    let mut k = from;
    while k < l.entries {
        if is_blank(w, l, k) {
            k += 16;
            continue;
        }
        if test(k) {
            return k;
        }
        k += 1;
    }
    k
}

// Whether no slot after z, the lowest one beginning 0, begins otherwise.
pub fn root_ok(w: &[u8], l: Layout, z: u32) -> bool
    requires { Held l w.now × (z ≡ end_slot l.entries (first_bytes l (card_of w.now))) × (z ≤ l.entries) }
    ensures { result ≡ root_ok l.entries (first_bytes l (card_of w.now)) }
{
    seek(w, l, z, |k| slot_byte(w, l, k, 0) != 0) == l.entries
}

// Whether a new entry can take slot k.
fn is_vacant(w: &[u8], l: Layout, k: u32) -> bool
    requires { Held l w.now × (k < l.entries) }
    ensures { result ≡ vacant (slot_at l (card_of w.now) k) }
{
    let b = slot_byte(w, l, k, 0);
    b == 0 || b == 0xE5
}

// A live slot that is no label or long-name entry.
pub fn is_listed(w: &[u8], l: Layout, k: u32) -> bool
    requires { Held l w.now × (k < l.entries) }
    ensures { result ≡ listed (slot_at l (card_of w.now) k) }
{
    !is_vacant(w, l, k) && slot_byte(w, l, k, 11) & 0x08 == 0
}

pub fn is_directory(w: &[u8], l: Layout, k: u32) -> bool
    requires { Held l w.now × (k < l.entries) }
    ensures { result ≡ is_directory (slot_at l (card_of w.now) k) }
{
    slot_byte(w, l, k, 11) & 0x10 != 0
}

fn has_name(w: &[u8], l: Layout, k: u32, name: Name) -> bool
    requires { Held l w.now × (k < l.entries) }
    ensures { result ≡ bears name (slot_at l (card_of w.now) k) }
{
    is_listed(w, l, k) && root_names::name_at(w, root_place(l, k / 16), 32 * (k % 16)) == name
}

// The lowest slot with the name; the number of slots where there is none.
pub fn find_slot(w: &[u8], l: Layout, name: Name) -> u32
    requires { Held l w.now }
    ensures { (result ≡ find l (card_of w.now) name) × (result ≤ l.entries) }
{
    seek(w, l, 0, |k| has_name(w, l, k, name))
}

// The lowest slot that begins m that new entries can take; where none does, the lowest with fewer than m from it on.
pub fn free_run(w: &[u8], l: Layout, m: u32) -> u32
    requires { Held l w.now × (1 ≤ m) }
    ensures { (result ≡ free_run l (card_of w.now) m) × (result ≤ l.entries) }
{
    let mut start = 0;
    for k in 0..l.entries {
        if !is_vacant(w, l, k) {
            start = k + 1;
        } else if k + 1 - start == m {
            return start;
        }
    }
    (l.entries + 1).saturating_sub(m)
}

// The file in a slot.
pub fn file_at(w: &[u8], l: Layout, k: u32) -> File
    requires { Held l w.now × (k < l.entries) }
    ensures { result ≡ file_at l (card_of w.now) k }
{
    let s = root_place(l, k / 16);
    let j = 32 * (k % 16);
    File {
        entry: Entry {
            slot: k,
            name: root_names::name_at(w, s, j),
            attributes: sector::byte(w, s, j + 11),
        },
        first: sector::le::<2>(w, s, j + 26),
        size: sector::le::<4>(w, s, j + 28),
    }
}
