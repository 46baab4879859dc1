// Long names: the checksum of a short one, the entries of its long name that stand before its slot, and the characters in them.
#![tactic(auto)]

ghost use Rattle.std.specs.Prelude.{◌≡◌, ◌*◌, ◌/◌, ◌≤◌, ◌<◌, eqb, length};
ghost use Rattle.model.specs.Bytes.{bytes_of, view};
ghost use Rattle.model.specs.Scan.{all};
ghost use Rattle.model.specs.Sector.{card_of};
ghost use Rattle.model.specs.Root.{slot_at};
ghost use Rattle.model.specs.Long.{checksum, is_long, long_count};
ghost use Rattle.model.specs.LongName.{character, long_byte, long_character, long_length, has_text, find_text};
ghost use Rattle.model.specs.Promises.{Held};

use model::Layout;

// The checksum of the name in slot k.
fn checksum(w: &[u8], l: Layout, k: u32) -> u8
    requires { Held l w.now × (k < l.entries) }
    ensures { result ≡ checksum (slot_at l (card_of w.now) k) }
{
    root_names::checksum(w, root_read::slot_start(l, k))
}

// Whether slot k holds a long entry that begins with this order byte, of a name with this checksum.
fn is_long(w: &[u8], l: Layout, k: u32, sum: u32, order: u32) -> bool
    requires { Held l w.now × (k < l.entries) }
    ensures { result ≡ is_long sum order (slot_at l (card_of w.now) k) }
{
    root_read::slot_byte(w, l, k, 0) == order
        && root_read::slot_byte(w, l, k, 11) == 0x0F
        && root_read::slot_byte(w, l, k, 13) == sum
}

// How many long entries belong to slot s: it goes back to the one that bears 0x40, over 20 at most.
pub fn long_count(w: &[u8], l: Layout, s: u32) -> u32
    requires { Held l w.now × (s < l.entries) }
    ensures { result ≡ long_count (slot_at l (card_of w.now)) s }
{
    let sum = u32::from(checksum(w, l, s));
    for i in 1..=root_names::MOST_LONG {
        if s < i {
            return 0;
        }
        if is_long(w, l, s - i, sum, 0x40 + i) {
            return i;
        }
        if !is_long(w, l, s - i, sum, i) {
            return 0;
        }
    }
    0
}

// Byte i of the characters in the entries before slot s.
pub fn long_byte(w: &[u8], l: Layout, s: u32, i: u32) -> u32
    requires { Held l w.now × (s < l.entries) × (i / 26 < s) }
    ensures { (result ≡ long_byte (slot_at l (card_of w.now)) s i) × (result < 256) }
{
    let k = s - (i / 26 + 1);
    root_read::slot_byte(w, l, k, root_names::place(i / 2 % 13) + i % 2)
}

// Character q of them.
fn character_at(w: &[u8], l: Layout, s: u32, q: u32) -> u32
    requires { Held l w.now × (s < l.entries) × (q / 13 < s) }
    ensures { result ≡ long_character (slot_at l (card_of w.now)) s q }
{
    long_byte(w, l, s, 2 * q) + 256 * long_byte(w, l, s, 2 * q + 1)
}

// How many characters the long name of slot s has: those before the first zero.
pub fn long_length(w: &[u8], l: Layout, s: u32) -> u32
    requires { Held l w.now × (s < l.entries) }
    ensures { (result ≡ long_length (slot_at l (card_of w.now)) s) × (result ≤ 260) × (result ≤ 13 * s) }
{
    let n = 13 * long_count(w, l, s);
    for q in 0..n {
        if character_at(w, l, s, q) == 0 {
            return q;
        }
    }
    n
}

// Whether the first of them, as many as a text has, are the text's.
fn has_characters(w: &[u8], l: Layout, s: u32, t: &[u8]) -> bool
    requires { Held l w.now × (s < l.entries) × (length t.now / 2 ≤ 13 * s) }
    ensures { result ≡ all (λ q. eqb (long_character (slot_at l (card_of w.now)) s q) (character (bytes_of t.now) q)) (length t.now / 2) }
{
    for q in 0..t.len() / 2 {
        if character_at(w, l, s, q as u32) != root_names::character(t, q) {
            return false;
        }
    }
    true
}

// Whether slot s is sought by name and has a text as its long name.
fn has_text(w: &[u8], l: Layout, s: u32, t: &[u8]) -> bool
    requires { Held l w.now × (s < l.entries) }
    ensures { result ≡ has_text (view t.now) (slot_at l (card_of w.now)) s }
{
    root_read::is_listed(w, l, s)
        && long_length(w, l, s) as usize == t.len() / 2
        && has_characters(w, l, s, t)
}

// The lowest slot with a text as its long name; the number of slots where there is none.
pub fn find_text(w: &[u8], l: Layout, t: &[u8]) -> u32
    requires { Held l w.now }
    ensures { (result ≡ find_text l (card_of w.now) (view t.now)) × (result ≤ l.entries) }
{
    root_read::seek(w, l, 0, |k| has_text(w, l, k, t))
}
