// Names of 8 and 3 bytes: the rule that they keep, the numbers in them, and the slots that a name takes; the text of a long name.
#![tactic(auto)]

ghost use Rattle.std.specs.Prelude.{◌≡◌, ℕ, ◌+◌, ◌*◌, ◌%◌, ◌<◌, ◌≤◌, Bool, ◌||◌, map, length};
ghost use Rattle.model.specs.Bytes.{bytes_of, part, view};
ghost use Rattle.model.specs.Scan.{any, among};
ghost use Rattle.model.specs.Sector.{card_of};
ghost use Rattle.model.specs.Long.{name_slots, checksum};
ghost use Rattle.model.specs.Record.{text_room, text_length};
ghost use Rattle.model.specs.Pending.{named_slots};
ghost use Rattle.model.specs.LongName.{place, character, forbidden, all_allowed, long_slots, text_ok};
ghost use Rattle.model.specs.Root.{name_byte, stem_length, padded, name_ok, name_in};

use model::{Name, Operation};

// The most entries that a long name has.
pub const MOST_LONG: u32 = 20;

// The most characters that a long name is given.
pub const MOST_CHARACTERS: usize = 208;

// Where a long entry has its characters.
pub const PLACES: [u32; 13] = [1, 3, 5, 7, 9, 14, 16, 18, 20, 22, 24, 28, 30];

// Capital letters, digits and ! # $ % & ' ( ) - @ ^ _ ` { } ~
fn name_byte(b: u8) -> bool
    ensures { result ≡ name_byte b }
{
    matches!(
        b,
        b'A'..=b'Z' | b'0'..=b'9' | b'!' | b'#'..=b')' | b'-' | b'@' | b'^'..=b'`' | b'{' | b'}' | b'~'
    )
}

// How many name bytes the n bytes from `at` on begin with.
fn stem_length(s: &[u8], at: usize, n: usize) -> usize
    requires { at + n ≤ length s.now }
    ensures { (result ≡ stem_length n (part (bytes_of s.now) at)) × (result ≤ n) }
{
    for i in 0..n {
        if !name_byte(s[at + i]) {
            return i;
        }
    }
    n
}

// Whether only spaces follow those.
fn is_padded(s: &[u8], at: usize, n: usize) -> bool
    requires { at + n ≤ length s.now }
    ensures { result ≡ padded n (part (bytes_of s.now) at) }
{
    for i in stem_length(s, at, n)..n {
        if s[at + i] != b' ' {
            return false;
        }
    }
    true
}

// The name rule, of a slice of any length.
pub fn is_name(s: &[u8]) -> bool
    ensures { result ≡ name_ok (view s.now) }
{
    s.len() == 11 && is_padded(s, 0, 8) && is_padded(s, 8, 3) && s[0] != b' '
}

// The name in the 11 bytes of sector s from j on.
pub fn name_at(w: &[u8], s: u32, j: u32) -> Name
    requires { (512 * s + (j + 11) ≤ length w.now) × (j + 11 ≤ 512) }
    ensures { result ≡ name_in (part (card_of w.now s) j) }
{
    Name {
        stem: sector::le64(w, s, j),
        extension: sector::le::<3>(w, s, j + 8),
    }
}

// The name in the first 11 bytes of a slice.
pub fn name_of(s: &[u8]) -> Name
    requires { 11 ≤ length s.now }
    ensures { result ≡ name_in (bytes_of s.now) }
{
    name_at(s, 0, 0)
}

// Whether slot k is slot s of a name, or one of the n directly before it, which entries of its long name take.
pub fn has_slot(s: u32, n: u32, k: u32) -> bool
    ensures { result ≡ among (name_slots s n) k }
{
    k <= s && s - k <= n
}

// The slots that an operation names: slot `slot` of a name, the `count` before it, and slot `to`, which is the same one where there is no other.
#[derive(Clone, Copy)]
pub struct NamedSlots {
    pub slot: u32,
    pub count: u32,
    pub to: u32,
}

// The slots of one name.
fn one_name(slot: u32, count: u32) -> NamedSlots
    ensures { (q : ℕ → Bool) → any (map q (name_slots slot count)) ≡ (any (map q (name_slots result.slot result.count)) || q result.to) }
{
    NamedSlots {
        slot,
        count,
        to: slot,
    }
}

// The slots that an operation names.
pub fn slots_of(o: Operation) -> NamedSlots
    ensures { (q : ℕ → Bool) → any (map q (named_slots o)) ≡ (any (map q (name_slots result.slot result.count)) || q result.to) }
{
    match o {
        Operation::Create { entry, count, .. } | Operation::Delete { entry, count, .. } => {
            one_name(entry.slot, count)
        }
        Operation::Update { entry, .. }
        | Operation::Truncate { entry, .. }
        | Operation::Replace { entry, .. } => one_name(entry.slot, 0),
        Operation::Rename {
            entry,
            count,
            to,
            ..
        } => NamedSlots {
            slot: entry.slot,
            count,
            to,
        },
    }
}

// Whether an operation names slot k, as its own or its long name's.
pub fn names(o: Operation, k: u32) -> bool
    ensures { result ≡ among (named_slots o) k }
{
    let named = slots_of(o);
    has_slot(named.slot, named.count, k) || k == named.to
}

// Where a long entry has character k of its thirteen.
pub fn place(k: u32) -> u32
    requires { k < 13 }
    ensures { (result ≡ place k) × (1 ≤ result) × (result ≤ 30) }
{
    PLACES[k as usize]
}

// Character q of a text.
pub fn character(t: &[u8], q: usize) -> u32
    requires { 2 * q + 2 ≤ length t.now }
    ensures { (result ≡ character (bytes_of t.now) q) × (result < 65536) }
{
    u32::from(t[2 * q]) + 256 * u32::from(t[2 * q + 1])
}

// Those below 32 and " * / : < > ? \ |
fn is_forbidden(c: u32) -> bool
    ensures { result ≡ forbidden c }
{
    matches!(c, 0..=31 | 34 | 42 | 47 | 58 | 60 | 62..=63 | 92 | 124)
}

// Whether none of the first n characters is.
pub fn all_allowed(t: &[u8], n: usize) -> bool
    requires { 2 * n ≤ length t.now }
    ensures { result ≡ all_allowed (bytes_of t.now) n }
{
    for q in 0..n {
        if is_forbidden(character(t, q)) {
            return false;
        }
    }
    true
}

// The checksum of the name in the 11 bytes from `at` on.
pub fn checksum(s: &[u8], at: usize) -> u8
    requires { at + 11 ≤ length s.now }
    ensures { result ≡ checksum (part (bytes_of s.now) at) }
{
    let mut sum = 0u8;
    for i in 0..11 {
        sum = sum.rotate_right(1).wrapping_add(s[at + i]);
    }
    sum
}

// How many long slots n characters need.
pub fn long_slots(n: u32) -> u32
    requires { n < 65536 }
    ensures { result ≡ long_slots n }
{
    (n + 12) / 13
}

// How many characters a text has before its first zero.
pub fn text_length(t: &[u8]) -> u32
    requires { (length t.now % 2 ≡ 0) × (length t.now ≤ text_room) }
    ensures { (result ≡ text_length (bytes_of t.now)) × (2 * result ≤ length t.now) }
{
    let n = (t.len() / 2) as u32;
    for q in 0..n {
        if character(t, q as usize) == 0 {
            return q;
        }
    }
    n
}

// The rule for the text of a long name, of a slice of any length.
pub fn is_text(t: &[u8]) -> bool
    ensures { result ≡ text_ok (view t.now) }
{
    let n = t.len() / 2;
    t.len() % 2 == 0 && 1 <= n && n <= MOST_CHARACTERS && all_allowed(t, n)
}
