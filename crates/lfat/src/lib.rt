// The calls that a C program links.
#![tactic(auto)]

ghost use Rattle.std.specs.Prelude.{◌≡◌, length};
ghost use Rattle.model.specs.Bytes.{view};
ghost use Rattle.model.specs.Sector.{window_of};
ghost use Rattle.model.specs.Outcome.{outcome_of};
ghost use Rattle.operations.specs.Outcome.{outcome_number};
ghost use Rattle.operations.specs.Reading.{read, list, long_name};
ghost use Rattle.operations.specs.Fitting.{fits, fit_outcome};
ghost use Rattle.operations.specs.Calls.{create, create_long, append, replace, truncate, delete, rename, recover};
ghost use Rattle.operations.specs.Promises.{Called, Answered};
ghost use Rattle.formatting.specs.Format.{format};

use model::{Ended, Ground};

// How a call has ended as code * 2^32 + count.
fn number_of(r: Result<Ended, Ground>) -> u64
    ensures { result ≡ outcome_number (outcome_of r) }
{
    match r {
        Err(ground) => u64::from(ground as u32) << 32,
        Ok(Ended::Done(n)) => u64::from(n),
        Ok(Ended::No) => 254 << 32,
        Ok(Ended::Stopped(n)) => (255 << 32) + u64::from(n),
    }
}

// A new file of no bytes.
#[unsafe(no_mangle)]
pub extern "C" fn lfat_create(card: &mut [u8], name: &[u8], seconds: u32, limit: u32) -> u64
    ensures { Called limit (create (window_of card.old) (view name.now) seconds) card.old card.new result }
{
    number_of(call_create::create(card, name, seconds, limit))
}

// A new file of no bytes with a long name, its characters as two bytes each.
#[unsafe(no_mangle)]
pub extern "C" fn lfat_create_long(
    card: &mut [u8],
    name: &[u8],
    chars: &[u8],
    seconds: u32,
    limit: u32,
) -> u64
    ensures { Called limit (create_long (window_of card.old) (view name.now) (view chars.now) seconds) card.old
        card.new result }
{
    number_of(call_create::create_long(card, name, chars, seconds, limit))
}

// Bytes at a file's end.
#[unsafe(no_mangle)]
pub extern "C" fn lfat_append(
    card: &mut [u8],
    name: &[u8],
    bytes: &[u8],
    seconds: u32,
    limit: u32,
) -> u64
    ensures { Called limit (append (window_of card.old) (view name.now) (view bytes.now) seconds) card.old
        card.new result }
{
    number_of(call_append::append(card, name, bytes, seconds, limit))
}

// Other bytes in the place of a file's.
#[unsafe(no_mangle)]
pub extern "C" fn lfat_replace(
    card: &mut [u8],
    name: &[u8],
    bytes: &[u8],
    seconds: u32,
    limit: u32,
) -> u64
    ensures { Called limit (replace (window_of card.old) (view name.now) (view bytes.now) seconds) card.old
        card.new result }
{
    number_of(call_replace::replace(card, name, bytes, seconds, limit))
}

// The file's first `size` bytes are kept.
#[unsafe(no_mangle)]
pub extern "C" fn lfat_truncate(
    card: &mut [u8],
    name: &[u8],
    size: u64,
    seconds: u32,
    limit: u32,
) -> u64
    ensures { Called limit (truncate (window_of card.old) (view name.now) size seconds) card.old card.new result }
{
    number_of(call_truncate::truncate(card, name, size, seconds, limit))
}

// The file goes, and its clusters are free.
#[unsafe(no_mangle)]
pub extern "C" fn lfat_delete(card: &mut [u8], name: &[u8], limit: u32) -> u64
    ensures { Called limit (delete (window_of card.old) (view name.now)) card.old card.new result }
{
    number_of(call_truncate::delete(card, name, limit))
}

// The file gets another name.
#[unsafe(no_mangle)]
pub extern "C" fn lfat_rename(card: &mut [u8], old: &[u8], new: &[u8], limit: u32) -> u64
    ensures { Called limit (rename (window_of card.old) (view old.now) (view new.now)) card.old card.new result }
{
    number_of(call_create::rename(card, old, new, limit))
}

// Finishes or drops what a cut has left, so that the card is clean again.
#[unsafe(no_mangle)]
pub extern "C" fn lfat_recover(card: &mut [u8], limit: u32) -> u64
    ensures { Called limit (recover (window_of card.old)) card.old card.new result }
{
    number_of(call_recover::recover(card, limit))
}

// A fresh card in the place of whatever the window holds: its sectors, those of a cluster, and the clusters of its log.
#[unsafe(no_mangle)]
pub extern "C" fn lfat_format(card: &mut [u8], total: u32, factor: u32, log: u32, limit: u32) -> u64
    ensures { Called limit (format (window_of card.old) total factor log) card.old card.new result }
{
    number_of(call_format::format(card, total, factor, log, limit))
}

// Copies the entries of the root directory into the buffer, 32 bytes each, as many as fit; counts how many there are.
#[unsafe(no_mangle)]
pub extern "C" fn lfat_list(card: &[u8], buffer: &mut [u8]) -> u64
    ensures { Answered (list (window_of card.now) (length buffer.old)) buffer.old buffer.new result }
{
    number_of(call_read::list(card, buffer))
}

// Copies a file's bytes from an offset on into the buffer; counts how many.
#[unsafe(no_mangle)]
pub extern "C" fn lfat_read(card: &[u8], name: &[u8], offset: u64, buffer: &mut [u8]) -> u64
    ensures { Answered (read (window_of card.now) (view name.now) offset (length buffer.old)) buffer.old
        buffer.new result }
{
    number_of(call_read::read(card, name, offset, buffer))
}

// Copies the characters of a file's or a directory's long name into the buffer, two bytes each, as many as fit; counts how many there are.
#[unsafe(no_mangle)]
pub extern "C" fn lfat_long_name(card: &[u8], name: &[u8], buffer: &mut [u8]) -> u64
    ensures { Answered (long_name (window_of card.now) (view name.now) (length buffer.old)) buffer.old
        buffer.new result }
{
    number_of(call_read::long_name(card, name, buffer))
}

// Whether so many bytes would fit into an empty file, and up to which cluster.
#[unsafe(no_mangle)]
pub extern "C" fn lfat_fits(card: &[u8], bytes: u64) -> u64
    ensures { result ≡ outcome_number (fit_outcome (fits (window_of card.now) bytes)) }
{
    number_of(call_fits::fits(card, bytes))
}
