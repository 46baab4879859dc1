// The types that the definitions and the code share.
#![tactic(auto)]

// What the boot sector says of the sizes. `factor` is sectors per cluster, `fatsize` sectors per FAT, `entries` root entries.
#[derive(Clone, Copy)]
pub struct Fields {
    pub factor: u32,
    pub reserved: u32,
    pub fatsize: u32,
    pub entries: u32,
    pub total: u32,
}

// Where the regions of a card begin, by sector, in their order on the card; `start` is the first data sector.
#[derive(Clone, Copy)]
pub struct Layout {
    pub factor: u32,
    pub fatsize: u32,
    pub fat1: u32,
    pub fat2: u32,
    pub root: u32,
    pub entries: u32,
    pub start: u32,
    pub total: u32,
    pub clusters: u32,
}

// What a FAT value means.
#[derive(Clone, Copy, PartialEq, Eq)]
pub enum Class {
    Free,
    Next,
    Reserved,
    Bad,
    End,
    Other,
}

// The clusters marked as the log: the lowest of them, and how many there are.
#[derive(Clone, Copy)]
pub struct Run {
    pub start: u32,
    pub size: u32,
}

// Where the log lies: its first sector, and how many it has.
#[derive(Clone, Copy)]
pub struct Area {
    pub sector: u32,
    pub sectors: u32,
}

// A name, as the little-endian numbers in its 8 and its 3 bytes.
#[derive(Clone, Copy, PartialEq, Eq)]
pub struct Name {
    pub stem: u64,
    pub extension: u32,
}

// A root entry as a log record tells of it.
#[derive(Clone, Copy)]
pub struct Entry {
    pub slot: u32,
    pub name: Name,
    pub attributes: u32,
}

// A file: its entry, first cluster and size.
#[derive(Clone, Copy)]
pub struct File {
    pub entry: Entry,
    pub first: u32,
    pub size: u32,
}

// What a name means: no slot, a directory, or a file, and whether it is marked read-only.
#[derive(Clone, Copy)]
pub enum Lookup {
    Absent,
    Directory,
    File { file: File, locked: bool },
}

// What a call is to do with the file that it names.
#[derive(Clone, Copy)]
pub enum Access {
    Read,
    Write,
}

// A year or a month that a count of days has reached, and how many days of it have elapsed.
#[derive(Clone, Copy)]
pub struct Elapsed {
    pub unit: u32,
    pub days: u32,
}

// The operations that the log can hold, each with its own fields. `from` is DIR_Cluster, `count` how many entries of a long name stand
// directly before the slot, or are to stand there, `stamp` the time (low two bytes) and the date (high two) that the entry gets.
#[derive(Clone, Copy)]
pub enum Operation {
    Create {
        entry: Entry,
        count: u32,
        stamp: u32,
    },
    Update {
        entry: Entry,
        last: u32,
        from: u32,
        size: u32,
        stamp: u32,
    },
    Delete {
        entry: Entry,
        count: u32,
        first: u32,
        size: u32,
    },
    Truncate {
        entry: Entry,
        first: u32,
        from: u32,
        size: u32,
        stamp: u32,
    },
    Rename {
        entry: Entry,
        count: u32,
        first: u32,
        size: u32,
        to: u32,
        renamed: Name,
    },
    Replace {
        entry: Entry,
        first: u32,
        from: u32,
        size: u32,
        stamp: u32,
    },
}

// A log record. `count` is the long-name count, `number` the operation's, `high` the high word of first/last cluster, `cluster` its
// low word, `from` DIR_Cluster.
#[derive(Clone, Copy, PartialEq, Eq)]
pub struct Record {
    pub name: Name,
    pub attributes: u32,
    pub count: u32,
    pub number: u32,
    pub directory: u32,
    pub slot: u32,
    pub high: u32,
    pub from: u32,
    pub cluster: u32,
    pub size: u32,
}

// The plan of what is done once a group of log records stands in its sector, and of what recovery redoes: that sector, how many records
// the group has, and the operation that they tell of. The characters of a long name stand beside it, in a slice of bytes.
#[derive(Clone, Copy)]
pub struct Plan {
    pub sector: u32,
    pub records: u32,
    pub operation: Operation,
}

// What is pending in the log: nothing, records that are no group, or the group in a sector.
#[derive(Clone, Copy, PartialEq, Eq)]
pub enum Pending {
    Nothing,
    Broken,
    Held(u32),
}

// A card that passes grounds 1 to 6.
#[derive(Clone, Copy)]
pub struct Volume {
    pub layout: Layout,
    pub log: Area,
    pub pending: Pending,
}

// The grounds on which a call refuses, by their numbers.
#[derive(Clone, Copy)]
pub enum Ground {
    Short = 1,
    Boot = 2,
    Window = 3,
    Logarea = 4,
    Root = 5,
    Record = 6,
    Unclean = 7,
    Name = 8,
    Absent = 9,
    Directory = 10,
    Exists = 11,
    Rootfull = 12,
    Chain = 13,
    Length = 14,
    Nospace = 15,
    Locked = 16,
    Longname = 17,
    Clock = 18,
    Size = 19,
}

// How a call ends that no ground refuses: done, with its count (of stores, of bytes read, of entries) or the cluster that it gives; a no;
// or stopped by the limit, with the stores made.
#[derive(Clone, Copy)]
pub enum Ended {
    Done(u32),
    No,
    Stopped(u32),
}

// The limit allows no further store.
#[derive(Clone, Copy)]
pub struct Stopped;
