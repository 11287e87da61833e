// The cases of the file `cases`, tried one by one. A store is laid, format or a call is tried on it, and the status, the reply and the store
// are compared with what the case expects. A case that is answered otherwise has a line, with the status that was given and the case's name.
// A group of cases has a row in a table: how often each status was given, as expected. The last line counts the cases, and those that were
// as expected.
//
// The file: the number of groups, then the groups. A group: its name, the number of cases, then the cases. A case: its kind (0 format, 1
// a call, 2 a call on the store as the case before left it), its name, the length of the store, its records (kind 2: none), the call, the
// chip bytes, the status, the reply, the records that change. A number has 2 bytes, the store's length 4, kind and status 1. A string is
// its length and its bytes. Records are their number, then each as its place in the store and a string; zeros at its end are left out.
//
// The file is not checked: past its end a byte is 0, and a string is the shorter part that is there.

#![tactic(auto)]

ghost use Rattle.std.specs.Prelude.{◌≤◌, length};

use std::alloc::{AllocError, Global};
use std::io::Read;
use std::{fs, io};

// No more of the file is read.
const FILE_BYTES: u64 = 524_288;

// The longest store: 257 records, one more than a store may have.
const STORE_BYTES: usize = 65_792;

const RECORD_BYTES: usize = 256;

// The longest reply.
const REPLY_BYTES: usize = 64;

// What stands in the reply before a call.
const FILL: u8 = 0xa5;

// The statuses of document 01, each a column of the table.
const COLUMNS: [u8; 14] = [0, 1, 2, 3, 4, 5, 6, 7, 8, 16, 17, 19, 20, 21];

// What is left of the file.
#[derive(Clone, Copy)]
struct Reader<'a> {
    rest: &'a [u8],
}

// Records of the file: how many, and from where on they are read.
#[derive(Clone, Copy)]
struct Records<'a> {
    count: u16,
    reader: Reader<'a>,
}

// What is tried in a case.
#[derive(Clone, Copy, Debug, PartialEq, Eq)]
enum Kind {
    Format,
    Call,
    // A call on the store as the case before left it.
    GoesOn,
}

#[derive(Clone, Copy)]
struct Case<'a> {
    kind: Kind,
    name: &'a [u8],
    size: u32,
    records: Records<'a>,
    call: &'a [u8],
    chip: &'a [u8],
    status: u8,
    reply: &'a [u8],
    changes: Records<'a>,
}

// Room for the store that a case is tried on, and for the same as it is expected. Both are kept from case to case.
#[derive(Drop)]
struct Rooms {
    store: Vec<u8>,
    wanted: Vec<u8>,
}

// How many cases were tried, and how many were as expected.
#[derive(Clone, Copy, Debug, Default, PartialEq, Eq)]
struct Tally {
    tried: u64,
    right: u64,
}

impl<'a> Reader<'a> {
    // The next n bytes, or those of them that are there.
    fn take(&mut self, n: usize) -> &'a [u8]
        ensures { length result.now ≤ n }
    {
        let (taken, rest) = self.rest.split_at(n.min(self.rest.len()));
        self.rest = rest;
        taken
    }

    fn bytes<const N: usize>(&mut self) -> [u8; N] {
        let taken = self.take(N);
        // Only at the file's end are they fewer, and a copy of so many as there are would be a call.
        if let Some(whole) = taken.as_array() {
            return *whole;
        }
        let mut bytes = [0; N];
        bytes[..taken.len()].copy_from_slice(taken);
        bytes
    }

    fn byte(&mut self) -> u8 {
        u8::from_be_bytes(self.bytes())
    }

    fn two(&mut self) -> u16 {
        u16::from_be_bytes(self.bytes())
    }

    fn four(&mut self) -> u32 {
        u32::from_be_bytes(self.bytes())
    }

    fn string(&mut self) -> &'a [u8] {
        let n = self.two();
        self.take(usize::from(n))
    }

    fn record(&mut self) -> (u16, &'a [u8]) {
        (self.two(), self.string())
    }

    fn records(&mut self) -> Records<'a> {
        let count = self.two();
        let records = Records {
            count,
            reader: *self,
        };
        for _ in 0..count {
            let _ = self.record();
        }
        records
    }

    fn case(&mut self) -> Case<'a> {
        Case {
            kind: Kind::from(self.byte()),
            name: self.string(),
            size: self.four(),
            records: self.records(),
            call: self.string(),
            chip: self.string(),
            status: self.byte(),
            reply: self.string(),
            changes: self.records(),
        }
    }
}

impl Records<'_> {
    // Each record goes into the store: a text and zeros, as far as the store goes.
    fn lay(self, store: &mut [u8]) {
        let mut reader = self.reader;
        for _ in 0..self.count {
            let (place, text) = reader.record();
            if let Some(rest) = store.get_mut(usize::from(place) * RECORD_BYTES..) {
                let end = rest.len().min(RECORD_BYTES);
                let n = text.len().min(end);
                rest[..n].copy_from_slice(&text[..n]);
                rest[n..end].fill(0);
            }
        }
    }
}

impl From<u8> for Kind {
    // A number that is none of a kind's is a call's.
    fn from(code: u8) -> Kind {
        match code {
            0 => Kind::Format,
            2 => Kind::GoesOn,
            _ => Kind::Call,
        }
    }
}

impl Case<'_> {
    // The case is tried. What comes back is the status that was given, where the case is not answered as expected.
    fn fails_with(&self, rooms: &mut Rooms) -> Option<u8> {
        let size = (self.size as usize)
            .min(rooms.store.len())
            .min(rooms.wanted.len());
        let store = &mut rooms.store[..size];
        let wanted = &mut rooms.wanted[..size];
        let mut reply = [FILL; REPLY_BYTES];
        let reply = &mut reply[..self.reply.len().min(REPLY_BYTES)];
        self.lay(store, wanted);
        let status = self.answer(store, reply);
        if status == self.status && *reply == *self.reply && *store == *wanted {
            None
        } else {
            Some(status)
        }
    }

    // The store that the case is given, and the store that is expected. A case that goes on has the one before already.
    fn lay(&self, store: &mut [u8], wanted: &mut [u8]) {
        if self.kind != Kind::GoesOn {
            store.fill(0);
            self.records.lay(store);
            wanted.fill(0);
            self.records.lay(wanted);
        }
        self.changes.lay(wanted);
    }

    fn answer(&self, store: &mut [u8], reply: &mut [u8]) -> u8 {
        match self.kind {
            Kind::Format => token::format(store),
            Kind::Call | Kind::GoesOn => token::call(store, self.call, self.chip, reply),
        }
    }
}

impl Rooms {
    fn new(alloc: Global) -> Result<Self, AllocError> {
        Ok(Rooms {
            store: vec![in alloc; 0; STORE_BYTES]?,
            wanted: vec![in alloc; 0; STORE_BYTES]?,
        })
    }
}

impl Tally {
    fn count(&mut self, is_right: bool) {
        self.tried = self.tried.wrapping_add(1);
        self.right = self.right.wrapping_add(u64::from(is_right));
    }
}

// A row of the table: the number of cases that gave each status, a dot for none. A name may be any bytes.
fn print_row(rt: &impl Print, name: &[u8], met: &[u64; 256]) -> io::Result<()> {
    for status in COLUMNS {
        match met[usize::from(status)] {
            0 => print!(rt; "   .")?,
            n => print!(rt; " {n:>3}")?,
        }
    }
    print!(rt; "  ")?;
    rt.write_all(name)?;
    println!(rt)
}

fn complain(rt: &impl Print, name: &[u8], status: u8) -> io::Result<()> {
    print!(rt; "DIFFERS, status {status}: ")?;
    rt.write_all(name)?;
    println!(rt)
}

// The next group of cases, and its row.
fn try_group(
    rt: &impl Print,
    reader: &mut Reader,
    rooms: &mut Rooms,
    tally: &mut Tally,
) -> io::Result<()> {
    let name = reader.string();
    let mut met = [0u64; 256];
    for _ in 0..reader.two() {
        let case = reader.case();
        let failed = case.fails_with(rooms);
        tally.count(failed.is_none());
        match failed {
            None => {
                let n = &mut met[usize::from(case.status)];
                *n = n.wrapping_add(1);
            }
            Some(status) => complain(rt, case.name, status)?,
        }
    }
    print_row(rt, name, &met)
}

fn run(rt: &(impl Print + AllocGlobal), file: &[u8]) -> io::Result<()> {
    let mut rooms = Rooms::new(rt.alloc())?;
    for status in COLUMNS {
        print!(rt; "{status:>4}")?;
    }
    println!(rt)?;
    let mut reader = Reader { rest: file };
    let mut tally = Tally::default();
    for _ in 0..reader.two() {
        try_group(rt, &mut reader, &mut rooms, &mut tally)?;
    }
    println!(rt; "{} cases, {} as expected", tally.tried, tally.right)
}

fn main(rt: HostRuntime) -> io::Result<()> {
    let mut file = Vec::new(rt.alloc());
    fs::open(&rt, "cases")?
        .take(FILE_BYTES)
        .read_to_end(&mut file)?;
    run(&rt, &file)
}
