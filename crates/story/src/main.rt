// Two tabs and one key, a story that shows the calls. It is told from the file `story`, which scripts/story.py writes. Text is printed as it
// stands there. A % and a letter is an order: a call is made, or something is printed that the token has answered or that its store holds.
//
//   %c  a call, its chip bytes and the reply that is expected, in hexadecimal, each in a line. It is made, and where the reply is another
//       the story has the word DIFFERS
//   %f  the token is formatted
//   %s  the status, and %h the handle, of the last answer
//   %0 to %6  how many records of this kind the store has
//   %k  a copy of the store is kept, and %x the store and the copy change places
//   %r  whether the two hold the same records, %p whether at the same places, and %o whether all but the first place is alike
//
// The file is not checked: a byte behind a % that is none of these prints something all the same (`follow`), and past the file's end it is 0.

#![tactic(auto)]

ghost use Rattle.std.specs.Prelude.{◌≤◌, length, IfOk};

use std::alloc::{AllocError, Global};
use std::io::Read;
use std::{fs, io, mem};

// No more of the file is read.
const FILE_BYTES: u64 = 65_536;

// The store has room for 16 records.
const STORE_BYTES: usize = 4096;

const RECORD_BYTES: usize = 256;

// The most bytes that a line in hexadecimal stands for.
const LINE_BYTES: usize = 256;

// What lies between the bytes of one line and those of the next: the line's end, and a mark of three bytes.
const MARK_BYTES: usize = 4;

// What the story is played on: the token's store, the copy of it that is kept, and the last answer.
#[derive(Drop)]
struct Stage {
    alloc: Global,
    store: Vec<u8>,
    copy: Vec<u8>,
    reply: [u8; 37],
}

// The text behind its first n bytes, empty where it has no more.
fn behind(text: &[u8], n: usize) -> &[u8]
    ensures { length result.now ≤ length text.now }
{
    text.get(n..).unwrap_or_default()
}

// The number of a hexadecimal digit. Of a byte that is none, some number: the file is not checked.
fn digit(b: u8) -> u8
    ensures { result ≤ 15 }
{
    if b < b'a' { b % 16 } else { (b % 16 + 9) % 16 }
}

// The byte of the two digits at the head of a text, where the line goes on. A digit that the file's end has cut off is 0.
fn byte_of(text: &[u8]) -> Option<u8> {
    let high = *text.first()?;
    let low = text.get(1).copied().unwrap_or(0);
    if high < b'0' {
        None
    } else {
        Some(digit(high) * 16 + digit(low))
    }
}

// The bytes that stand in hexadecimal at the head of a text, up to the end of the line, and what is behind the next line's mark.
fn unhex(alloc: Global, text: &[u8]) -> Result<(Vec<u8>, &[u8]), AllocError>
    ensures { IfOk result (λ p. length p.1.now ≤ length text.now) }
{
    let mut bytes = Vec::new(alloc);
    let mut rest = text;
    for _ in 0..LINE_BYTES {
        let Some(byte) = byte_of(rest) else { break };
        bytes.push(byte)?;
        rest = behind(rest, 2);
    }
    Ok((bytes, behind(rest, MARK_BYTES)))
}

// How many places hold this record.
fn count(store: &[u8], record: &[u8]) -> usize {
    store.chunks(RECORD_BYTES).filter(|&r| r == record).count()
}

// Whether two stores hold the same records, be it at other places: as many of each record of the one.
fn has_same_records(a: &[u8], b: &[u8]) -> bool {
    a.chunks(RECORD_BYTES)
        .all(|record| count(a, record) == count(b, record))
}

// How many records are of this kind.
fn of_kind(store: &[u8], kind: u8) -> usize {
    store
        .chunks(RECORD_BYTES)
        .filter(|record| record.first() == Some(&kind))
        .count()
}

fn print_same(rt: &impl Print, is_same: bool) -> io::Result<()> {
    rt.print(if is_same { "same" } else { "other" })
}

impl Stage {
    fn new(alloc: Global) -> Result<Self, AllocError> {
        Ok(Stage {
            alloc,
            store: vec![in alloc; 0; STORE_BYTES]?,
            copy: vec![in alloc; 0; STORE_BYTES]?,
            reply: [0; 37],
        })
    }

    // The call at the head of a text is made, and its reply is compared. What comes back is the text behind them.
    fn call<'a>(&mut self, rt: &impl Print, text: &'a [u8]) -> io::Result<&'a [u8]>
        ensures { IfOk result (λ rest. length rest.now ≤ length text.now) }
    {
        let (call, rest) = unhex(self.alloc, text)?;
        let (chip, rest) = unhex(self.alloc, rest)?;
        token::call(&mut self.store, &call, &chip, &mut self.reply);
        let (wanted, rest) = unhex(self.alloc, rest)?;
        if self.reply.as_slice() != wanted.as_slice() {
            rt.print("DIFFERS")?;
        }
        Ok(rest)
    }

    // What an order asks for, which stands at the head of a text. What comes back is the text behind it.
    fn follow<'a>(&mut self, rt: &impl Print, text: &'a [u8]) -> io::Result<&'a [u8]>
        ensures { IfOk result (λ rest. length rest.now ≤ length text.now) }
    {
        let order = text.first().copied().unwrap_or(0);
        let rest = behind(text, 1);
        match order {
            b'c' => return self.call(rt, behind(rest, 1)),
            b'f' => self.reply[0] = token::format(&mut self.store),
            b'k' => self.copy = self.store.clone()?,
            b'x' => mem::swap(&mut self.store, &mut self.copy),
            b's' => rt.print(self.reply[0])?,
            b'h' => {
                let [_, a, b, c, d, ..] = self.reply;
                let handle = u32::from_be_bytes([a, b, c, d]);
                print!(rt; "{handle:08x}")?;
            }
            0..=b'6' => rt.print(of_kind(&self.store, order % 16))?,
            b'r' => print_same(rt, has_same_records(&self.store, &self.copy))?,
            b'p' => print_same(rt, self.store == self.copy)?,
            _ => print_same(
                rt,
                self.store.get(RECORD_BYTES..) == self.copy.get(RECORD_BYTES..),
            )?,
        }
        Ok(rest)
    }
}

// The story.
fn tell(rt: &(impl Print + AllocGlobal), text: &[u8]) -> io::Result<()> {
    let mut stage = Stage::new(rt.alloc())?;
    let mut rest = text;
    while let Some(at) = rest.iter().position(|&b| b == b'%') {
        rt.write_all(&rest[..at])?;
        rest = stage.follow(rt, &rest[at + 1..])?;
    }
    rt.write_all(rest)
}

fn main(rt: HostRuntime) -> io::Result<()> {
    let mut text = Vec::new(rt.alloc());
    fs::open(&rt, "story")?
        .take(FILE_BYTES)
        .read_to_end(&mut text)?;
    tell(&rt, &text)
}
