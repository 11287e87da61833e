// Whether a store is sound: the paper's clauses over all records and all pairs of records, for a slice of any length.

#![tactic(auto)]

ghost use Rattle.std.specs.Prelude.{◌≡◌, true, ◌/◌, ◌≤◌, ◌<◌, length, drop};
ghost use Rattle.paper.specs.Limits.{record_bytes, most_records};
ghost use Rattle.paper.specs.Form.{test, every, each};
ghost use Rattle.paper.specs.Records.{records};
ghost use Rattle.paper.specs.Sound.{length_fits, alone, distinct, related, sound};
ghost use Rattle.sound_quick.specs.Marks.{marks_differ};
ghost use Rattle.sound_kin.specs.Settled.{settled};
ghost use Rattle.sound_store.specs.Whole.{paired, agreeing};
ghost use Rattle.sound_store.specs.Guesses.{slot_of, noted, along, by_slot, place_of, seat_of, by_field, by_child};
ghost use Rattle.sound_store.specs.Shown.{sited_at, Shown};

use paper::{
    COUNTER, FEWEST_RECORDS, HANDLE_STEP, HOME, KEY, KIND, MOST_RECORDS, OWN, PARENT, POLICY,
    RECORD_BYTES,
};
use sound_alone::is_alone;
use sound_kin::is_settled;
use sound_pairs::{are_distinct, is_concerned, is_related};
use sound_quick::{Neighbours, is_near, marks_differ};
use store_records::{Choice, byte_at, count, find, four_at, has, record_at, records, size_at};

pub fn length_fits(s: &[u8]) -> bool
    ensures { result ≡ length_fits s.now }
{
    let n = count(s);
    (s.len() % RECORD_BYTES == 0) & ((FEWEST_RECORDS <= n) & (n <= MOST_RECORDS))
}

fn all_alone(s: &[u8]) -> bool
    ensures { result ≡ test (each (records s.now) alone) }
{
    records(s).all(|r| is_alone(r))
}

// x and each record from place `from` on.
fn distinct_from(s: &[u8], from: usize, x: &[u8]) -> bool
    ensures { result ≡ every (λ y. test (distinct x.now y)) (drop from (records s.now)) }
{
    records(s).skip(from).all(|y| are_distinct(x, y))
}

// x and each record. Most records say nothing of others, which are not gone through for them.
fn related_to(s: &[u8], x: &[u8]) -> bool
    ensures { result ≡ test (each (records s.now) (related x.now)) }
{
    if !is_concerned(x) {
        return true;
    }
    records(s).all(|y| is_related(x, y))
}

// The clauses of two records: of each record with those behind it, and with all.
fn all_paired(s: &[u8]) -> bool
    ensures { result ≡ test (paired (records s.now)) }
{
    for i in 0..count(s) {
        let x = record_at(s, i);
        if !distinct_from(s, i + 1, x) {
            return false;
        }
        if !related_to(s, x) {
            return false;
        }
    }
    true
}

// The clauses of what must be there.
fn all_settled(s: &[u8]) -> bool
    ensures { result ≡ test (each (records s.now) (settled (records s.now))) }
{
    records(s).all(|r| is_settled(s, r))
}

// The clauses of more than one record.
fn agree(s: &[u8]) -> bool
    ensures { result ≡ test (agreeing (records s.now)) }
{
    if !all_paired(s) {
        return false;
    }
    all_settled(s)
}

// ---- the quick way: neighbours by their places. The tables of places are fixed arrays of a byte each, and no heap; that the records are at
// most 256 each function that fills or reads such a table by place asks for itself, as the readers take any slice

// A session's handle is its number times 65,536, an object's number is added. Handles of one store seldom meet in one slot.
const SLOTS: u32 = 1024;

const SPREAD: u32 = 37;

fn slot(h: u32) -> usize
    ensures { result ≡ slot_of h }
{
    ((h / HANDLE_STEP * SPREAD + h % HANDLE_STEP) % SLOTS) as usize
}

// Notes a place, if there is one to be noted.
fn note(p: &mut [u8], at: usize, i: usize, meant: bool)
    requires { (at < length p.old) × (i ≤ 255) }
    ensures { p.new ≡ noted p.old at i meant }
{
    if meant {
        p[at] = i as u8;
    }
}

// For each slot the place of a record whose handle has it. Whoever reads it asks whether it is the right one.
fn seats(s: &[u8], t: &mut [u8])
    requires { (length s.now / record_bytes ≤ most_records) × (length t.old ≡ 1024) }
    ensures { t.new ≡ along by_slot 0 (records s.now) t.old }
{
    for i in 0..count(s) {
        t[slot(four_at(record_at(s, i), OWN))] = i as u8;
    }
}

// The place of a record with this handle, from the first record on.
fn sought(s: &[u8], h: u32) -> usize
    requires { length s.now / record_bytes ≤ most_records }
    ensures { (result ≡ place_of h (records s.now)) × (result ≤ 255) }
{
    records(s).position(|r| four_at(r, OWN) == h).unwrap_or(0)
}

fn seat(s: &[u8], t: &[u8], h: u32) -> usize
    requires { length s.now / record_bytes ≤ most_records }
    ensures { (result ≡ seat_of (records s.now) t.now h) × (result ≤ 255) }
{
    if h == 0 {
        return 0;
    }
    let p = size_at(t, slot(h));
    if four_at(record_at(s, p), OWN) == h {
        return p;
    }
    sought(s, h)
}

// For each record the place of the one whose handle it has in a field.
fn above(s: &[u8], t: &[u8], field: usize, p: &mut [u8])
    requires { (length s.now / record_bytes ≤ most_records) × (length p.old ≡ 256) }
    ensures { p.new ≡ along (by_field (records s.now) t.now field) 0 (records s.now) p.old }
{
    for i in 0..count(s) {
        p[i] = seat(s, t, four_at(record_at(s, i), field)) as u8;
    }
}

// For each session the place of a key, for each PUK that of a PIN policy, for each PIN policy that of a key.
fn below(s: &[u8], up: &[u8], over: &[u8], p: &mut [u8])
    requires { (length s.now / record_bytes ≤ most_records) × (length p.old ≡ 256) }
    ensures { p.new ≡ along (by_child up.now over.now) 0 (records s.now) p.old }
{
    for i in 0..count(s) {
        let r = record_at(s, i);
        let k = byte_at(r, KIND);
        let child = ((k == POLICY) | (k == KEY)) & (four_at(r, PARENT) != 0);
        note(p, size_at(up, i), i, k == KEY);
        note(p, size_at(over, i), i, child);
    }
}

fn is_sited_at(s: &[u8], m: usize, up: &[u8], over: &[u8], under: &[u8], i: usize) -> bool
    ensures { result ≡ test (sited_at (records s.now) m up.now over.now under.now i) }
{
    let o = size_at(over, i);
    let near = Neighbours {
        counter: record_at(s, m),
        session: record_at(s, size_at(up, i)),
        parent: record_at(s, o),
        home: record_at(s, size_at(up, o)),
        child: record_at(s, size_at(under, i)),
        fellow: record_at(s, size_at(under, o)),
    };
    is_near(near, record_at(s, i))
}

fn all_sited(s: &[u8], m: usize, up: &[u8], over: &[u8], under: &[u8]) -> bool
    ensures { result ≡ true → Shown (records s.now) }
{
    (0..count(s)).all(|i| is_sited_at(s, m, up, over, under, i))
}

fn is_sited(s: &[u8]) -> bool
    requires { length s.now / record_bytes ≤ most_records }
    ensures { result ≡ true → Shown (records s.now) }
{
    let mut t = [0u8; 1024];
    seats(s, &mut t);
    let mut up = [0u8; 256];
    above(s, &t, HOME, &mut up);
    let mut over = [0u8; 256];
    above(s, &t, PARENT, &mut over);
    let mut under = [0u8; 256];
    below(s, &up, &over, &mut under);
    all_sited(s, find(s, Choice::Kind(COUNTER)), &up, &over, &under)
}

// Whether it is seen at once that the clauses of more than one record hold. A no says nothing.
fn is_plain(s: &[u8]) -> bool
    requires { length s.now / record_bytes ≤ most_records }
    ensures { result ≡ true → (marks_differ (records s.now) ≡ true) × Shown (records s.now) }
{
    if !marks_differ(s) {
        return false;
    }
    is_sited(s)
}

pub fn is_sound(s: &[u8]) -> bool
    ensures { result ≡ sound s.now }
{
    if !length_fits(s) {
        return false;
    }
    if !has(s, Choice::Kind(COUNTER)) {
        return false;
    }
    if !all_alone(s) {
        return false;
    }
    if is_plain(s) {
        return true;
    }
    agree(s)
}
