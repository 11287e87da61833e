// A lent store's records written. Each function says what the records are afterwards, and so every byte of the store: `Becomes` keeps
// what stands behind the last whole record. A record is edited where it stands; past the last record nothing is written.

#![tactic(auto)]

ghost use Rattle.std.specs.Prelude.{◌≡◌, map, length, get_or, set};
ghost use Rattle.paper.specs.Limits.{record_bytes};
ghost use Rattle.paper.specs.Form.{Rec, only};
ghost use Rattle.paper.specs.Records.{records, is, bears, zeros, insert as inserted};
ghost use Rattle.paper.specs.Pin.{clear};
ghost use Rattle.store_records.specs.View.{Becomes};
ghost use Rattle.store_records.specs.Choices.{chosen};
ghost use Rattle.store_edits.specs.Edits.{edited};

use paper::RECORD_BYTES;
use store_records::{Choice, find, is_chosen};

// What becomes of a record: it is freed; the count at a byte becomes 0, or one more.
#[derive(Clone, Copy)]
pub enum Edit {
    Free,
    Clear(u8),
    AddOne(u8),
}

// Record i by value; past the last record zeros.
pub fn copy_of(s: &[u8], i: usize) -> [u8; 256]
    ensures { result ≡ get_or (records s.now) i zeros }
{
    let mut r = [0u8; 256];
    if s.len() / RECORD_BYTES <= i {
        return r;
    }
    let a = RECORD_BYTES * i;
    let e = a + RECORD_BYTES;
    r.copy_from_slice(&s[a..e]);
    r
}

// Record i becomes r.
pub fn put(s: &mut [u8], i: usize, r: &[u8; 256])
    ensures { Becomes (set (records s.old) i r.now) s.old s.new }
{
    if i < s.len() / RECORD_BYTES {
        let from = RECORD_BYTES * i;
        let to = from + RECORD_BYTES;
        s[from..to].copy_from_slice(r);
    }
}

// A new record takes the lowest free place; where there is none, nothing changes.
pub fn insert(s: &mut [u8], r: &[u8; 256])
    ensures { Becomes (inserted r.now (records s.old)) s.old s.new }
{
    let i = find(s, Choice::Free);
    put(s, i, r);
}

// A function on records, and how it is done to a record where it stands.
pub trait Rewrite {
    ghost makes: { Self → Rec → Rec };

    fn rewrite(&self, r: &mut [u8; 256])
        ensures { r.new ≡ makes self.now r.old };
}

impl Rewrite for Edit {
    ghost makes = { edited };

    fn rewrite(&self, r: &mut [u8; 256]) {
        match *self {
            Edit::Free => *r = [0u8; 256],
            Edit::Clear(k) => r[usize::from(k)] = 0,
            Edit::AddOne(k) => {
                let i = usize::from(k);
                r[i] = r[i].wrapping_add(1);
            }
        }
    }
}

// It is done to one record if it is meant.
fn rewrite_record<W: Rewrite>(r: &mut [u8], c: Choice, w: &W)
    requires { length r.old ≡ record_bytes }
    ensures { r.new ≡ only (chosen c) (W.makes w.now) r.old }
{
    if let Some(r) = r.as_mut_array::<256>() {
        if is_chosen(r, c) {
            w.rewrite(r);
        }
    }
}

// It is done to every record that is meant. The loop counts, since nothing is known of a slice that `chunks_mut` has lent.
pub fn rewrite_chosen<W: Rewrite>(s: &mut [u8], c: Choice, w: &W)
    ensures { Becomes (map (only (chosen c) (W.makes w.now)) (records s.old)) s.old s.new }
{
    for i in 0..s.len() / RECORD_BYTES {
        let a = RECORD_BYTES * i;
        let z = a + RECORD_BYTES;
        rewrite_record(&mut s[a..z], c, w);
    }
}

// Every record that is meant is edited.
pub fn change(s: &mut [u8], c: Choice, e: Edit)
    ensures { Becomes (map (only (chosen c) (edited e)) (records s.old)) s.old s.new }
{
    rewrite_chosen(s, c, &e);
}

// A session with all its records is freed.
pub fn free_session(s: &mut [u8], h: u32)
    ensures { Becomes (map (only (bears h) (λ r. zeros)) (records s.old)) s.old s.new }
{
    change(s, Choice::Bears(h), Edit::Free);
}

// The count at byte k of that record becomes 0: byte 2 of a key, byte 3 of a PUK. `change` with `Edit::AddOne` makes it one more.
pub fn clear_count(s: &mut [u8], kind: u8, own: u32, session: u32, k: u8)
    ensures { Becomes (map (only (is kind own session) (clear k)) (records s.old)) s.old s.new }
{
    change(s, Choice::That(kind, own, session), Edit::Clear(k));
}
