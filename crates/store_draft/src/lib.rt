// A record drafted field by field, in the order of its layout: start, add fields, finish. Each step takes the draft and gives it back, so that
// a record reads as one chain. What would pass byte 256 is left out, and what is not written is zero, so nothing is asked of a field's length.

#![tactic(auto)]

ghost use Rattle.std.specs.Prelude.{◌≡◌, [], ◌∷◌, ◌++◌};
ghost use Rattle.paper.specs.Bytes.{enc2, enc4, zeros_of, padded_text as padded_to};
ghost use Rattle.paper.specs.Act.{flat};

use paper::RECORD_BYTES;
use std::marker::Model;

// A record under way: its bytes, and the place of the next. To a caller it is the bytes written so far, as far as a record has room.
#[derive(Clone, Copy)]
pub struct Draft {
    bytes: [u8; 256],
    at: usize,
}

impl Model for Draft {
    ghost use Rattle.std.specs.Prelude.{List, ℕ};

    ghost Value = { List ℕ };

    ghost use Rattle.store_draft.specs.Drafts.{Drafts, held, laid};
    ghost use Rattle.std.specs.Prelude.{◌≡◌, length};
    ghost use Rattle.std.proofs.Common.{arith, length-take, sym};

    ghost view = { held };

    ghost inverse = { λ w. record { bytes = laid w; at = length w } };

    ghost inverse_ok = { λ d h i. record {
      bytes = sym h.bytes i;
      at = let e : length (held d) ≡ d.at = omega (arith, h.next, length-take 256 (held d), length-take d.at d.bytes) in e i;
    } };

    ghost invariant = { λ d. Drafts d (held d) };
}

impl Draft {
    ghost use Rattle.store_draft.specs.Drafts.{kept, laid};

    // No field written yet.
    pub fn start() -> Draft
        ensures { result ≡ [] }
    {
        Draft {
            bytes: [0u8; 256],
            at: 0,
        }
    }

    // The first 16 bytes of a record that has handles: its kind, three bytes of its own, its handle, its session's and its parent's.
    pub fn head(kind: u8, a: u8, b: u8, e: u8, own: u64, session: u32, parent: u32) -> Draft
        ensures { result ≡ flat ((kind ∷ []) ∷ (a ∷ []) ∷ (b ∷ []) ∷ (e ∷ []) ∷ enc4 own ∷ enc4 session ∷ enc4 parent ∷ []) }
    {
        Draft::start()
            .bytes(&[kind, a, b, e])
            .four(own)
            .four(u64::from(session))
            .four(u64::from(parent))
    }

    // One byte more.
    pub fn byte(mut self, v: u8) -> Draft
        ensures { result ≡ kept (self ++ (v ∷ [])) }
    {
        if self.at < RECORD_BYTES {
            self.bytes[self.at] = v;
            self.at += 1;
        }
        self
    }

    // The low two bytes of a number, and the low four.
    pub fn two(self, n: usize) -> Draft
        ensures { result ≡ kept (self ++ enc2 n) }
    {
        self.bytes(&n.to_be_bytes()[6..])
    }

    pub fn four(self, n: u64) -> Draft
        ensures { result ≡ kept (self ++ enc4 n) }
    {
        self.bytes(&n.to_be_bytes()[4..])
    }

    // The bytes of a slice, or as many as there is room for.
    pub fn bytes(mut self, v: &[u8]) -> Draft
        ensures { result ≡ kept (self ++ v.now) }
    {
        let at = self.at;
        let n = v.len().min(RECORD_BYTES - at);
        self.bytes[at..at + n].copy_from_slice(&v[..n]);
        self.at = at + n;
        self
    }

    // So many zeros, which stand there already.
    pub fn zeros(mut self, n: u8) -> Draft
        ensures { result ≡ kept (self ++ zeros_of n) }
    {
        self.at = (self.at + usize::from(n)).min(RECORD_BYTES);
        self
    }

    // A string: its length in one byte, its bytes, zeros up to the longest.
    pub fn padded(self, longest: u8, v: &[u8]) -> Draft
        ensures { result ≡ kept (self ++ padded_to longest v.now) }
    {
        let n = v.len();
        let left = usize::from(longest).saturating_sub(n);
        self.byte((n % 256) as u8).bytes(v).zeros(left as u8)
    }

    // The record.
    pub fn finish(self) -> [u8; 256]
        ensures { result ≡ laid self }
    {
        // Where nothing was written zeros stand.
        self.bytes
    }
}
