// HMAC-SHA-256 (RFC 2104) in pieces, for keys of any length, and a comparison that looks at every byte.
// What the MAC is stands in specs/Hmac.antt; what a MAC under way stands for in specs/Keyed.antt.

#![tactic(auto)]

ghost use Rattle.std.specs.Prelude.{◌≡◌, List, [], ◌++◌, ℕ, ◌≤◌, length};
ghost use Rattle.hmac.specs.Hmac.{filled, key_block, xored, HMAC};
ghost use Rattle.hmac.specs.Keyed.{Keyed};
ghost use Rattle.hmac.specs.Same.{same};

use sha256::{State, Words};

// A MAC under way, 136 bytes: the hash that has taken the inner key block, and the hash value of the outer. Its key and its text are no
// ghost fields, as one of a plain struct is a fact and no data; so each promise speaks of all of which the MAC is `Keyed`.
#[derive(Clone, Copy)]
pub struct Mac {
    inner: State,
    outer: Words,
}

// The bytes of s, with zeros behind them.
fn fill(s: &[u8]) -> [u8; 64]
    requires { length s.now ≤ 64 }
    ensures { result ≡ filled s.now }
{
    let mut b = [0u8; 64];
    b[..s.len()].copy_from_slice(s);
    b
}

fn key_block(key: &[u8]) -> [u8; 64]
    ensures { result ≡ key_block key.now }
{
    if key.len() <= 64 {
        return fill(key);
    }
    let h = sha256::sha256(key);
    fill(&h)
}

// Each byte of b XORed with p.
fn xor_all(mut b: [u8; 64], p: u8) -> [u8; 64]
    ensures { result ≡ xored p b }
{
    for x in &mut b {
        *x ^= p;
    }
    b
}

// A MAC under this key, with no bytes taken yet.
pub fn start(key: &[u8]) -> Mac
    ensures { Keyed result key.now [] }
{
    let b = key_block(key);
    let i = xor_all(b, 0x36);
    let o = xor_all(b, 0x5c);
    let inner = sha256::update(sha256::start(), &i);
    let outer = sha256::value(sha256::update(sha256::start(), &o));
    Mac { inner, outer }
}

// The bytes of d are taken, after those taken before. It goes into callers, with the hash's short way.
#[inline]
pub fn update(s: Mac, d: &[u8]) -> Mac
    ensures { (k text : List ℕ) → Keyed s k text → Keyed result k (text ++ d.now) }
{
    let outer = s.outer;
    let inner = sha256::update_piece(s.inner, d);
    Mac { inner, outer }
}

// The MAC of the bytes taken.
pub fn finish(s: Mac) -> [u8; 32]
    ensures { (k text : List ℕ) → Keyed s k text → result ≡ HMAC k text }
{
    let t = sha256::finish(s.inner);
    sha256::finish(sha256::update(sha256::resume(s.outer), &t))
}

// The MAC of a slice.
pub fn hmac(key: &[u8], text: &[u8]) -> [u8; 32]
    ensures { result ≡ HMAC key.now text.now }
{
    finish(update(start(key), text))
}

// Whether two values are the same. Values of one length, as two MACs are, are looked at to the last byte, wherever they differ.
pub fn is_same(a: &[u8], b: &[u8]) -> bool
    ensures { result ≡ same a.now b.now }
{
    if a.len() != b.len() {
        return false;
    }
    let mut differ: u8 = 0;
    for (x, y) in a.iter().zip(b) {
        differ |= x ^ y;
    }
    differ == 0
}
