// What one record of a store asks of the others: the clauses that say that some record is there, and those that say something of each.

#![tactic(auto)]

ghost use Rattle.std.specs.Prelude.{◌≡◌};
ghost use Rattle.paper.specs.Form.{test, ◌equals◌, no, ◌then◌};
ghost use Rattle.paper.specs.Records.{records, kind, parent, session};
ghost use Rattle.paper.specs.Sound.{parentless, is_in, session_there, key_there, target_there, housed, childless, policies_used};
ghost use Rattle.sound_kin.specs.Settled.{alike, met, settled};

use hmac::is_same;
use paper::{
    GROUPING, HOME, KEY, KIND, OWN, PARENT, PENDING, PIN_WIDTH, POLICY, PUK, SESSION, SHARED, VALUE,
};
use sound_pairs::{is_closed, is_governed, is_object};
use store_records::{Choice, byte_at, first, four_at, has, is_kind, part_of, records, session_of};

fn session_there(s: &[u8], y: &[u8]) -> bool
    ensures { result ≡ test (session_there (records s.now) y.now) }
{
    if !is_object(y) {
        return true;
    }
    let h = four_at(y, HOME);
    has(s, Choice::That(SESSION, h, h))
}

// A record of kind k that has a parent has one of kind `above`: a PIN policy a PUK, a key a PIN policy.
fn parent_there(s: &[u8], y: &[u8], k: u8, above: u8) -> bool
    ensures { result ≡ test (kind y.now equals k then no (parentless y.now) then is_in (records s.now) above (parent y.now) (session y.now)) }
{
    if byte_at(y, KIND) != k {
        return true;
    }
    let p = four_at(y, PARENT);
    if p == 0 {
        return true;
    }
    has(s, Choice::That(above, p, four_at(y, HOME)))
}

fn key_there(s: &[u8], x: &[u8]) -> bool
    ensures { result ≡ test (key_there (records s.now) x.now) }
{
    if !is_closed(x) {
        return true;
    }
    has(s, Choice::Of(KEY, four_at(x, OWN)))
}

fn target_there(s: &[u8], y: &[u8]) -> bool
    ensures { result ≡ test (target_there (records s.now) y.now) }
{
    if byte_at(y, KIND) != PENDING {
        return true;
    }
    let p = four_at(y, PARENT);
    if p == 0 {
        return true;
    }
    has(s, Choice::That(KEY, p, session_of(p)))
}

// Whether all is there that a record asks for.
fn is_housed(s: &[u8], r: &[u8]) -> bool
    ensures { result ≡ test (housed (records s.now) r.now) }
{
    let parents = parent_there(s, r, POLICY, PUK)
        & (parent_there(s, r, KEY, POLICY) & (key_there(s, r) & target_there(s, r)));
    session_there(s, r) & parents
}

// Whether y is a PUK without PIN policy, or a PIN policy without key.
fn is_childless(s: &[u8], y: &[u8]) -> bool
    ensures { result ≡ test (childless (records s.now) y.now) }
{
    match byte_at(y, KIND) {
        PUK => !has(s, Choice::Child(POLICY, four_at(y, OWN), four_at(y, HOME))),
        POLICY => !has(s, Choice::Child(KEY, four_at(y, OWN), four_at(y, HOME))),
        _ => false,
    }
}

fn is_used(s: &[u8], x: &[u8], y: &[u8]) -> bool
    ensures { result ≡ test (policies_used (records s.now) x.now y.now) }
{
    if !is_closed(x) {
        return true;
    }
    if four_at(y, HOME) != four_at(x, OWN) {
        return true;
    }
    !is_childless(s, y)
}

fn is_alike(p: &[u8], f: &[u8], y: &[u8]) -> bool
    ensures { result ≡ test (alike p.now f.now y.now) }
{
    if byte_at(p, GROUPING) != SHARED {
        return true;
    }
    if !is_governed(p, y) {
        return true;
    }
    is_same(part_of(f, VALUE, PIN_WIDTH), part_of(y, VALUE, PIN_WIDTH))
}

// Whether what x asks of y is so; f is the key whose PIN the others under x must have.
fn is_met(s: &[u8], x: &[u8], f: &[u8], y: &[u8]) -> bool
    ensures { result ≡ test (met (records s.now) x.now f.now y.now) }
{
    is_used(s, x, y) & is_alike(x, f, y)
}

// Whether all is as the record x asks of the others. For most records the others are not gone through.
pub fn is_settled(s: &[u8], x: &[u8]) -> bool
    ensures { result ≡ test (settled (records s.now) x.now) }
{
    if !is_housed(s, x) {
        return false;
    }
    if !(is_closed(x) | is_kind(x, POLICY)) {
        return true;
    }
    let f = first(s, Choice::Child(KEY, four_at(x, OWN), four_at(x, HOME)));
    records(s).all(|y| is_met(s, x, f, y))
}
