// Whether a PIN or PUK has its format, breaks a pattern rule, and meets the rule of its policy.
// The rules stand in paper's Text.antt; what the functions below ask of a byte and of neighbours, in specs/Runs.antt.

#![tactic(auto)]

ghost use Rattle.std.specs.Prelude.{◌≡◌, ◌&&◌, ◌+◌, ◌<◌, eqb, length};
ghost use Rattle.paper.specs.Bytes.{within};
ghost use Rattle.paper.specs.Text.{alphanumeric, utf8, format_fits, two_equal, three_equal, stepped, is_set, pattern_fits, pin_fits};
ghost use Rattle.call_text.specs.Runs.{in_alphabet, followers, to_come, is_next, is_run};

use paper::{MAX_LENGTH, MIN_LENGTH, PATTERNS};
use store_records::{all_within, byte_at};

// Formats; no text has one above these. They are bytes and no enum: `format_fits` answers for every byte.
const NUMERIC: u8 = 0;

const ALPHANUMERIC: u8 = 1;

const UTF_8: u8 = 2;

const BINARY: u8 = 3;

// Bits of patterns.
const TWO_EQUAL: u8 = 1;

const THREE_EQUAL: u8 = 2;

const STEPPED: u8 = 4;

fn is_in_alphabet(b: u8) -> bool
    ensures { result ≡ in_alphabet b }
{
    matches!(b, b'0'..=b'9' | b'A'..=b'Z')
}

fn is_alphanumeric(v: &[u8]) -> bool
    ensures { result ≡ alphanumeric v.now }
{
    v.iter().all(|b| is_in_alphabet(*b))
}

// How many bytes 80-BF follow the lead byte b; 4 if it leads nothing.
fn followers_of(b: u8) -> u8
    ensures { result ≡ followers b }
{
    match b {
        0x00..=0x7F => 0,
        0xC0..=0xDF => 1,
        0xE0..=0xEF => 2,
        0xF0..=0xF7 => 3,
        _ => 4,
    }
}

// How many bytes 80-BF are to come behind b, if n were before it; 4 if b breaks the text.
fn to_come_behind(n: u8, b: u8) -> u8
    ensures { result ≡ to_come n b }
{
    match (n, b) {
        (0, _) => followers_of(b),
        (_, 0x80..=0xBF) => n - 1,
        _ => 4,
    }
}

fn is_utf_8(v: &[u8]) -> bool
    ensures { result ≡ utf8 v.now }
{
    let mut n: u8 = 0;
    for b in v {
        n = to_come_behind(n, *b);
        if 3 < n {
            return false;
        }
    }
    n == 0
}

// Whether a text has a format.
#[tactic(auto, unfolding(paper::specs::Text::format_fits))]
pub fn format_fits(format: u8, v: &[u8]) -> bool
    ensures { result ≡ format_fits format v.now }
{
    match format {
        NUMERIC => all_within(v, b'0', b'9'),
        ALPHANUMERIC => is_alphanumeric(v),
        UTF_8 => is_utf_8(v),
        BINARY => true,
        _ => false,
    }
}

// Two functions, each in the words of its rule: one over the width would have a closure in a closure.
fn has_two_equal(v: &[u8]) -> bool
    ensures { result ≡ two_equal v.now }
{
    v.windows(2).any(|w| w[0] == w[1])
}

fn has_three_equal(v: &[u8]) -> bool
    ensures { result ≡ three_equal v.now }
{
    v.windows(3).any(|w| w[0] == w[1] && w[1] == w[2])
}

fn is_one_more(x: u8, y: u8) -> bool
    ensures { result ≡ eqb y (x + 1) }
{
    u16::from(y) == u16::from(x) + 1
}

// Whether y may stand behind x in a run upwards or downwards.
fn is_next(up: bool, x: u8, y: u8) -> bool
    ensures { result ≡ is_next up x y }
{
    if up {
        is_one_more(x, y)
    } else {
        is_one_more(y, x)
    }
}

fn is_run(up: bool, v: &[u8]) -> bool
    ensures { result ≡ is_run up v.now }
{
    v.windows(2).all(|w| is_next(up, w[0], w[1]))
}

#[tactic(auto, using(crate::proofs::Steps::stepped_runs))]
fn is_stepped(v: &[u8]) -> bool
    ensures { result ≡ stepped v.now }
{
    2 <= v.len() && (is_run(true, v) || is_run(false, v))
}

// Whether a pattern was found that its bit forbids.
fn is_forbidden(bit: u8, patterns: u8, found: bool) -> bool
    requires { 0 < bit }
    ensures { result ≡ (is_set bit patterns && found) }
{
    (patterns / bit % 2 == 1) & found
}

#[tactic(auto, unfolding(paper::specs::Text::pattern_fits))]
pub fn pattern_fits(patterns: u8, v: &[u8]) -> bool
    ensures { result ≡ pattern_fits patterns v.now }
{
    let two = is_forbidden(TWO_EQUAL, patterns, has_two_equal(v));
    let three = is_forbidden(THREE_EQUAL, patterns, has_three_equal(v));
    !two & (!three & !is_forbidden(STEPPED, patterns, is_stepped(v)))
}

fn length_fits(shortest: u8, longest: u8, v: &[u8]) -> bool
    ensures { result ≡ within shortest longest (length v.now) }
{
    (usize::from(shortest) <= v.len()) & (v.len() <= usize::from(longest))
}

// Whether a PIN meets the rule of a policy's record: length, format, patterns.
#[tactic(auto, unfolding(paper::specs::Text::pin_fits))]
pub fn pin_fits(policy: &[u8], v: &[u8]) -> bool
    ensures { result ≡ pin_fits policy.now v.now }
{
    let long = length_fits(byte_at(policy, MIN_LENGTH), byte_at(policy, MAX_LENGTH), v);
    let formed = format_fits(byte_at(policy, paper::FORMAT), v);
    long & (formed & pattern_fits(byte_at(policy, PATTERNS), v))
}
