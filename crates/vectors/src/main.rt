// Test vectors of SHA-256 and HMAC-SHA-256. Each message is taken at once and in uneven pieces, both digests are compared
// with the one expected, and a line says whether they agree. The last line counts the vectors, and those that are right.
// Expected digests are written in hexadecimal, as the standards print them.

#![tactic(auto)]

ghost use Rattle.std.specs.Prelude.{length};
ghost use Rattle.std.specs.Iterator.{at_most};

use std::{fmt, io};

// The lengths of the pieces that a message is taken in, from the first on and round again.
const PIECES: [usize; 6] = [1, 63, 64, 65, 3, 130];

// How many vectors were tried, and how many of them were right.
#[derive(Clone, Copy, Debug, Default, PartialEq, Eq)]
struct Tally {
    tried: u64,
    right: u64,
}

impl Tally {
    fn count(&mut self, is_right: bool) {
        self.tried = self.tried.wrapping_add(1);
        self.right = self.right.wrapping_add(u64::from(is_right));
    }
}

// Bytes that are printed in hexadecimal.
#[derive(Clone, Copy)]
struct Hex<'a>(&'a [u8]);

impl fmt::Display for Hex<'_> {
    fn fmt<W: fmt::Write>(&self, f: &mut fmt::Formatter<W>) -> fmt::Result {
        for byte in self.0 {
            write!(f, "{byte:02x}")?;
        }
        Ok(())
    }
}

// The pieces of a message, of uneven lengths; the last has what is left.
#[derive(Drop)]
struct Pieces<'a> {
    rest: &'a [u8],
    turn: usize,
}

impl<'a> Pieces<'a> {
    fn of(message: &'a [u8]) -> Self {
        Pieces {
            rest: message,
            turn: 0,
        }
    }
}

impl<'a> Iterator for Pieces<'a> {
    type Item = &'a [u8];

    ghost remaining = { λ p. at_most (length p.rest.now) };

    fn next(&mut self) -> Option<&'a [u8]> {
        if self.rest.is_empty() {
            return None;
        }
        let turn = self.turn % PIECES.len();
        let (piece, rest) = self.rest.split_at(PIECES[turn].min(self.rest.len()));
        self.rest = rest;
        self.turn = turn + 1;
        Some(piece)
    }
}

// The hash of a message in pieces, an empty one first.
fn hash_in_pieces(message: &[u8]) -> [u8; 32] {
    let start = sha256::update(sha256::start(), b"");
    sha256::finish(Pieces::of(message).fold(start, sha256::update))
}

// The MAC of a message in pieces, an empty one first.
fn mac_in_pieces(key: &[u8], message: &[u8]) -> [u8; 32] {
    let start = hmac::update(hmac::start(key), b"");
    hmac::finish(Pieces::of(message).fold(start, hmac::update))
}

// The end of a vector's line, and the vector counted. Both digests are compared as far as the expected one goes.
fn judge(
    rt: &(impl Print + AllocGlobal),
    tally: &mut Tally,
    expected: &str,
    at_once: [u8; 32],
    in_pieces: [u8; 32],
) -> io::Result<()> {
    let n = (expected.len() / 2).min(32);
    let at_once = format!(in rt.alloc(); "{}", Hex(&at_once[..n]))?;
    let in_pieces = format!(in rt.alloc(); "{}", Hex(&in_pieces[..n]))?;
    let is_right = at_once.as_str() == expected && in_pieces.as_str() == expected;
    tally.count(is_right);
    if is_right {
        println!(rt; ": ok, {at_once}")
    } else {
        println!(rt; ": WRONG, found {at_once} and in pieces {in_pieces}")
    }
}

fn hash(
    rt: &(impl Print + AllocGlobal),
    tally: &mut Tally,
    name: &str,
    message: &[u8],
    expected: &str,
) -> io::Result<()> {
    print!(rt; "SHA-256 of {name}")?;
    let at_once = sha256::sha256(message);
    judge(rt, tally, expected, at_once, hash_in_pieces(message))
}

fn mac(
    rt: &(impl Print + AllocGlobal),
    tally: &mut Tally,
    name: &str,
    key: &[u8],
    message: &[u8],
    expected: &str,
) -> io::Result<()> {
    print!(rt; "HMAC-SHA-256, RFC 4231 {name}")?;
    let at_once = hmac::hmac(key, message);
    judge(rt, tally, expected, at_once, mac_in_pieces(key, message))
}

// NIST's example messages for SHA-256 but for the longest, and the 896-bit one that it has for SHA-512.
fn examples(rt: &(impl Print + AllocGlobal), tally: &mut Tally) -> io::Result<()> {
    let vectors: [(&str, &[u8], &str); 4] = [
        (
            "no bytes",
            b"",
            "e3b0c44298fc1c149afbf4c8996fb92427ae41e4649b934ca495991b7852b855",
        ),
        (
            "\"abc\"",
            b"abc",
            "ba7816bf8f01cfea414140de5dae2223b00361a396177a9cb410ff61f20015ad",
        ),
        (
            "NIST's 448-bit message",
            b"abcdbcdecdefdefgefghfghighijhijkijkljklmklmnlmnomnopnopq",
            "248d6a61d20638b8e5c026930c3e6039a33ce45964ff2167f6ecedd419db06c1",
        ),
        (
            "NIST's 896-bit message",
            b"abcdefghbcdefghicdefghijdefghijkefghijklfghijklmghijklmnhijklmnoijklmnopjklmnopqklmnopqrlmnopqrsmnopqrstnopqrstu",
            "cf5b16a778af8380036ce59e7b0492370b249b11e8f07a51afac45037afee9d1",
        ),
    ];
    for (name, message, expected) in vectors {
        hash(rt, tally, name, message, expected)?;
    }
    Ok(())
}

// Lengths around those at which the message or its padding fills a block. No standard has these messages: their digests, and
// that of the 896-bit message, come from another implementation.
fn lengths(rt: &(impl Print + AllocGlobal), tally: &mut Tally) -> io::Result<()> {
    let vectors = [
        (
            55,
            "9f4390f8d30c2dd92ec9f095b65e2b9ae9b0a925a5258e241c9f1e910f734318",
        ),
        (
            56,
            "b35439a4ac6f0948b6d6f9e3c6af0f5f590ce20f1bde7090ef7970686ec6738a",
        ),
        (
            63,
            "7d3e74a05d7db15bce4ad9ec0658ea98e3f06eeecf16b4c6fff2da457ddc2f34",
        ),
        (
            64,
            "ffe054fe7ae0cb6dc65c3af9b61d5209f439851db43d0ba5997337df154668eb",
        ),
        (
            65,
            "635361c48bb9eab14198e76ea8ab7f1a41685d6ad62aa9146d301d4f17eb0ae0",
        ),
        (
            119,
            "31eba51c313a5c08226adf18d4a359cfdfd8d2e816b13f4af952f7ea6584dcfb",
        ),
        (
            120,
            "2f3d335432c70b580af0e8e1b3674a7c020d683aa5f73aaaedfdc55af904c21c",
        ),
    ];
    for (n, expected) in vectors {
        let name = format!(in rt.alloc(); "{n} times \"a\"")?;
        let message = vec![in rt.alloc(); b'a'; n]?;
        hash(rt, tally, name.as_str(), &message, expected)?;
    }
    Ok(())
}

// The longest of NIST's example messages.
fn million(rt: &(impl Print + AllocGlobal), tally: &mut Tally) -> io::Result<()> {
    let message = vec![in rt.alloc(); b'a'; 1_000_000]?;
    hash(
        rt,
        tally,
        "one million times \"a\"",
        &message,
        "cdc76e5c9914fb9281a1c7e284d73e67f1809a48a497200e046d39ccc7112cd0",
    )
}

// The test cases of RFC 4231. The keys of the last two are longer than a block; of case 5 the RFC gives the first 128 bits alone.
fn macs(rt: &(impl Print + AllocGlobal), tally: &mut Tally) -> io::Result<()> {
    let vectors: [(&str, &[u8], &[u8], &str); 7] = [
        (
            "case 1",
            &[0x0b; 20],
            b"Hi There",
            "b0344c61d8db38535ca8afceaf0bf12b881dc200c9833da726e9376c2e32cff7",
        ),
        (
            "case 2",
            b"Jefe",
            b"what do ya want for nothing?",
            "5bdcc146bf60754e6a042426089575c75a003f089d2739839dec58b964ec3843",
        ),
        (
            "case 3",
            &[0xaa; 20],
            &[0xdd; 50],
            "773ea91e36800e46854db8ebd09181a72959098b3ef8c122d9635514ced565fe",
        ),
        (
            "case 4",
            b"\x01\x02\x03\x04\x05\x06\x07\x08\x09\x0a\x0b\x0c\x0d\x0e\x0f\x10\x11\x12\x13\x14\x15\x16\x17\x18\x19",
            &[0xcd; 50],
            "82558a389a443c0ea4cc819899f2083a85f0faa3e578f8077a2e3ff46729665b",
        ),
        (
            "case 5, its first 128 bits",
            &[0x0c; 20],
            b"Test With Truncation",
            "a3b6167473100ee06e0c796c2955552b",
        ),
        (
            "case 6",
            &[0xaa; 131],
            b"Test Using Larger Than Block-Size Key - Hash Key First",
            "60e431591ee0b67f0d8a26aacbf5b77f8e0bc6213728c5140546040f0ee37f54",
        ),
        (
            "case 7",
            &[0xaa; 131],
            b"This is a test using a larger than block-size key and a larger than block-size data. The key needs to be hashed before being used by the HMAC algorithm.",
            "9b09ffa71b942fcb27635fbcd5b0e944bfdc63644f0713938a7f51535c3a35e2",
        ),
    ];
    for (name, key, message, expected) in vectors {
        mac(rt, tally, name, key, message, expected)?;
    }
    Ok(())
}

fn main(rt: HostRuntime) -> io::Result<()> {
    let mut tally = Tally::default();
    examples(&rt, &mut tally)?;
    lengths(&rt, &mut tally)?;
    million(&rt, &mut tally)?;
    macs(&rt, &mut tally)?;
    println!(rt; "{} vectors, {} ok", tally.tried, tally.right)
}
