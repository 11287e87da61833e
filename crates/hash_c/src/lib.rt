// SHA-256 and HMAC-SHA-256 for C: each hashes whole slices in one call. A slice is passed as a pointer, then a length.

#![tactic(auto)]

ghost use Rattle.std.specs.Prelude.{◌≡◌};
ghost use Rattle.sha256.specs.Sha256.{SHA256};
ghost use Rattle.hmac.specs.Hmac.{HMAC};

// The hash of d, in out.
#[unsafe(no_mangle)]
pub extern "C" fn sks_sha256(d: &[u8], out: &mut [u8; 32])
    ensures { out.new ≡ SHA256 d.now }
{
    *out = sha256::sha256(d);
}

// The MAC of text under key, in out.
#[unsafe(no_mangle)]
pub extern "C" fn sks_hmac_sha256(key: &[u8], text: &[u8], out: &mut [u8; 32])
    ensures { out.new ≡ HMAC key.now text.now }
{
    *out = hmac::hmac(key, text);
}
