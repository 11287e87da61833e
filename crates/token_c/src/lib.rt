// The token for C, where a slice is passed as a pointer, then a length: each export calls the function of its name in `token`, and promises
// what it does.

#![tactic(auto)]

ghost use Rattle.std.specs.Prelude.{◌≡◌};
ghost use Rattle.paper.specs.Sound.{sound as is_sound};
ghost use Rattle.paper.specs.Answer.{answer, formatted};
ghost use Rattle.token.specs.Said.{told, made};

#[unsafe(no_mangle)]
pub extern "C" fn sks_sound(store: &[u8]) -> bool
    ensures { result ≡ is_sound store.now }
{
    token::sks_sound(store)
}

#[unsafe(no_mangle)]
pub extern "C" fn sks_format(store: &mut [u8]) -> u8
    ensures { made result store.new ≡ formatted store.old }
{
    token::sks_format(store)
}

#[unsafe(no_mangle)]
pub extern "C" fn sks_call<'a>(
    store: &mut [u8],
    c: &'a [u8],
    chip: &'a [u8],
    reply: &mut [u8],
) -> u8
    ensures { told result store.new reply.new ≡ answer store.old c.now chip.now reply.old }
{
    token::sks_call(store, c, chip, reply)
}
