// A reader holds a call and knows its place in it. It is thin: each method takes it apart and leaves the work to a function on
// the slice and the place. Whoever has a plain slice calls `string_in`, whose promise says nothing of a reader.

#![tactic(auto)]

ghost use Rattle.std.specs.Prelude.{◌≡◌};
ghost use Rattle.paper.specs.Bytes.{string_at};

#[derive(Clone, Copy)]
pub struct Reader<'a> {
    pub call: &'a [u8],
    pub at: usize,
}

impl<'a> Reader<'a> {
    // The reader of a call, at this place.
    pub fn new(call: &'a [u8], at: usize) -> Self
        ensures { (result.call ≡ call.entry) × (result.at ≡ at) }
    {
        Self { call, at }
    }

    // The string at the reader's place, as a part of the call.
    pub fn string(self) -> &'a [u8]
        ensures { result.now ≡ string_at self.entry.at self.entry.call.now }
    {
        store_records::string_at(self.call, self.at)
    }
}

// The string that stands at this place of a call, as a part of it.
pub fn string_in<'a>(call: &'a [u8], at: usize) -> &'a [u8]
    ensures { result.now ≡ string_at at call.now }
{
    Reader::new(call, at).string()
}
