// The scratch text in which a listing is put together.
ghost use Rattle.std.specs.Prelude.{◌≡◌, ◌+◌, ◌≤◌, [], ◌++◌, length};
ghost use Rattle.listing.specs.Copies.{Copied};

use arrayvec::ArrayVec;
use itoa::{Buffer, Integer};
use std::marker::Model;

// A list of bytes with room for 768.
#[derive(Drop)]
pub(crate) struct Text {
    bytes: ArrayVec<u8, 768>,
}

impl Model for Text {
    ghost use Rattle.std.specs.Prelude.{ℕ, List};

    ghost Value = { List ℕ };

    ghost view = { λ t. t.bytes.items };
}

impl Text {
    pub(crate) fn new() -> Text
        ensures { result ≡ [] }
    {
        Text {
            bytes: ArrayVec::new(),
        }
    }

    // Adds bytes at the end.
    pub(crate) fn put(&mut self, part: &[u8])
        requires { length self.old + length part.now ≤ 768 }
        ensures text { self.new ≡ self.old ++ part.now }
        ensures len { length self.new ≡ length self.old + length part.now }
    {
        self.bytes.try_extend_from_slice(part).unwrap();
    }

    // Adds a number in decimal digits.
    pub(crate) fn put_number<I: Integer>(&mut self, n: I)
        requires { length self.old + length (I.text n) ≤ 768 }
        ensures text { self.new ≡ self.old ++ I.text n }
        ensures len { length self.new ≡ length self.old + length (I.text n) }
    {
        let mut buffer = Buffer::new();
        self.put(buffer.format(n).as_bytes());
    }

    // Copies the whole text, and answers its length; an output that is too short is left untouched.
    pub(crate) fn copy_out(&self, output: &mut [u8]) -> Option<usize>
        ensures { Copied self.now output.old result output.new }
    {
        let n = self.bytes.len();
        // tested by hand, since nothing is proved of what is written through `get_mut`
        if output.len() < n {
            return None;
        }
        output[..n].copy_from_slice(self.bytes.as_slice());
        Some(n)
    }
}
