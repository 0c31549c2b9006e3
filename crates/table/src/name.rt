// The name of a task, kept for listings.
ghost use Rattle.std.specs.Prelude.{◌≡◌, ◌≤◌, length};

// Bytes and a length, since a name is Copy and allocates nothing; an ArrayVec is not Copy.
#[derive(Clone, Copy, Debug, PartialEq, Eq)]
pub struct Name {
    bytes: [u8; 12],
    len: usize,
    ghost within: { len ≤ 12 },
}

impl Name {
    ghost use Rattle.table.specs.Names.{graphic, name_bytes};

    // A name of no bytes, for places that no task has.
    pub(crate) const NONE: Name = Name {
        bytes: [0; 12],
        len: 0,
    };

    // Whether every byte is graphic: neither a space nor a control nor above 0x7E.
    pub(crate) fn is_graphic(text: &[u8]) -> bool
        ensures { result ≡ graphic text.now }
    {
        text.iter().all(u8::is_ascii_graphic)
    }

    // Keeps a name of at most 12 bytes.
    pub(crate) fn keep(text: &[u8]) -> Name
        requires { length text.now ≤ 12 }
        ensures { name_bytes result ≡ text.now }
    {
        let mut bytes = [0; 12];
        let len = text.len();
        bytes[..len].copy_from_slice(text);
        Name { bytes, len }
    }

    // The bytes of the name.
    pub fn as_bytes(&self) -> &[u8]
        ensures { result.now ≡ name_bytes self.now }
    {
        &self.bytes[..self.len]
    }
}
