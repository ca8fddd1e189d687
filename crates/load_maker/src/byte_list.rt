// The bytes of a text.
ghost use Rattle.std.specs.Prelude.{◌≡◌, ◌<◌, length, slice_get, Some};

use std::marker::Model;

/// The bytes of a text. A clause sees them as a list.
pub struct ByteList {
    bytes: Vec<u8>,
}

// One call at each exit of who lets it go.
impl Drop for ByteList {
    fn drop(self) {
        let ByteList { bytes: _ } = self;
    }
}

impl Model for ByteList {
    ghost use Rattle.std.specs.Prelude.{List, ℕ};

    ghost Value = { List ℕ };

    ghost view = { λ l. l.bytes.items };
}

impl ByteList {
    // The list of these bytes.
    pub(crate) fn new(bytes: Vec<u8>) -> ByteList
        ensures { result ≡ bytes.items }
    {
        ByteList { bytes }
    }

    /// How many bytes there are.
    pub fn len(&self) -> usize
        ensures { result ≡ length self.now }
    {
        self.bytes.len()
    }

    /// The byte at a place, counted from 0.
    pub fn get(&self, at: usize) -> &u8
        requires { at < length self.now }
        ensures { slice_get self.now at ≡ Some result.now }
    {
        &self.bytes[at]
    }

    /// The bytes.
    pub fn bytes(&self) -> &[u8]
        ensures { result.now ≡ self.now }
    {
        &self.bytes
    }
}
