// The text of a path.
ghost use Rattle.std.specs.Prelude.{◌≡◌, string_bytes};

use std::marker::Model;

/// The text of a path to a file. A clause sees its bytes.
pub struct PathText {
    text: String,
}

// One call at each exit of who lets it go.
impl Drop for PathText {
    fn drop(self) {
        let PathText { text: _ } = self;
    }
}

impl Model for PathText {
    ghost use Rattle.std.specs.Prelude.{List, ℕ, string_bytes};

    ghost Value = { List ℕ };

    ghost view = { λ p. string_bytes p.text };
}

impl PathText {
    /// The path with this text.
    pub fn new(text: String) -> Self
        ensures { result ≡ string_bytes text }
    {
        PathText { text }
    }

    /// The path's text.
    pub fn text(&self) -> &str
        ensures { result.now ≡ self.now }
    {
        &self.text
    }
}
