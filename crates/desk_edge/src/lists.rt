// Files, call numbers and sizes for the shelf, feed and sink in memory.
ghost use Rattle.std.specs.Prelude.{◌≡◌, ◌≤◌, length, string_bytes, nat_lt, is_some};
ghost use Rattle.desk_edge.specs.FileList.{bytes_of};
ghost use Rattle.desk_edge.specs.Shelf.{file_at, bytes_at};

use item_lists::Items;
use std::marker::Model;

/// A file in memory. Clauses see the pair of its path and its bytes.
#[derive(Drop)]
pub struct MemoryFile {
    path: String,
    bytes: Vec<u8>,
}

impl Model for MemoryFile {
    ghost use Rattle.std.specs.Prelude.{ℕ, List, string_bytes};

    ghost Value = { List ℕ × List ℕ };

    ghost view = { λ f. (string_bytes f.path, f.bytes.items) };
}

impl MemoryFile {
    pub fn new(path: String, bytes: Vec<u8>) -> MemoryFile
        ensures { result ≡ (string_bytes path, bytes.items) }
    {
        MemoryFile { path, bytes }
    }

    pub fn path(&self) -> &str
        ensures { result.now ≡ self.now.0 }
    {
        &self.path
    }

    pub fn bytes(&self) -> &[u8]
        ensures { result.now ≡ self.now.1 }
    {
        &self.bytes
    }
}

/// Files in order. Clauses see the list of their pairs.
pub type FileList = Items<MemoryFile>;

/// Numbers of calls, from 1.
pub type CallList = Items<u64>;

/// Sizes of pieces in order, in bytes.
pub type SizeList = Items<usize>;

// Returns the place of the first file with this path, and the length of the list if there is none.
pub(crate) fn place_of(files: &FileList, path: &str) -> usize
    ensures within { result ≤ length files.now }
    ensures found { nat_lt result (length files.now) ≡ is_some (file_at files.now path.now) }
    ensures bytes { bytes_of files.now result ≡ bytes_at files.now path.now }
{
    let items = files.items();
    for (at, file) in items.iter().enumerate() {
        if file.path() == path {
            return at;
        }
    }
    items.len()
}

// Returns the bytes of the file at this place, and none past the end of the list.
pub(crate) fn bytes_at(files: &FileList, at: usize) -> &[u8]
    ensures { result.now ≡ bytes_of files.now at }
{
    match files.items().get(at) {
        Some(file) => file.bytes(),
        None => &[],
    }
}
