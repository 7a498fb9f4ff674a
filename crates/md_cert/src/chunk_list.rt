// Lists of chunks.
ghost use Rattle.std.specs.Prelude.{◌≡◌};

use std::marker::Model;

/// A list of chunks. Contracts see the list.
#[derive(Debug, Drop)]
pub struct ChunkList {
    list: Vec<u32>,
}

impl Model for ChunkList {
    ghost use Rattle.std.specs.Prelude.{List, ℕ};

    ghost Value = { List ℕ };

    ghost view = { λ c. c.list.items };
}

impl ChunkList {
    /// The chunks of a list. It takes no memory.
    pub fn from_vec(list: Vec<u32>) -> ChunkList
        ensures { result ≡ list.items }
    {
        ChunkList { list }
    }

    /// The list.
    pub fn as_slice(&self) -> &[u32]
        ensures { result.now ≡ self.now }
    {
        self.list.as_slice()
    }
}
