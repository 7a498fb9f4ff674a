// Chunks, each with the sources that may give it.
ghost use Rattle.std.specs.Prelude.{◌≡◌, ◌<◌, [], ◌∷◌, ◌++◌, All, OnErr, OnOk};
ghost use Rattle.md_cert.specs.Tables.{IsTable};

use crate::no_memory::NoMemory;
use std::alloc::Global;
use std::marker::Model;

/// A chunk and its mask: bit s is set where source s may give the chunk.
#[derive(Clone, Copy, Debug, PartialEq, Eq)]
pub struct Row {
    pub chunk: u32,
    pub mask: u32,
}

/// Rising chunks, each with its mask. Contracts see the list of rows.
#[derive(Debug, Drop)]
pub struct Table {
    rows: Vec<Row>,
}

impl Model for Table {
    ghost use Rattle.std.specs.Prelude.{List};
    ghost use Rattle.md_cert.specs.declared.table.Row.{Row};
    ghost use Rattle.md_cert.specs.Tables.{IsTable};

    ghost Value = { List Row };

    ghost view = { λ t. t.rows.items };

    ghost invariant = { λ t. IsTable t.rows.items };
}

impl Table {
    /// A table without chunks. It takes no memory.
    pub fn new(alloc: Global) -> Self
        ensures { result ≡ [] }
    {
        Table {
            rows: Vec::new(alloc),
        }
    }

    /// Adds a chunk above all others.
    pub fn push(&mut self, chunk: u32, mask: u32) -> Result<(), NoMemory>
        requires { All (λ r. r.chunk < chunk) self.old }
        ensures ok { OnOk result (self.new ≡ self.old ++ record { chunk = chunk; mask = mask } ∷ []) }
        ensures err { OnErr result (self.new ≡ self.old) }
    {
        self.rows.push(Row { chunk, mask })?;
        Ok(())
    }

    /// The rows, by rising chunks.
    pub fn rows(&self) -> &[Row]
        ensures rows { result.now ≡ self.now }
        ensures rising { IsTable self.now }
    {
        self.rows.as_slice()
    }
}
