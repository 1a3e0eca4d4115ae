// Names by their positions.

ghost use Rattle.std.specs.Prelude.{◌≡◌, [], ◌∷◌, ◌++◌, bytes_eq, length, position, OnErr, OnOk};

use indexmap::IndexMap;
use nxt_types::NoMemory;
use std::alloc::Global;
use std::marker::Model;

/// Names in the order of their declarations. Where a name is declared again, its first declaration counts.
#[derive(Drop)]
pub struct NameTable<'a> {
    names: Vec<&'a [u8]>,
    firsts: IndexMap<&'a [u8], usize>,
}

impl<'a> Model for NameTable<'a> {
    ghost use Rattle.std.specs.Prelude.{ℕ, List, map};
    ghost use Rattle.nxt_nbc_names.specs.Inside.Names.{ArePlaced};

    ghost Value = { List (List ℕ) };

    ghost view = { λ t. map (λ n. n.now) t.names.items };

    ghost invariant = { λ t. ArePlaced (map (λ n. n.now) t.names.items) t.firsts };
}

impl<'a> NameTable<'a> {
    /// No names.
    pub fn new(alloc: Global) -> NameTable<'a>
        ensures { result ≡ [] }
    {
        NameTable {
            names: Vec::new(alloc),
            firsts: IndexMap::new(alloc),
        }
    }

    /// How many names are declared, a name counted each time.
    pub fn len(&self) -> usize
        ensures { result ≡ length self.now }
    {
        self.names.len()
    }

    /// The position of a name's first declaration, counted from 0.
    pub fn position(&self, name: &'a [u8]) -> Option<usize>
        ensures { result ≡ position (λ n. bytes_eq n name.now) self.now }
    {
        self.firsts.get(&name).copied()
    }

    /// Declares a name. An `Err` changes nothing.
    pub fn push(&mut self, name: &'a [u8]) -> Result<(), NoMemory>
        ensures ok { OnOk result (self.new ≡ self.old ++ name.now ∷ []) }
        ensures err { OnErr result (self.new ≡ self.old) }
    {
        let here = self.len();
        let is_new = self.position(name).is_none();
        self.names.try_reserve(1)?;
        if is_new {
            self.firsts.insert(name, here)?;
        }
        self.names.push(name)?;
        Ok(())
    }
}
