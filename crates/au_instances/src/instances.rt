//! The table of a program's instances.

ghost use Rattle.std.specs.Prelude.{◌≡◌, [], ◌++◌, ◌∷◌, None, Some, OnOk, OnErr, option_copied};
ghost use Rattle.std.specs.Option.{option_map};
ghost use Rattle.au_types.specs.Views.{meaning};
ghost use Rattle.au_instances.specs.declared.constructors.Constructor.{Constructor};
ghost use Rattle.au_instances.specs.Constructors as constructors;
ghost use Rattle.au_instances.specs.Forms.{HasForm};
ghost use Rattle.au_instances.specs.Rows.{row_said, rows_said};
ghost use Rattle.au_instances.specs.Tables as tables;
ghost use Rattle.au_instances.specs.Tables.{IsTable};

use crate::constructors::{Constructor, constructor_of};
use crate::keys::Key;
use crate::rows::{ClassAt, Row};
use au_base::Memory;
use indexmap::IndexSet;
use std::alloc::Global;
use std::marker::Model;

/// The instances of a program in the order in which they came, seen by contracts as the list of their rows.
/// The head of each row has the form of a head, and no two rows of one class have heads of one constructor.
/// A row is found by its class and constructor without a walk through the rows.
#[derive(Drop)]
pub struct Instances {
    rows: Vec<Row>,
    keys: IndexSet<Key>,
}

impl Model for Instances {
    ghost use Rattle.std.specs.Prelude.{◌≡◌, List, map};
    ghost use Rattle.std.specs.Coded.{coded_list};
    ghost use Rattle.au_instances.specs.Rows.{Row, row_code, rows_said};

    ghost Value = { List Row };

    ghost coded = { coded_list row_code };

    ghost use Rattle.au_instances.specs.Keys.{key_said, key_of};
    ghost use Rattle.au_instances.specs.Tables.{IsTable};

    ghost view = { λ i. rows_said i.rows.items };

    ghost invariant = { λ i.
        (map key_said i.keys.keys ≡ map key_of (rows_said i.rows.items))
        × IsTable (rows_said i.rows.items) };
}

impl Instances {
    /// The table without rows.
    pub fn new(alloc: Global) -> Instances
        ensures { result ≡ [] }
    {
        Instances {
            rows: Vec::new(alloc),
            keys: IndexSet::new(alloc),
        }
    }

    /// Puts a row at the end, whose head has the form of a head, where no row of its class has a head of its
    /// constructor.
    ///
    /// # Errors
    ///
    /// `Memory` when memory runs out, and the table is as it was.
    pub fn add(&mut self, row: Row) -> Result<(), Memory>
        requires form { HasForm row.generics (meaning row.head) }
        requires apart { tables.row_with self.old row.class (constructors.constructor_of (meaning row.head))
            ≡ None }
        ensures ok { OnOk result (self.new ≡ self.old ++ row_said row ∷ []) }
        ensures err { OnErr result (self.new ≡ self.old) }
    {
        let Some(constructor) = constructor_of(&row.head) else {
            unreachable!()
        };
        let key = Key {
            class: row.class,
            constructor,
        };
        self.rows.reserve(1)?;
        self.keys.insert(key)?;
        self.rows.push_reserved(row);
        Ok(())
    }

    /// The row of a class whose head has this constructor, and `None` where no row is such.
    pub fn row_of(&self, class: ClassAt, constructor: Constructor) -> Option<&Row>
        ensures { option_map row_said (option_copied result) ≡ tables.row_of self.now class constructor }
    {
        let index = self.keys.get_index_of(&Key { class, constructor })?;
        Some(&self.rows[index])
    }

    /// A law of each table: the head of each row has the form of a head, and no two rows of one class have
    /// heads of one constructor.
    pub fn is_table(&self)
        ensures { IsTable self.now }
    {
        let _rows = self.rows();
    }

    /// The rows in order.
    pub fn rows(&self) -> &[Row]
        ensures rows { rows_said result.now ≡ self.now }
        ensures table { IsTable self.now }
    {
        self.rows.as_slice()
    }
}
