//! Which of the known instances is of a class and a constructor, and how another one is put behind them.

ghost use Rattle.std.specs.Prelude.{◌≡◌, ◌++◌, ◌∷◌, [], None, Some, OnOk, find, length};
ghost use Rattle.std.specs.Option.{option_map};
ghost use Rattle.au_classes.specs.Faults as spec;
ghost use Rattle.au_classes.specs.ClassViews.{known_rows};
ghost use Rattle.au_instances.specs.Constructors as constructors;
ghost use Rattle.au_instances.specs.Forms.{HasForm};
ghost use Rattle.au_instances.specs.Rows.{row_said, rows_said};
ghost use Rattle.au_instances.specs.Tables as tables;
ghost use Rattle.au_types.specs.Views.{meaning};

use crate::known::Known;
use au_base::{Memory, Pos};
use au_instances::{ClassAt, Constructor, Instances, Row, constructor_of};
use std::alloc::Global;

/// Whether a row is of a class and its head has a constructor.
fn is_row_of(class: ClassAt, constructor: Constructor, row: &Row) -> bool
    ensures { result ≡ tables.is_row_of class constructor (row_said row.now) }
{
    class == row.class && is_constructor(constructor, constructor_of(&row.head))
}

/// Whether that is a constructor, and this one.
fn is_constructor(one: Constructor, other: Option<Constructor>) -> bool
    ensures { result ≡ constructors.is_constructor one other }
{
    match other {
        None => false,
        Some(other) => one == other,
    }
}

/// The place of the first of these rows that is of a class and has a head of a constructor, if there is one.
fn first_place(
    rows: &[Row],
    places: &Vec<Pos>,
    class: ClassAt,
    constructor: Constructor,
) -> Option<Pos>
    requires { length places.now.items ≡ length rows.now }
    ensures { result ≡ option_map spec.place_of
        (find (spec.is_like class (Some constructor)) (known_rows places.now.items (rows_said rows.now))) }
{
    for (index, one) in rows.iter().enumerate() {
        if is_row_of(class, constructor, one) {
            return Some(places[index]);
        }
    }
    None
}

impl Known {
    /// No instance.
    pub fn new(alloc: Global) -> Known
        ensures rows { result.rows ≡ [] }
        ensures places { result.places.items ≡ [] }
    {
        Known {
            rows: Instances::new(alloc),
            places: Vec::new(alloc),
        }
    }

    /// The place of the first that is of a class and has a head of a constructor, if there is one. That there
    /// is none is found without a walk through the rows.
    pub fn place_with(&self, class: ClassAt, constructor: Constructor) -> Option<Pos>
        ensures { result ≡ option_map spec.place_of
            (find (spec.is_like class (Some constructor)) (known_rows self.now.places.items self.now.rows)) }
    {
        match self.rows.row_of(class, constructor) {
            None => None,
            Some(_) => first_place(self.rows.rows(), &self.places, class, constructor),
        }
    }

    /// The place of the first that is of the class of a row and has a head of its constructor, if there is
    /// one.
    pub fn place_like(&self, row: &Row) -> Option<Pos>
        ensures { result ≡ option_map spec.place_of
            (spec.first_like (known_rows self.now.places.items self.now.rows) (row_said row.now)) }
    {
        match constructor_of(&row.head) {
            None => None,
            Some(constructor) => self.place_with(row.class, constructor),
        }
    }

    /// Puts an instance behind the others, whose head has the form of a head, where none is of its class and
    /// has a head of its constructor.
    ///
    /// # Errors
    ///
    /// Only for want of memory.
    pub fn add(&mut self, at: Pos, row: Row) -> Result<(), Memory>
        requires form { HasForm row.generics (meaning row.head) }
        requires apart { spec.first_like (known_rows self.old.places.items self.old.rows) (row_said row)
            ≡ None }
        ensures rows { OnOk result (self.new.rows ≡ self.old.rows ++ row_said row ∷ []) }
        ensures places { OnOk result (self.new.places.items ≡ self.old.places.items ++ at ∷ []) }
    {
        self.places.reserve(1)?;
        self.rows.add(row)?;
        self.places.push_reserved(at);
        Ok(())
    }
}
