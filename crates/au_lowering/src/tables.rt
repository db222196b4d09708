//! Tables that give texts and types their numbers.

ghost use Rattle.std.specs.Prelude.{◌≡◌, [], ◌∷◌, IfOk, OnOk, map};
ghost use Rattle.std.specs.Str.{bytes_eq};
ghost use Rattle.au_type_texts.specs.Keys.{key_of};
ghost use Rattle.au_type_texts.specs.Views.{closed_meaning};
ghost use Rattle.au_lowered.specs.Programs.{text_number};
ghost use Rattle.au_lowering.specs.Keyed.{key_number};
ghost use Rattle.au_graphs.specs.Finding.{numbers};
ghost use Rattle.au_graphs.specs.Reached.{adds};

use au_base::{Memory, Sequence, Text};
use au_type_texts::{Closed, add_key};
use indexmap::IndexSet;
use std::alloc::Global;
use std::marker::Model;

/// Texts, each once, seen by contracts as the list of them in the order in which they were first put. The
/// number of one is found without a walk through the list.
#[derive(Drop)]
pub struct TextTable {
    keys: IndexSet<Vec<u8>>,
}

impl Model for TextTable {
    ghost use Rattle.std.specs.Prelude.{List, ℕ, map};
    ghost use Rattle.au_graphs.specs.Finding.{numbers};

    ghost Value = { List (List ℕ) };

    ghost view = { λ t. map numbers t.keys.keys };
}

/// A number, if it has at most 32 bits.
fn narrow(number: usize) -> Result<u32, Memory>
    ensures { IfOk result (λ made. made ≡ number) }
{
    if number > u32::MAX as usize {
        return Err(Memory);
    }
    Ok(number as u32)
}

impl TextTable {
    /// No text.
    pub fn new(alloc: Global) -> TextTable
        ensures { result ≡ [] }
    {
        TextTable {
            keys: IndexSet::new(alloc),
        }
    }

    /// The texts.
    ///
    /// # Errors
    ///
    /// Only for want of memory.
    pub fn texts(&self, alloc: Global) -> Result<Sequence<Text>, Memory>
        ensures { IfOk result (λ texts. texts ≡ self.now) }
    {
        let mut texts = Vec::new(alloc);
        for key in self.keys.as_slice() {
            let text = Text::copy_of(alloc, key.as_slice())?;
            texts.push(text)?;
        }
        Ok(Sequence::from_vec(texts))
    }

    /// Puts a text at the end, if it isn't there yet.
    ///
    /// # Errors
    ///
    /// Only for want of memory.
    pub fn put(&mut self, alloc: Global, text: &Text) -> Result<(), Memory>
        ensures { OnOk result (self.new ≡ adds bytes_eq self.old (text.now ∷ [])) }
    {
        let key = Vec::from_slice(alloc, text.as_bytes())?;
        self.keys.insert(key)?;
        Ok(())
    }

    /// The number of a text, and how many there are where it isn't there.
    ///
    /// # Errors
    ///
    /// `Memory` where it has more than 32 bits.
    pub fn number(&self, text: &Text) -> Result<u32, Memory>
        ensures { IfOk result (λ number. number ≡ text_number self.now text.now) }
    {
        match self.keys.get_index_of(text.as_bytes()) {
            None => narrow(self.keys.len()),
            Some(at) => narrow(at),
        }
    }
}

/// Types, each once, seen by contracts as the list of their keys in the order in which they were first put.
/// The number of one is found without a walk through the list.
#[derive(Drop)]
pub struct TypeTable {
    keys: IndexSet<Vec<u32>>,
}

impl Model for TypeTable {
    ghost use Rattle.std.specs.Prelude.{List, ℕ, map};
    ghost use Rattle.au_graphs.specs.Finding.{numbers};

    ghost Value = { List (List ℕ) };

    ghost view = { λ t. map numbers t.keys.keys };
}

/// The key of a type.
pub fn key_of_type(alloc: Global, of: &Closed) -> Result<Vec<u32>, Memory>
    ensures { IfOk result (λ key. key.items ≡ key_of (closed_meaning of.now)) }
{
    let mut key = Vec::new(alloc);
    add_key(&mut key, of)?;
    Ok(key)
}

impl TypeTable {
    /// No type.
    pub fn new(alloc: Global) -> TypeTable
        ensures { result ≡ [] }
    {
        TypeTable {
            keys: IndexSet::new(alloc),
        }
    }

    /// The keys of the types.
    pub fn keys(&self) -> &[Vec<u32>]
        ensures { map numbers result.now ≡ self.now }
    {
        self.keys.as_slice()
    }

    /// Puts a type at the end, if it isn't there yet.
    ///
    /// # Errors
    ///
    /// Only for want of memory.
    pub fn put(&mut self, alloc: Global, of: &Closed) -> Result<(), Memory>
        ensures { OnOk result (self.new ≡ adds bytes_eq self.old (key_of (closed_meaning of.now) ∷ [])) }
    {
        let key = key_of_type(alloc, of)?;
        self.keys.insert(key)?;
        Ok(())
    }

    /// The number of a type, and how many there are where it isn't there.
    ///
    /// # Errors
    ///
    /// `Memory` where it has more than 32 bits, or memory runs out.
    pub fn number(&self, alloc: Global, of: &Closed) -> Result<u32, Memory>
        ensures { IfOk result (λ number. number ≡ key_number self.now (closed_meaning of.now)) }
    {
        let key = key_of_type(alloc, of)?;
        match self.keys.get_index_of(key.as_slice()) {
            None => narrow(self.keys.len()),
            Some(at) => narrow(at),
        }
    }
}

/// The texts and the types that instructions name.
#[derive(Drop)]
pub struct Tables {
    /// The texts.
    pub texts: TextTable,
    /// The types.
    pub types: TypeTable,
}
