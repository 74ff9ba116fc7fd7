//! What is made while expressions are resolved: texts and windows, each with its number.

ghost use Rattle.std.specs.Prelude.{◌≡◌, ◌++◌, [], ◌∷◌, IfOk, IsTrue, length};
ghost use Rattle.lola_model.specs.Named.{are_distinct};
ghost use Rattle.lola_names.specs.Numbered.{NumbersText, IsPlaceIn};

use indexmap::IndexSet;
use lola_model::spec::{Texts, WindowSpec, Windows};
use lola_value::text::{Memory, Text};
use lola_value::value::TextId;
use std::alloc::Global;
use std::marker::Model;

/// The text literals that are numbered so far, none twice: a text's number is its place.
#[derive(Drop)]
pub struct TextNumbers {
    alloc: Global,
    entries: IndexSet<Vec<u8>>,
}

impl Model for TextNumbers {
    ghost use Rattle.std.specs.Prelude.{ℕ, List, IsTrue};
    ghost use Rattle.lola_model.specs.Named.{are_distinct};
    ghost use Rattle.lola_names.specs.Entries.{texts_in};

    ghost Value = { List (List ℕ) };

    ghost view = { λ n. texts_in n.entries.keys };

    ghost invariant = { λ n. IsTrue (are_distinct (texts_in n.entries.keys)) };
}

impl TextNumbers {
    /// No texts.
    pub fn create(alloc: Global) -> TextNumbers
        ensures { result ≡ [] }
    {
        TextNumbers {
            alloc,
            entries: IndexSet::new(alloc),
        }
    }

    /// How many texts are numbered, which is the number of the next one.
    pub fn len(&self) -> usize
        ensures { result ≡ length self.now }
    {
        self.entries.len()
    }

    /// The number of a text, if it has one.
    pub fn find(&self, text: &[u8]) -> Option<TextId>
        ensures { IsPlaceIn self.now text.now result }
    {
        let place = self.entries.get_index_of(text)?;
        Some(TextId(place as u64))
    }

    /// The number of a text, which is numbered now if it was not.
    pub fn number(&mut self, text: &Text) -> Result<TextId, Memory>
        ensures { IfOk result (λ id. NumbersText text.now id.0 self.old self.new) }
    {
        if let Some(id) = self.find(text.as_bytes()) {
            return Ok(id);
        }
        let place = self.entries.len();
        let bytes = Vec::from_slice(self.alloc, text.as_bytes())?;
        self.entries.insert(bytes)?;
        Ok(TextId(place as u64))
    }

    /// The texts in order.
    pub fn texts(&self, alloc: Global) -> Result<Texts, Memory>
        ensures same { IfOk result (λ texts. texts ≡ self.now) }
        ensures distinct { IsTrue (are_distinct self.now) }
    {
        let mut texts = Texts::create(alloc);
        for bytes in self.entries.as_slice() {
            texts.push(Text::from_bytes(alloc, bytes.as_slice())?)?;
        }
        Ok(texts)
    }
}

/// What is made while expressions are resolved.
#[derive(Drop)]
pub struct Made {
    pub texts: TextNumbers,
    pub windows: Windows,
}

/// Puts a window behind the others. Its number is its place.
pub(crate) fn number_window(window: WindowSpec, windows: &mut Windows) -> Result<u32, Memory>
    ensures number { IfOk result (λ n. n ≡ length windows.old) }
    ensures windows { IfOk result (λ n. windows.new ≡ windows.old ++ window ∷ []) }
{
    let Ok(number) = u32::try_from(windows.as_slice().len()) else {
        return Err(Memory);
    };
    windows.push(window)?;
    Ok(number)
}
