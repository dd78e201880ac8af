ghost use Rattle.std.specs.Prelude.{◌≡◌, ◌∷◌, ◌++◌, ◌≤◌, OnOk, OnErr, IfOk, MatchResult, [], length, insert};
ghost use Rattle.kid_value.specs.NameSet.{put_name};

use crate::memory::Memory;
use crate::text::Text;
use std::alloc::Global;
use std::cmp::Ordering;
use std::marker::Model;

/// A list of texts.
#[derive(Drop)]
pub struct Texts {
    items: Vec<Text>,
}

impl Model for Texts {
    ghost use Rattle.std.specs.Prelude.{List, ℕ};

    ghost Value = { List (List ℕ) };

    ghost view = { λ t. t.items.items };
}

impl Texts {
    /// The empty list. It takes no memory.
    pub fn new(alloc: Global) -> Texts
        ensures { result ≡ [] }
    {
        Texts {
            items: Vec::new(alloc),
        }
    }

    /// The list of these texts. It takes no memory.
    pub fn from_vec(items: Vec<Text>) -> Texts
        ensures { result ≡ items.items }
    {
        Texts { items }
    }

    /// The texts in their order, without copies.
    pub fn into_vec(self) -> Vec<Text>
        ensures { result.items ≡ self }
    {
        self.items
    }

    /// Adds a text at the end. Where memory is wanting the list stays as it was.
    pub fn push(&mut self, text: Text) -> Result<(), Memory>
        ensures ok { OnOk result (self.new ≡ self.old ++ text ∷ []) }
        ensures err { OnErr result (self.new ≡ self.old) }
    {
        self.items.push(text)?;
        Ok(())
    }

    /// Adds a text before the first that is not less, unless that one is equal. Where memory is wanting the list stays as it was.
    pub(crate) fn put(&mut self, text: Text) -> Result<(), Memory>
        ensures ok { OnOk result (self.new ≡ put_name text self.old) }
        ensures err { OnErr result (self.new ≡ self.old) }
    {
        if let Err(at) = place_of_text(self.items.as_slice(), &text) {
            self.items.insert(at, text)?;
        }
        Ok(())
    }

    /// A copy of the list, or an error where memory is wanting.
    pub fn copy(&self, alloc: Global) -> Result<Texts, Memory>
        ensures { IfOk result (λ t. t ≡ self.now) }
    {
        let mut items = Vec::new(alloc);
        for text in self.items.as_slice() {
            items.push(text.copy(alloc)?)?;
        }
        Ok(Texts { items })
    }

    /// The texts in their order.
    pub fn items(&self) -> &[Text]
        ensures { result.now ≡ self.now }
    {
        self.items.as_slice()
    }
}

/// The place of the first text that is not less, as an error where that one is not equal.
fn place_of_text(items: &[Text], text: &Text) -> Result<usize, usize>
    ensures { MatchResult result (λ at. put_name text.now items.now ≡ items.now) (λ at. (at ≤ length items.now) × (put_name text.now items.now ≡ insert items.now at text.now)) }
{
    for (i, other) in items.iter().enumerate() {
        match text.cmp(other) {
            Ordering::Less => return Err(i),
            Ordering::Equal => return Ok(i),
            Ordering::Greater => {}
        }
    }
    Err(items.len())
}
