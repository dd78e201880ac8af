//! Definitions.
ghost use Rattle.std.specs.Prelude.{◌≡◌, ◌<◌, ◌∷◌, ◌++◌, [], get_or, IfOk, OnOk, OnErr, Some, cond, map, length, take, nat_eq};
ghost use Rattle.std.specs.Cmp.Lexicographic.{pointwise};
ghost use Rattle.std.specs.Option.{option_map};
ghost use Rattle.indexmap.specs.IndexMap.{get};
ghost use Rattle.kid_term.specs.DefView.{plain_def};
ghost use Rattle.kid_term.specs.Definition.{definition_of};
ghost use Rattle.kid_term.specs.Latest.{latest_place};

use crate::Term;
use crate::names::copied;
use indexmap::IndexMap;
use kid_value::{Memory, Names, Sort, Text};
use std::alloc::Global;
use std::cmp;
use std::marker::Model;

/// A definition, whose body names its parameters and calls earlier definitions.
#[derive(Drop)]
pub struct Def {
    pub name: Text,
    pub parameters: Names,
    pub sort: Sort,
    pub body: Term,
}

/// Definitions in the order in which they were made, with the place of the latest one of each name.
#[derive(Drop)]
pub struct Defs {
    items: Vec<Def>,
    latest: IndexMap<Text, usize>,
}

impl Model for Defs {
    ghost use Rattle.std.specs.Prelude.{◌≡◌, ℕ, List, map, nat_eq};
    ghost use Rattle.std.specs.Cmp.Lexicographic.{pointwise};
    ghost use Rattle.indexmap.specs.IndexMap.{get};
    ghost use Rattle.kid_term.specs.Names.{PlainDef};
    ghost use Rattle.kid_term.specs.Latest.{latest_place};

    ghost Value = { List PlainDef };

    ghost use Rattle.kid_term.specs.DefCode.{coded_defs};

    ghost coded = { coded_defs };

    ghost use Rattle.kid_term.specs.DefView.{plain_def};

    ghost view = { λ d. map plain_def d.items.items };

    ghost invariant = { λ d. (f : List ℕ) → get (pointwise nat_eq) d.latest f ≡ latest_place f (map plain_def d.items.items) };
}

impl Def {
    /// An equal definition.
    ///
    /// # Errors
    ///
    /// Fails where memory is wanting.
    pub fn copy(&self, alloc: Global) -> Result<Def, Memory>
        ensures { IfOk result (λ d. plain_def d ≡ plain_def self.now) }
    {
        Ok(Def {
            name: self.name.copy(alloc)?,
            parameters: copied(alloc, &self.parameters)?,
            sort: self.sort.copy(alloc)?,
            body: self.body.copy(alloc)?,
        })
    }
}

impl Defs {
    /// No definitions. Takes no memory.
    pub fn new(alloc: Global) -> Defs
        ensures { result ≡ [] }
    {
        Defs {
            items: Vec::new(alloc),
            latest: IndexMap::new(alloc),
        }
    }

    /// Its definitions. Takes no memory.
    pub fn into_vec(self) -> Vec<Def>
        ensures { map plain_def result.items ≡ self }
    {
        self.items
    }

    /// Adds a definition after the others.
    ///
    /// # Errors
    ///
    /// Fails where memory is wanting, and then changes nothing.
    pub fn push(&mut self, def: Def) -> Result<(), Memory>
        ensures ok { OnOk result (self.new ≡ self.old ++ plain_def def ∷ []) }
        ensures err { OnErr result (self.new ≡ self.old) }
    {
        let alloc = *self.latest.allocator();
        let name = def.name.copy(alloc)?;
        add(&mut self.items, &mut self.latest, name, def)
    }

    /// Equal definitions in the same order.
    ///
    /// # Errors
    ///
    /// Fails where memory is wanting.
    pub fn copy(&self, alloc: Global) -> Result<Defs, Memory>
        ensures { IfOk result (λ ds. ds ≡ self.now) }
    {
        let mut copies = Defs::new(alloc);
        for definition in self.items() {
            copies.push(definition.copy(alloc)?)?;
        }
        Ok(copies)
    }

    /// How many definitions there are.
    pub fn len(&self) -> usize
        ensures { result ≡ length self.now }
    {
        self.items.len()
    }

    /// The definitions in their order.
    pub fn items(&self) -> &[Def]
        ensures { map plain_def result.now ≡ self.now }
    {
        self.items.as_slice()
    }

    /// The latest definition of a name, or `None` where no definition has it.
    pub fn find(&self, name: &Text) -> Option<&Def>
        ensures { option_map (λ d. plain_def d.now) result ≡ definition_of name.now self.now }
    {
        match self.latest.get(name) {
            Some(place) => Some(definition_at(self.items.as_slice(), *place)),
            None => None,
        }
    }

    /// The place of the latest definition of a name among the first `count`, or `None` where none of these has it.
    pub fn place(&self, count: usize, name: &Text) -> Option<usize>
        ensures { result ≡ latest_place name.now (take count self.now) }
    {
        match self.latest.get(name) {
            Some(place) => if *place < count {
                Some(*place)
            } else {
                place_among(self.items.as_slice(), count, name)
            },
            None => None,
        }
    }
}

fn definition_at(definitions: &[Def], place: usize) -> &Def
    requires { place < length definitions.now }
    ensures { result.now ≡ get_or definitions.now place result.now }
{
    &definitions[place]
}

/// Adds a definition after the others, whose name is then found at its place.
fn add(
    items: &mut Vec<Def>,
    latest: &mut IndexMap<Text, usize>,
    name: Text,
    def: Def,
) -> Result<(), Memory>
    requires { name ≡ def.name }
    ensures ok { OnOk result (items.new.items ≡ items.old.items ++ def ∷ []) }
    ensures err { OnErr result (items.new.items ≡ items.old.items) }
    ensures found { OnOk result ((f : _) → get (pointwise nat_eq) latest.new f ≡ cond (pointwise nat_eq f def.name) (Some (length items.old.items)) (get (pointwise nat_eq) latest.old f)) }
    ensures kept { OnErr result ((f : _) → get (pointwise nat_eq) latest.new f ≡ get (pointwise nat_eq) latest.old f) }
{
    items.reserve(1)?;
    latest.insert(name, items.len())?;
    items.push(def).unwrap();
    Ok(())
}

/// The place of the latest definition of a name among the first `count`, from the last of these back.
fn place_among(definitions: &[Def], count: usize, name: &Text) -> Option<usize>
    ensures { result ≡ latest_place name.now (take count (map plain_def definitions.now)) }
{
    let mut at = cmp::min(count, definitions.len());
    while at > 0 {
        at -= 1;
        if *name == definitions[at].name {
            return Some(at);
        }
    }
    None
}
