ghost use Rattle.std.specs.Prelude.{◌≡◌, ◌↔◌, Contains, IfOk, IsTrue};
ghost use Rattle.kid_value.specs.NameSet.{is_among as among, are_among as all_among, names_ascend as ascending, names_union, least_from as least_of_all, least_name as least_of_names};

use crate::memory::Memory;
use crate::text::Text;
use crate::texts::Texts;
use std::alloc::Global;

/// Whether a name is among names.
pub fn is_among(name: &Text, names: &[Text]) -> bool
    ensures value { result ≡ among name.now names.now }
    ensures found { IsTrue result ↔ Contains names.now name.now }
{
    names.iter().any(|other| name.is(other.as_slice()))
}

/// Whether each name is among others.
pub(crate) fn are_among(names: &[Text], others: &[Text]) -> bool
    ensures { result ≡ all_among names.now others.now }
{
    names.iter().all(|name| is_among(name, others))
}

/// Whether names ascend strictly.
pub(crate) fn names_ascend(names: &[Text]) -> bool
    ensures { result ≡ ascending names.now }
{
    for (i, name) in names.iter().enumerate() {
        if i + 1 < names.len() && name.cmp(&names[i + 1]).is_ge() {
            return false;
        }
    }
    true
}

/// The names of both, or an error where memory is wanting.
pub(crate) fn union(alloc: Global, first: &Texts, second: &Texts) -> Result<Texts, Memory>
    ensures { IfOk result (λ ns. ns ≡ names_union first.now second.now) }
{
    let mut names = first.copy(alloc)?;
    for name in second.items() {
        names.put(name.copy(alloc)?)?;
    }
    Ok(names)
}

/// The least of the names, and the empty one where there is none. An error comes where memory is wanting.
pub(crate) fn least_name(alloc: Global, names: &Texts) -> Result<Text, Memory>
    ensures { IfOk result (λ n. n ≡ least_of_names names.now) }
{
    match names.items().split_first() {
        Some((first, rest)) => Ok(least_from(first, rest).copy(alloc)?),
        None => Ok(Text::new(alloc)),
    }
}

/// The least of a name and of further names.
fn least_from<'a>(first: &'a Text, rest: &'a [Text]) -> &'a Text
    ensures { result.now ≡ least_of_all first.now rest.now }
{
    let mut least = first;
    for name in rest {
        if name.cmp(least).is_lt() {
            least = name;
        }
    }
    least
}
