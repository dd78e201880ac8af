//! Names that are declared.
ghost use Rattle.std.specs.Prelude.{◌≡◌, ◌∷◌, ◌++◌, [], IfOk, OnOk, map};
ghost use Rattle.kid_value.specs.NameView.{plain_name};
ghost use Rattle.kid_kernel.specs.Differ.{words_of};
ghost use Rattle.kid_theory.specs.Taken.{is_free, are_free};

use kid_codec::is_name;
use kid_value::{Memory, Names, Text, Texts, is_among};
use std::alloc::Global;

/// Whether the word is a name that nothing declared before has.
pub fn is_free(taken: &Texts, x: &Text) -> bool
    ensures { result ≡ is_free taken.now x.now }
{
    is_name(x.as_slice()) && !is_among(x, taken.items())
}

/// Whether the words are names that nothing declared before has, nor two of them.
///
/// # Errors
///
/// Fails where memory is wanting.
pub fn are_free(alloc: Global, taken: &Texts, names: &Names) -> Result<bool, Memory>
    ensures { IfOk result (λ b. b ≡ are_free taken.now names.now) }
{
    let mut seen = copied(alloc, taken)?;
    for name in names.items() {
        if !is_free(&seen, &name.0) {
            return Ok(false);
        }
        seen.push(name.0.copy(alloc)?)?;
    }
    Ok(true)
}

/// Adds a name after the others.
///
/// # Errors
///
/// Fails where memory is wanting.
pub fn declare(alloc: Global, taken: &mut Texts, name: &Text) -> Result<(), Memory>
    ensures { OnOk result (taken.new ≡ taken.old ++ name.now ∷ []) }
{
    taken.push(name.copy(alloc)?)?;
    Ok(())
}

/// Adds texts after the others.
///
/// # Errors
///
/// Fails where memory is wanting.
fn extend(alloc: Global, texts: &mut Texts, more: &[Text]) -> Result<(), Memory>
    ensures { OnOk result (texts.new ≡ texts.old ++ more.now) }
{
    for text in more {
        texts.push(text.copy(alloc)?)?;
    }
    Ok(())
}

/// Adds names without their sorts after the others.
///
/// # Errors
///
/// Fails where memory is wanting.
pub fn add_words(alloc: Global, texts: &mut Texts, names: &Names) -> Result<(), Memory>
    ensures { OnOk result (texts.new ≡ texts.old ++ words_of names.now) }
{
    for name in names.items() {
        texts.push(name.0.copy(alloc)?)?;
    }
    Ok(())
}

fn copied(alloc: Global, texts: &Texts) -> Result<Texts, Memory>
    ensures { IfOk result (λ ts. ts ≡ texts.now) }
{
    let mut copy = Texts::new(alloc);
    extend(alloc, &mut copy, texts.items())?;
    Ok(copy)
}

/// The texts, and then this one.
///
/// # Errors
///
/// Fails where memory is wanting.
pub fn with_text(alloc: Global, texts: &Texts, text: &Text) -> Result<Texts, Memory>
    ensures { IfOk result (λ ts. ts ≡ texts.now ++ text.now ∷ []) }
{
    let mut more = copied(alloc, texts)?;
    more.push(text.copy(alloc)?)?;
    Ok(more)
}

/// The texts of both lists.
///
/// # Errors
///
/// Fails where memory is wanting.
pub fn joined(alloc: Global, first: &Texts, second: &Texts) -> Result<Texts, Memory>
    ensures { IfOk result (λ ts. ts ≡ first.now ++ second.now) }
{
    let mut texts = copied(alloc, first)?;
    extend(alloc, &mut texts, second.items())?;
    Ok(texts)
}
