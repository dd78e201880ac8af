//! Reads a text by a form and prints what was read, or tells whether it has another form. `None` is want of memory, or a text that is
//! not one tree. Trees stay in their forests, which are dropped by one call.
use kid_codec::CodecFault;
use kid_form::{
    DeclaredWords, PathForm, TreeForm, definition_tree, first_tree, read_first,
    read_program_definition, read_theory_definition,
};
use kid_sexp::{Forest, Tree, print, read};
use kid_value::Memory;
use std::alloc::Global;

/// What a text is read as.
#[derive(Clone, Copy)]
pub enum Form {
    TheoryDefinition,
    ProgramDefinition,
    First,
    Path,
}

fn put(forest: &mut Forest, tree: Tree) -> Option<()> {
    forest.push(tree).ok()
}

fn put_made(forest: &mut Forest, made: Result<Tree, Memory>) -> Option<()> {
    match made {
        Ok(tree) => put(forest, tree),
        Err(_) => None,
    }
}

fn put_theory_definition(alloc: Global, tree: &Tree, back: &mut Forest) -> Option<()> {
    let definition = read_theory_definition(alloc, tree).ok()?;
    put_made(back, definition_tree(alloc, &definition))
}

fn put_program_definition(alloc: Global, tree: &Tree, back: &mut Forest) -> Option<()> {
    let definition = read_program_definition(alloc, tree).ok()?;
    put_made(back, definition_tree(alloc, &definition))
}

fn put_first(alloc: Global, tree: &Tree, back: &mut Forest) -> Option<()> {
    let count = read_first(alloc, tree).ok()?;
    put_made(back, first_tree(alloc, count))
}

fn put_path(alloc: Global, tree: &Tree, back: &mut Forest) -> Option<()> {
    let path = PathForm::read(alloc, tree).ok()?;
    put_made(back, PathForm::tree(alloc, &path))
}

fn put_back(alloc: Global, form: Form, tree: &Tree, back: &mut Forest) -> Option<()> {
    match form {
        Form::TheoryDefinition => put_theory_definition(alloc, tree, back),
        Form::ProgramDefinition => put_program_definition(alloc, tree, back),
        Form::First => put_first(alloc, tree, back),
        Form::Path => put_path(alloc, tree, back),
    }
}

fn is_printed(alloc: Global, forest: &Forest, want: &str) -> Option<bool> {
    if !forest.is_printable() {
        return None;
    }
    let printed = print(alloc, forest).ok()?;
    Some(printed.as_slice() == want.as_bytes())
}

fn told_back(alloc: Global, form: Form, text: &str) -> Option<bool> {
    let forest = read(alloc, text.as_bytes()).ok()?;
    let mut back = Forest::new(alloc);
    match forest.as_slice() {
        [tree] => put_back(alloc, form, tree, &mut back)?,
        _ => return None,
    }
    is_printed(alloc, &back, text)
}

/// Whether the text is read, and then printed as it was.
pub fn is_read_back(alloc: Global, form: Form, text: &str) -> bool {
    matches!(told_back(alloc, form, text), Some(true))
}

fn fault_of(alloc: Global, form: Form, tree: &Tree) -> Option<CodecFault> {
    match form {
        Form::TheoryDefinition => read_theory_definition(alloc, tree).err(),
        Form::ProgramDefinition => read_program_definition(alloc, tree).err(),
        Form::First => read_first(alloc, tree).err(),
        Form::Path => PathForm::read(alloc, tree).err(),
    }
}

fn told_fault(alloc: Global, form: Form, text: &str) -> Option<CodecFault> {
    let forest = read(alloc, text.as_bytes()).ok()?;
    match forest.as_slice() {
        [tree] => fault_of(alloc, form, tree),
        _ => None,
    }
}

/// Whether the text has another form.
pub fn is_refused(alloc: Global, form: Form, text: &str) -> bool {
    matches!(told_fault(alloc, form, text), Some(CodecFault::Form))
}

fn names_count(alloc: Global, tree: &Tree) -> Option<usize> {
    let names = DeclaredWords::read(alloc, tree).ok()?;
    Some(names.items().len())
}

/// How many names with their sorts a text declares.
pub fn declared_count(alloc: Global, text: &[u8]) -> Option<usize> {
    let forest = read(alloc, text).ok()?;
    match forest.as_slice() {
        [tree] => names_count(alloc, tree),
        _ => None,
    }
}
