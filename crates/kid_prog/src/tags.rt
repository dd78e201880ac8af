//! Whether an enum sort or a tag stands in a part of a program.
ghost use Rattle.std.specs.Prelude.{◌≡◌, map};
ghost use Rattle.std.specs.List.{list_any};
ghost use Rattle.kid_value.specs.NameView.{plain_name};
ghost use Rattle.kid_term.specs.DefView.{plain_def};
ghost use Rattle.kid_term.specs.PlainTerm.{term_row};
ghost use Rattle.kid_term.specs.TermView.{plain_term};
ghost use Rattle.kid_codec.specs.NamedValues.{terms_have_tags};
ghost use Rattle.kid_prog.specs.PlainStmt.{stmt_row};
ghost use Rattle.kid_prog.specs.ProgramView.{plain_program};
ghost use Rattle.kid_prog.specs.StmtView.{plain_stmt};
ghost use Rattle.kid_prog.specs.Tags as spec;

use crate::program::Program;
use crate::statement::Stmt;
use kid_codec::{sort_has_tags, term_has_tags};
use kid_term::{Def, Term};
use kid_value::{Sort, Text};

/// Whether one of the sorts beside the names has tags.
pub fn names_have_tags(names: &[(Text, Sort)]) -> bool
    ensures { result ≡ spec.names_have_tags (map plain_name names.now) }
{
    for name in names {
        if sort_has_tags(&name.1) {
            return true;
        }
    }
    false
}

pub fn definition_has_tags(definition: &Def) -> bool
    ensures { result ≡ spec.definition_has_tags (plain_def definition.now) }
{
    names_have_tags(definition.parameters.items())
        || sort_has_tags(&definition.sort)
        || term_has_tags(&definition.body)
}

fn definitions_have_tags(definitions: &[Def]) -> bool
    ensures { result ≡ list_any spec.definition_has_tags (map plain_def definitions.now) }
{
    for definition in definitions {
        if definition_has_tags(definition) {
            return true;
        }
    }
    false
}

fn terms_have_tags(terms: &[Term]) -> bool
    ensures { result ≡ terms_have_tags (term_row (map plain_term terms.now)) }
{
    for term in terms {
        if term_has_tags(term) {
            return true;
        }
    }
    false
}

#[cycle(tags)]
fn statement_has_tags(statement: &Stmt) -> bool
    ensures { result ≡ spec.stmt_has_tags (plain_stmt statement.now) }
{
    match statement {
        Stmt::Let(_, term) => term_has_tags(term),
        Stmt::If(condition, body) => term_has_tags(condition) || statements_have_tags(body.items()),
        Stmt::For(_, set, body) => term_has_tags(set) || statements_have_tags(body.items()),
        Stmt::Emit(value) => term_has_tags(value),
        Stmt::Call(arguments) => terms_have_tags(arguments.items()),
    }
}

/// Whether one of the statements has tags.
#[cycle(tags)]
pub fn statements_have_tags(statements: &[Stmt]) -> bool
    ensures { result ≡ spec.stmts_have_tags (stmt_row (map plain_stmt statements.now)) }
{
    for statement in statements {
        if statement_has_tags(statement) {
            return true;
        }
    }
    false
}

/// Whether the parameters or the statements of a search procedure have tags.
pub fn search_has_tags(parameters: &[(Text, Sort)], statements: &[Stmt]) -> bool
    ensures { result ≡ spec.search_has_tags (map plain_name parameters.now, stmt_row (map plain_stmt statements.now)) }
{
    names_have_tags(parameters) || statements_have_tags(statements)
}

/// Whether an enum sort or a tag stands anywhere in the program.
pub fn program_has_tags(program: &Program) -> bool
    ensures { result ≡ spec.program_has_tags (plain_program program.now) }
{
    definitions_have_tags(program.signature.definitions())
        || names_have_tags(program.signature.inputs())
        || term_has_tags(&program.condition)
        || sort_has_tags(&program.sort)
        || statements_have_tags(program.main.items())
        || search_has_tags(program.parameters.items(), program.search.items())
}
