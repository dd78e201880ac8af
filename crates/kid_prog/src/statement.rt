ghost use Rattle.std.specs.Prelude.{◌≡◌, ◌∷◌, ◌++◌, [], OnOk, OnErr, map};
ghost use Rattle.kid_prog.specs.StmtView.{plain_stmt};

use kid_term::{Term, Terms};
use kid_value::{Memory, Text};
use std::alloc::Global;
use std::marker::Model;

/// A statement of a search program.
#[cycle(statement)]
#[derive(Drop)]
pub enum Stmt {
    /// The name has the term's value in the rest of the list.
    Let(Text, Term),
    /// The statements, where the term is true.
    If(Term, Stmts),
    /// The statements for each member of the set in ascending order, which the name has.
    For(Text, Term, Stmts),
    /// A value that is found.
    Emit(Term),
    /// A call of the search procedure.
    Call(Terms),
}

/// Statements in a row.
#[cycle(statement)]
#[derive(Drop)]
pub struct Stmts {
    items: Vec<Stmt>,
}

impl Model for Stmts {
    ghost use Rattle.std.specs.Prelude.{List, map};
    ghost use Rattle.kid_prog.specs.PlainStmt.{PlainStmt};
    ghost use Rattle.kid_prog.specs.StmtCode.{coded_stmts, list_depth};

    ghost Value = { List PlainStmt };

    ghost coded = { coded_stmts };

    ghost use Rattle.kid_prog.specs.StmtView.{plain_stmt};

    ghost view = { λ s. map plain_stmt s.items.items };

    ghost size = { list_depth };

    ghost use Rattle.kid_prog.specs.StmtFalls.{most_le-depths};
    ghost use Rattle.std.proofs.Common.{arith};

    ghost size_decreases = { λ a h. omega (arith, most_le-depths a.items.items) };
}

impl Stmts {
    /// No statements. Takes no memory.
    pub fn new(alloc: Global) -> Stmts
        ensures { result ≡ [] }
    {
        Stmts {
            items: Vec::new(alloc),
        }
    }

    /// Adds a statement at the end.
    ///
    /// # Errors
    ///
    /// Fails where memory is wanting, and then changes nothing.
    pub fn push(&mut self, statement: Stmt) -> Result<(), Memory>
        ensures ok { OnOk result (self.new ≡ self.old ++ plain_stmt statement ∷ []) }
        ensures err { OnErr result (self.new ≡ self.old) }
    {
        self.items.push(statement)?;
        Ok(())
    }

    /// The statements in their order.
    pub fn items(&self) -> &[Stmt]
        ensures { map plain_stmt result.now ≡ self.now }
    {
        self.items.as_slice()
    }
}
