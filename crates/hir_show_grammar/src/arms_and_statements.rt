//! The arms of a match and the statements of a block: each is one word, whose parts are separated by colons.

ghost use Rattle.hir_show_grammar.specs.ArmsAndStatements.{expr_statement, let_statement, macro_statement};
ghost use Rattle.hir_show_grammar.specs.internal.Readings.{SaysWhole};

use crate::line_error::Malformed;
use crate::words::{Word, Words};
use hir_base::MacroDefId;
use hir_node::{Item, MatchArm, Statement};

type PartsOfWord<'a> = Words<'a, b':'>;

impl Word for MatchArm {
    ghost use Rattle.hir_show_grammar.specs.ArmsAndStatements.{arm_of};

    ghost meaning = { arm_of };

    #[tactic(auto, unfolding(crate::specs::ArmsAndStatements::arm_of))]
    fn read(word: &[u8]) -> Result<MatchArm, Malformed> {
        let mut parts: PartsOfWord<'_> = Words::new(word);
        let arm = MatchArm {
            pat: parts.id()?,
            guard: parts.optional_id()?,
            expr: parts.id()?,
        };
        parts.end()?;
        Ok(arm)
    }
}

fn let_statement(parts: &mut PartsOfWord<'_>) -> Result<Statement, Malformed>
    ensures { SaysWhole let_statement parts.old result }
{
    let pat = parts.id()?;
    let type_ref = parts.optional_id()?;
    let initializer = parts.optional_id()?;
    let else_branch = parts.optional_id()?;
    parts.end()?;
    Ok(Statement::Let {
        pat,
        type_ref,
        initializer,
        else_branch,
    })
}

fn expr_statement(parts: &mut PartsOfWord<'_>, has_semi: bool) -> Result<Statement, Malformed>
    ensures { SaysWhole (expr_statement has_semi) parts.old result }
{
    let expr = parts.id()?;
    parts.end()?;
    Ok(Statement::Expr { expr, has_semi })
}

fn macro_statement(parts: &mut PartsOfWord<'_>) -> Result<Statement, Malformed>
    ensures { SaysWhole macro_statement parts.old result }
{
    let definition = MacroDefId::from_raw(parts.number()?);
    parts.end()?;
    Ok(Statement::Item(Item::MacroDef(definition)))
}

impl Word for Statement {
    ghost use Rattle.hir_show_grammar.specs.ArmsAndStatements.{statement_of};

    ghost meaning = { statement_of };

    #[tactic(auto, unfolding(crate::specs::ArmsAndStatements::statement_of))]
    fn read(word: &[u8]) -> Result<Statement, Malformed> {
        let mut parts: PartsOfWord<'_> = Words::new(word);
        if parts.skip(b"let") {
            let_statement(&mut parts)
        } else if parts.skip(b"semi") {
            expr_statement(&mut parts, true)
        } else if parts.skip(b"expr") {
            expr_statement(&mut parts, false)
        } else if parts.skip(b"macro") {
            macro_statement(&mut parts)
        } else if parts.skip(b"item") {
            parts.end()?;
            Ok(Statement::Item(Item::Other))
        } else {
            Err(Malformed)
        }
    }
}
