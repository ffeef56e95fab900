//! Diagnostics of lowering, as the line after `diagnostic` has them: the kind, the source, and what the kind
//! has.

use crate::forms::{Quoted, Read, Write, next, next_quoted};
use crate::sources::syntax;
use hir_source_map::{ExpressionStoreDiagnostics, MissingBodyItemKind};
use hir_text_words::{Answer, TextError, Words};
use std::alloc::AllocError;

impl Read for MissingBodyItemKind {
    fn read(words: &mut Words<'_>) -> Result<MissingBodyItemKind, TextError> {
        match words.keyword() {
            "AssocConst" => Ok(MissingBodyItemKind::AssocConst),
            "AssocType" => Ok(MissingBodyItemKind::AssocType),
            "Const" => Ok(MissingBodyItemKind::Const),
            "Static" => Ok(MissingBodyItemKind::Static),
            "TypeAlias" => Ok(MissingBodyItemKind::TypeAlias),
            _ => Err(TextError::Syntax),
        }
    }
}

impl Write for MissingBodyItemKind {
    fn write(&self, answer: &mut Answer) -> Result<(), AllocError> {
        answer.join(match self {
            MissingBodyItemKind::AssocConst => "AssocConst",
            MissingBodyItemKind::AssocType => "AssocType",
            MissingBodyItemKind::Const => "Const",
            MissingBodyItemKind::Static => "Static",
            MissingBodyItemKind::TypeAlias => "TypeAlias",
        })
    }
}

impl Read for ExpressionStoreDiagnostics {
    fn read(words: &mut Words<'_>) -> Result<ExpressionStoreDiagnostics, TextError> {
        Ok(match words.keyword() {
            "InactiveCode" => ExpressionStoreDiagnostics::InactiveCode {
                node: next(words)?,
                cfg: next_quoted(words)?,
                opts: next_quoted(words)?,
            },
            "UnresolvedMacroCall" => ExpressionStoreDiagnostics::UnresolvedMacroCall {
                node: next(words)?,
                path: next(words)?,
            },
            "UnreachableLabel" => ExpressionStoreDiagnostics::UnreachableLabel {
                node: next(words)?,
                name: next(words)?,
            },
            "AwaitOutsideOfAsync" => ExpressionStoreDiagnostics::AwaitOutsideOfAsync {
                node: next(words)?,
                location: next_quoted(words)?,
            },
            "UndeclaredLabel" => ExpressionStoreDiagnostics::UndeclaredLabel {
                node: next(words)?,
                name: next(words)?,
            },
            "PatternArgInExternFn" => ExpressionStoreDiagnostics::PatternArgInExternFn {
                node: next(words)?,
            },
            "FruInDestructuringAssignment" => {
                let node = next(words)?;
                ExpressionStoreDiagnostics::FruInDestructuringAssignment { node }
            }
            "MissingBody" => ExpressionStoreDiagnostics::MissingBody {
                node: next(words)?,
                kind: next(words)?,
            },
            _ => return Err(TextError::Syntax),
        })
    }
}

/// The words after `diagnostic`.
impl Write for ExpressionStoreDiagnostics {
    fn write(&self, answer: &mut Answer) -> Result<(), AllocError> {
        match self {
            ExpressionStoreDiagnostics::InactiveCode { node, cfg, opts } => {
                let (cfg, opts) = (Quoted(cfg.as_str()), Quoted(opts.as_str()));
                ("InactiveCode", node, cfg, opts).write(answer)
            }
            ExpressionStoreDiagnostics::UnresolvedMacroCall { node, path } => {
                ("UnresolvedMacroCall", syntax(*node), path).write(answer)
            }
            ExpressionStoreDiagnostics::UnreachableLabel { node, name } => {
                ("UnreachableLabel", syntax(*node), name).write(answer)
            }
            ExpressionStoreDiagnostics::AwaitOutsideOfAsync { node, location } => {
                let location = Quoted(location.as_str());
                ("AwaitOutsideOfAsync", syntax(*node), location).write(answer)
            }
            ExpressionStoreDiagnostics::UndeclaredLabel { node, name } => {
                ("UndeclaredLabel", syntax(*node), name).write(answer)
            }
            ExpressionStoreDiagnostics::PatternArgInExternFn { node } => {
                ("PatternArgInExternFn", syntax(*node)).write(answer)
            }
            ExpressionStoreDiagnostics::FruInDestructuringAssignment { node } => {
                ("FruInDestructuringAssignment", syntax(*node)).write(answer)
            }
            ExpressionStoreDiagnostics::MissingBody { node, kind } => {
                ("MissingBody", node, kind).write(answer)
            }
        }
    }
}
