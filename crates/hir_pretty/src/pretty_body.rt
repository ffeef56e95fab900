//! Methods of a body that print it.

ghost use Rattle.std.specs.Prelude.{◌<◌, false, length};
ghost use Rattle.hir_pretty_nodes.specs.Prelude.{words_of, print_env, pieces, doc_list_pieces, lookups_of, PrintsPieces};
ghost use Rattle.hir_node.specs.declared.node_id.NodeId.TheVariants as node;
ghost use Rattle.hir_body.specs.Bodies.{BodyContents};
ghost use Rattle.hir_pretty.specs.Bodies.{body_docs};
ghost use Rattle.hir_pretty.specs.FoundParts.{parents};

use crate::bodies::print_body_hir;
use crate::nodes::{print_expr_hir, print_pat_hir};
use hir_base::{DefWithBodyId, Edition, ExpressionStoreOwnerId};
use hir_defs::{Body, Tables};
use hir_node::{ExprId, PatId};
use hir_pretty_nodes::PrintFault;
use std::alloc::Global;

/// Prints a body, and its expressions and patterns.
pub trait PrettyBody {
    // the parts of the body
    ghost contents: { Self → BodyContents };

    /// The text of the body, as `print_body_hir` gives it.
    fn pretty_print(
        &self,
        alloc: Global,
        tables: &Tables,
        owner: DefWithBodyId,
        edition: Edition,
    ) -> Result<String, PrintFault>
        ensures { let b = contents self.now in
            let s = print_env b.store (lookups_of tables.now) (words_of tables.now.words edition) false in
            PrintsPieces s (doc_list_pieces s (body_docs s (parents tables.now) owner b)) result };

    /// The text of an expression of the body, as `print_expr_hir` gives it. The expression has to be in
    /// range: `has_expr` of the store tests it.
    fn pretty_print_expr(
        &self,
        alloc: Global,
        tables: &Tables,
        owner: DefWithBodyId,
        expr: ExprId,
        edition: Edition,
    ) -> Result<String, PrintFault>
        requires { expr < length (contents self.now).store.nodes.exprs }
        ensures { let s = print_env (contents self.now).store (lookups_of tables.now)
            (words_of tables.now.words edition) false in
            PrintsPieces s (pieces s (node.Expr expr)) result };

    /// The text of a pattern of the body, as `print_pat_hir` gives it. The pattern has to be in range:
    /// `has_pat` of the store tests it.
    fn pretty_print_pat(
        &self,
        alloc: Global,
        tables: &Tables,
        owner: ExpressionStoreOwnerId,
        pat: PatId,
        oneline: bool,
        edition: Edition,
    ) -> Result<String, PrintFault>
        requires { pat < length (contents self.now).store.nodes.pats }
        ensures { let s = print_env (contents self.now).store (lookups_of tables.now)
            (words_of tables.now.words edition) oneline in
            PrintsPieces s (pieces s (node.Pat pat)) result };
}

impl PrettyBody for Body {
    ghost contents = { λ b. b };

    fn pretty_print(
        &self,
        alloc: Global,
        tables: &Tables,
        owner: DefWithBodyId,
        edition: Edition,
    ) -> Result<String, PrintFault> {
        print_body_hir(alloc, tables, self, owner, edition)
    }

    fn pretty_print_expr(
        &self,
        alloc: Global,
        tables: &Tables,
        owner: DefWithBodyId,
        expr: ExprId,
        edition: Edition,
    ) -> Result<String, PrintFault> {
        print_expr_hir(alloc, tables, self.store(), owner.into(), expr, edition)
    }

    fn pretty_print_pat(
        &self,
        alloc: Global,
        tables: &Tables,
        owner: ExpressionStoreOwnerId,
        pat: PatId,
        oneline: bool,
        edition: Edition,
    ) -> Result<String, PrintFault> {
        print_pat_hir(alloc, tables, self.store(), owner, pat, oneline, edition)
    }
}
