//! The ids of expressions and of patterns as keys of a `Table`.
ghost use Rattle.hir_collections.specs.Exact.{exact};
ghost use Rattle.hir_path.specs.Keys.{expr_or_pat_code, expr_or_pat_tells};

use crate::ids::ExprOrPatId;
use hir_collections::HasCode;

impl HasCode for ExprOrPatId {
    ghost code = { expr_or_pat_code };

    ghost code_tells = { λ x y. expr_or_pat_tells _ x y (Prim.search exact) };
}
