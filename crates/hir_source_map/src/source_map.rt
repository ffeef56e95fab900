//! The read-only maps of a finished store: from nodes to their sources and back, expansions and diagnostics.

ghost use Rattle.std.specs.Prelude.{◌≡◌, ◌↔◌, IsTrue, IsSome, IfSome, Some, None};
ghost use Rattle.std.specs.List.Sorted.{IsPermutation};
ghost use Rattle.std.specs.FinMap as map;
ghost use Rattle.hir_collections.specs.Exact.{exact};
ghost use Rattle.hir_collections.specs.Table.{by_codes};
ghost use Rattle.hir_source_map.specs.Sources.{source_key};
ghost use Rattle.hir_source_map.specs.ComparedPart.{same_exprs};
ghost use Rattle.hir_source_map.specs.same.SameDiagnostics.{diagnostics_decide};

use crate::diagnostics::ExpressionStoreDiagnostics;
use crate::iters::{Expansions, MacroCalls};
use crate::sources::{ExprSources, TypeSources};
use hir_base::{
    AstPtr, ExprOrPatSource, ExprPtr, ExprSource, FieldSource, InFile, LabelSource, MacroCallId,
    MacroCallPtr, PatFieldSource, PatPtr, SyntheticSyntax, TypePtr, TypeSource, ast,
};
use hir_collections::LazyBox;
use hir_path::{BindingId, ExprId, ExprOrPatId, LabelId, PatId, TypeRefId};

/// Where the nodes of a store come from. `finish` of a builder makes it.
///
/// Its expression part, which is all but the maps of types and lifetimes, may be left out: then it has no
/// entries.
///
/// `==` compares where nodes came from, expansions, diagnostics, and whether the expression part is kept;
/// the maps from sources to nodes, those of fields and the definitions of bindings aren't compared.
pub struct ExpressionStoreSourceMap {
    pub(crate) exprs: Option<LazyBox<ExprSources>>,
    pub(crate) types: LazyBox<TypeSources>,
}

/// Drops its parts one after the other. It is written out so that it is proved once, and that each drop is a
/// call.
impl Drop for ExpressionStoreSourceMap {
    fn drop(self) {
        let ExpressionStoreSourceMap { exprs, types } = self;
    }
}

impl ExpressionStoreSourceMap {
    ghost use Rattle.hir_source_map.specs.internal.NoSources.{HasNoSources};
    ghost use Rattle.hir_source_map.specs.Lookups.{expr_at, pat_at, label_at, type_at, expansion_at, expr_source, pat_source, expr_or_pat_source, label_source, type_source, field_source, pat_field_source, or_synthetic, patterns_for, expansions_of, diagnostics_of};

    /// Returns the expression part, if it is kept and has memory. Otherwise the part has no entries.
    #[tactic(auto, using(crate::proofs::NoSources::nothing_there))]
    fn exprs(&self) -> Option<&ExprSources>
        ensures part { IfSome result (λ part. self.now.exprs ≡ Some part.now) }
        ensures none { result ≡ None → HasNoSources self.now }
    {
        match &self.exprs {
            Some(exprs) => exprs.get(),
            None => None,
        }
    }

    /// Returns where the expression or the pattern came from.
    ///
    /// Returns the error `SyntheticSyntax` if there is no entry, as of a node that lowering made up.
    pub fn expr_or_pat_syntax(&self, id: ExprOrPatId) -> Result<ExprOrPatSource, SyntheticSyntax>
        ensures { result ≡ or_synthetic (expr_or_pat_source self.now id) }
    {
        match id {
            ExprOrPatId::ExprId(id) => self.expr_syntax(id),
            ExprOrPatId::PatId(id) => self.pat_syntax(id),
        }
    }

    /// Returns where the expression came from, or the error `SyntheticSyntax` if there is no entry.
    pub fn expr_syntax(&self, expr: ExprId) -> Result<ExprOrPatSource, SyntheticSyntax>
        ensures { result ≡ or_synthetic (expr_source self.now expr) }
    {
        let exprs = self.exprs().ok_or(SyntheticSyntax)?;
        let source = exprs.expr_map_back.get(&expr);
        source.copied().ok_or(SyntheticSyntax)
    }

    /// Returns where the pattern came from, or the error `SyntheticSyntax` if there is no entry.
    pub fn pat_syntax(&self, pat: PatId) -> Result<ExprOrPatSource, SyntheticSyntax>
        ensures { result ≡ or_synthetic (pat_source self.now pat) }
    {
        let exprs = self.exprs().ok_or(SyntheticSyntax)?;
        let source = exprs.pat_map_back.get(&pat);
        source.copied().ok_or(SyntheticSyntax)
    }

    /// Returns the source of the type, if it has one.
    fn type_source(&self, type_ref: TypeRefId) -> Option<TypeSource>
        ensures { result ≡ type_source self.now type_ref }
    {
        self.types.get()?.type_map_back.get(&type_ref).copied()
    }

    /// Returns where the type came from, or the error `SyntheticSyntax` if there is no entry.
    pub fn type_syntax(&self, type_ref: TypeRefId) -> Result<TypeSource, SyntheticSyntax>
        ensures { result ≡ or_synthetic (type_source self.now type_ref) }
    {
        self.type_source(type_ref).ok_or(SyntheticSyntax)
    }

    /// Returns what the expression in source became: an expression, or a pattern if it is assigned to.
    pub fn node_expr(&self, node: InFile<ExprPtr>) -> Option<ExprOrPatId>
        ensures { result ≡ expr_at self.now node }
    {
        self.exprs()?.expr_map.get(&node).copied()
    }

    /// Returns what the pattern in source became.
    pub fn node_pat(&self, node: InFile<PatPtr>) -> Option<ExprOrPatId>
        ensures { result ≡ pat_at self.now node }
    {
        self.exprs()?.pat_map.get(&node).copied()
    }

    /// Returns what the type in source became.
    pub fn node_type(&self, node: InFile<TypePtr>) -> Option<TypeRefId>
        ensures { result ≡ type_at self.now node }
    {
        self.types.get()?.type_map.get(&node).copied()
    }

    /// Returns what the label in source became.
    pub fn node_label(&self, node: InFile<AstPtr<ast::Label>>) -> Option<LabelId>
        ensures { result ≡ label_at self.now node }
    {
        let source: LabelSource = InFile {
            file_id: node.file_id,
            value: node.value.wrap_left(),
        };
        self.exprs()?.label_map.get(&source).copied()
    }

    /// Returns what the macro call in expression position became.
    pub fn macro_expansion_expr(&self, node: InFile<AstPtr<ast::MacroExpr>>) -> Option<ExprOrPatId>
        ensures { result ≡ expr_at self.now node }
    {
        let source: ExprSource = InFile {
            file_id: node.file_id,
            value: node.value.upcast(),
        };
        self.exprs()?.expr_map.get(&source).copied()
    }

    /// Returns what the macro call expanded to.
    pub fn node_macro_file(&self, node: InFile<MacroCallPtr>) -> Option<MacroCallId>
        ensures { result ≡ expansion_at self.now node }
    {
        self.exprs()?.expansions.get(&node).copied()
    }

    /// Returns what the macro call expanded to, as `node_macro_file`.
    pub fn expansion(&self, node: InFile<MacroCallPtr>) -> Option<MacroCallId>
        ensures { result ≡ expansion_at self.now node }
    {
        self.node_macro_file(node)
    }

    /// Returns all macro calls with what they expanded to, in no promised order.
    pub fn macro_calls(&self) -> MacroCalls<'_>
        ensures { IsPermutation (by_codes source_key result) (map.entries (expansions_of self.now)) }
    {
        MacroCalls::new(self.expansions())
    }

    /// Returns all macro calls with what they expanded to, as references, in no promised order.
    pub fn expansions(&self) -> Expansions<'_>
        ensures { IsPermutation (by_codes source_key result) (map.entries (expansions_of self.now)) }
    {
        match self.exprs() {
            Some(exprs) => Expansions::new(Some(exprs.expansions.iter())),
            None => Expansions::new(None),
        }
    }

    /// Returns whether the label has a source.
    pub fn has_label_syntax(&self, label: LabelId) -> bool
        ensures { IsTrue result ↔ IsSome (label_source self.now label) }
    {
        match self.exprs() {
            Some(exprs) => exprs.label_map_back.get(&label).is_some(),
            None => false,
        }
    }

    /// Returns the source of the label, which must exist: `has_label_syntax` tests that.
    pub fn label_syntax(&self, label: LabelId) -> LabelSource
        requires { IsSome (label_source self.now label) }
        ensures { Some result ≡ label_source self.now label }
    {
        let exprs = match self.exprs() {
            Some(exprs) => exprs,
            None => unreachable!(),
        };
        match exprs.label_map_back.get(&label) {
            Some(source) => *source,
            None => unreachable!(),
        }
    }

    /// Returns whether the field whose value is the expression has a source.
    pub fn has_field_syntax(&self, expr: ExprId) -> bool
        ensures { IsTrue result ↔ IsSome (field_source self.now expr) }
    {
        match self.exprs() {
            Some(exprs) => exprs.field_map_back.get(&expr).is_some(),
            None => false,
        }
    }

    /// Returns the source of the field whose value is the expression. It must exist: `has_field_syntax`
    /// tests that.
    pub fn field_syntax(&self, expr: ExprId) -> FieldSource
        requires { IsSome (field_source self.now expr) }
        ensures { Some result ≡ field_source self.now expr }
    {
        let exprs = match self.exprs() {
            Some(exprs) => exprs,
            None => unreachable!(),
        };
        match exprs.field_map_back.get(&expr) {
            Some(source) => *source,
            None => unreachable!(),
        }
    }

    /// Returns whether the field that holds the pattern has a source.
    pub fn has_pat_field_syntax(&self, pat: PatId) -> bool
        ensures { IsTrue result ↔ IsSome (pat_field_source self.now pat) }
    {
        match self.exprs() {
            Some(exprs) => exprs.pat_field_map_back.get(&pat).is_some(),
            None => false,
        }
    }

    /// Returns the source of the field that holds the pattern. It must exist: `has_pat_field_syntax` tests
    /// that.
    pub fn pat_field_syntax(&self, pat: PatId) -> PatFieldSource
        requires { IsSome (pat_field_source self.now pat) }
        ensures { Some result ≡ pat_field_source self.now pat }
    {
        let exprs = match self.exprs() {
            Some(exprs) => exprs,
            None => unreachable!(),
        };
        match exprs.pat_field_map_back.get(&pat) {
            Some(source) => *source,
            None => unreachable!(),
        }
    }

    /// Returns the patterns that define the binding, in the order in which they were added: none if the
    /// expression part isn't kept.
    pub fn patterns_for_binding(&self, binding: BindingId) -> &[PatId]
        ensures { result.now ≡ patterns_for self.now binding }
    {
        let exprs = match self.exprs() {
            Some(exprs) => exprs,
            None => return &[],
        };
        match exprs.definitions.get(&binding) {
            Some(patterns) => patterns.as_slice(),
            None => &[],
        }
    }

    /// Returns the diagnostics, in the order in which they were pushed.
    pub fn diagnostics(&self) -> &[ExpressionStoreDiagnostics]
        ensures { result.now ≡ diagnostics_of self.now }
    {
        match self.exprs() {
            Some(exprs) => exprs.diagnostics.as_slice(),
            None => &[],
        }
    }
}

/// Returns whether the compared parts of two expression parts are equal.
fn same_exprs(x: &ExprSources, y: &ExprSources) -> bool
    ensures { result ≡ same_exprs ⟦<ExprOrPatSource as PartialEq>⟧.eq ⟦<MacroCallId as PartialEq>⟧.eq
        ⟦<ExpressionStoreDiagnostics as PartialEq>⟧.eq x.now y.now }
{
    x.expr_map_back == y.expr_map_back
        && x.pat_map_back == y.pat_map_back
        && x.label_map_back == y.label_map_back
        && x.expansions == y.expansions
        && x.diagnostics == y.diagnostics
}

/// Source maps are equal if their compared parts are: whether the expression part is kept, where
/// expressions, patterns, labels, types and lifetimes came from, the expansions and the diagnostics. The
/// maps from sources to nodes follow from these, and may differ.
impl PartialEq for ExpressionStoreSourceMap {
    ghost use Rattle.hir_source_map.specs.ComparedPart.{same_compared};
    ghost use Rattle.hir_source_map.specs.same.SameComparedPart.{compared_per};

    ghost eq = { same_compared ⟦<ExprOrPatSource as PartialEq>⟧.eq ⟦<MacroCallId as PartialEq>⟧.eq
        ⟦<ExpressionStoreDiagnostics as PartialEq>⟧.eq };

    ghost laws = { compared_per (Prim.search exact) (Prim.search exact) diagnostics_decide };

    fn eq(&self, other: &ExpressionStoreSourceMap) -> bool {
        let same = match (&self.exprs, &other.exprs) {
            (Some(mine), Some(theirs)) => {
                let empty_value = mine.empty_value();
                same_exprs(mine.or_empty(&empty_value), theirs.or_empty(&empty_value))
            }
            (None, None) => true,
            (Some(_), None) | (None, Some(_)) => false,
        };
        let empty_value = self.types.empty_value();
        let types = self.types.or_empty(&empty_value);
        let others = other.types.or_empty(&empty_value);
        same && types.type_map_back == others.type_map_back
            && types.lifetime_map_back == others.lifetime_map_back
    }
}

impl Eq for ExpressionStoreSourceMap {
    ghost use Rattle.hir_source_map.specs.same.SameComparedPart.{compared_equiv};

    ghost laws = { compared_equiv (Prim.search exact) (Prim.search exact) diagnostics_decide };
}
