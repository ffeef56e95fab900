//! The first id that a node of a builder names and that doesn't exist: what the text of an error says beyond
//! the fault of the builder.

ghost use Rattle.std.specs.Prelude.{◌≡◌, [], ◌∷◌, map, slice_get};
ghost use Rattle.std.specs.Option.{option_to_list};
ghost use Rattle.hir_node.specs.OtherIds.{expr_labels, pat_bindings};
ghost use Rattle.hir_validate.specs.Nodes.{sizes_of};
ghost use Rattle.hir_validate.specs.TestedParts.{all_of};
ghost use Rattle.hir_store.specs.Building.{nodes_of};
ghost use Rattle.hir_error.specs.declared.named_id.NamedId.TheVariants as named;
ghost use Rattle.hir_error.specs.NamedIds.{exists, ids_of_expr, ids_of_pat, ids_of_type, first_out_of_range, missing_id};
ghost use Rattle.hir_error.specs.internal.Finding.{Finds, FindsAmong};

use crate::NamedId;
use hir_node::{
    BindingId, Expr, ExprId, LabelId, LifetimeRefId, NodeId, Pat, PatId, StoreVisitor, TypeRef,
    TypeRefId,
};
use hir_store::ExpressionStoreBuilder;
use hir_validate::Sizes;

/// The first id that it was called with and that doesn't exist in arenas of these sizes.
#[derive(Drop)]
struct FirstMissing {
    sizes: Sizes,
    found: Option<NamedId>,
}

impl StoreVisitor for FirstMissing {
    ghost step = { Finds };

    fn on_expr(&mut self, id: ExprId) {
        self.note(NamedId::Expr(id));
    }

    fn on_anon_const_expr(&mut self, id: ExprId) {
        self.note(NamedId::Expr(id));
    }

    fn on_pat(&mut self, id: PatId) {
        self.note(NamedId::Pat(id));
    }

    fn on_type(&mut self, id: TypeRefId) {
        self.note(NamedId::TypeRef(id));
    }

    fn on_lifetime(&mut self, id: LifetimeRefId) {
        self.note(NamedId::Lifetime(id));
    }
}

impl FirstMissing {
    /// Keeps the id, where it doesn't exist and none was kept before.
    fn note(&mut self, id: NamedId)
        ensures { FindsAmong self.old (id ∷ []) self.new }
    {
        match self.found {
            Some(_) => {}
            None => {
                if !exists(self.sizes, &id) {
                    self.found = Some(id);
                }
            }
        }
    }

    /// Visits the label, if there is one.
    #[tactic(auto, using(crate::proofs::FindingLemmas::found_none))]
    fn note_label(&mut self, label: Option<LabelId>)
        ensures { FindsAmong self.old (map named.Label (option_to_list label)) self.new }
    {
        if let Some(label) = label {
            self.note(NamedId::Label(label));
        }
    }

    /// Visits the binding, if there is one.
    #[tactic(auto, using(crate::proofs::FindingLemmas::found_none))]
    fn note_binding(&mut self, binding: Option<BindingId>)
        ensures { FindsAmong self.old (map named.Binding (option_to_list binding)) self.new }
    {
        if let Some(binding) = binding {
            self.note(NamedId::Binding(binding));
        }
    }
}

/// Whether the arena of the id has it.
fn exists(sizes: Sizes, id: &NamedId) -> bool
    ensures { result ≡ exists sizes id.now }
{
    match *id {
        NamedId::Expr(id) => (id.into_raw() as usize) < sizes.exprs,
        NamedId::Pat(id) => (id.into_raw() as usize) < sizes.pats,
        NamedId::TypeRef(id) => (id.into_raw() as usize) < sizes.types,
        NamedId::Lifetime(id) => (id.into_raw() as usize) < sizes.lifetimes,
        NamedId::Binding(id) => (id.into_raw() as usize) < sizes.bindings,
        NamedId::Label(id) => (id.into_raw() as usize) < sizes.labels,
    }
}

/// The first id that the expression names and that doesn't exist: of those of its children, then its label.
fn missing_of_expr(expr: &Expr, sizes: Sizes) -> Option<NamedId>
    ensures { result ≡ first_out_of_range sizes (ids_of_expr expr.now) }
{
    let mut ids = FirstMissing { sizes, found: None };
    expr.visit_children(&mut ids);
    ids.note_label(label_of(expr));
    ids.found
}

/// The first id that the pattern names and that doesn't exist: of those of its children, then its binding.
fn missing_of_pat(pat: &Pat, sizes: Sizes) -> Option<NamedId>
    ensures { result ≡ first_out_of_range sizes (ids_of_pat pat.now) }
{
    let mut ids = FirstMissing { sizes, found: None };
    pat.visit_children(&mut ids);
    ids.note_binding(binding_of(pat));
    ids.found
}

/// The first id that the type names and that doesn't exist, which is that of a child.
fn missing_of_type(type_ref: &TypeRef, sizes: Sizes) -> Option<NamedId>
    ensures { result ≡ first_out_of_range sizes (ids_of_type type_ref.now) }
{
    let mut ids = FirstMissing { sizes, found: None };
    type_ref.visit_children(&mut ids);
    ids.found
}

/// The first id that the expression with this id names and that doesn't exist; none where there is no such
/// expression.
fn missing_at_expr(exprs: &[Expr], id: ExprId, sizes: Sizes) -> Option<NamedId>
    ensures { result ≡ first_out_of_range sizes (all_of ids_of_expr (slice_get exprs.now id)) }
{
    match exprs.get(id.into_raw() as usize) {
        Some(expr) => missing_of_expr(expr, sizes),
        None => None,
    }
}

/// The first id that the pattern with this id names and that doesn't exist; none where there is no such
/// pattern.
fn missing_at_pat(pats: &[Pat], id: PatId, sizes: Sizes) -> Option<NamedId>
    ensures { result ≡ first_out_of_range sizes (all_of ids_of_pat (slice_get pats.now id)) }
{
    match pats.get(id.into_raw() as usize) {
        Some(pat) => missing_of_pat(pat, sizes),
        None => None,
    }
}

/// The first id that the type with this id names and that doesn't exist; none where there is no such type.
fn missing_at_type(types: &[TypeRef], id: TypeRefId, sizes: Sizes) -> Option<NamedId>
    ensures { result ≡ first_out_of_range sizes (all_of ids_of_type (slice_get types.now id)) }
{
    match types.get(id.into_raw() as usize) {
        Some(type_ref) => missing_of_type(type_ref, sizes),
        None => None,
    }
}

/// How many items each arena of the builder has.
fn sizes_of(builder: &ExpressionStoreBuilder) -> Sizes
    ensures { result ≡ sizes_of (nodes_of builder.now) }
{
    Sizes {
        exprs: builder.exprs.len(),
        pats: builder.pats.len(),
        types: builder.types.len(),
        bindings: builder.bindings.len(),
        labels: builder.labels.len(),
        lifetimes: builder.lifetimes.len(),
    }
}

/// The first id that the node names and that doesn't exist in the builder. `None` where all exist, or the
/// node itself doesn't.
pub(crate) fn missing_id(builder: &ExpressionStoreBuilder, node: &NodeId) -> Option<NamedId>
    ensures { result ≡ missing_id (nodes_of builder.now) node.now }
{
    let sizes = sizes_of(builder);
    match *node {
        NodeId::Expr(id) => missing_at_expr(builder.exprs.as_slice(), id, sizes),
        NodeId::Pat(id) => missing_at_pat(builder.pats.as_slice(), id, sizes),
        NodeId::TypeRef(id) => missing_at_type(builder.types.as_slice(), id, sizes),
    }
}

/// The label that the expression names. The match names each field, so that a new one is a compile error.
fn label_of(expr: &Expr) -> Option<LabelId>
    ensures { option_to_list result ≡ expr_labels expr.now }
{
    match expr {
        Expr::Block {
            id: _,
            statements: _,
            tail: _,
            label,
            unsafe_: _,
        }
        | Expr::Loop {
            body: _,
            label,
            source: _,
        }
        | Expr::Continue { label }
        | Expr::Break { expr: _, label } => *label,
        Expr::Missing
        | Expr::Underscore
        | Expr::IncludeBytes
        | Expr::Path(_)
        | Expr::Literal(_)
        | Expr::Array(_)
        | Expr::OffsetOf(_)
        | Expr::Const(_)
        | Expr::If {
            condition: _,
            then_branch: _,
            else_branch: _,
        }
        | Expr::Let { pat: _, expr: _ }
        | Expr::Call { callee: _, args: _ }
        | Expr::MethodCall {
            receiver: _,
            method_name: _,
            args: _,
            generic_args: _,
        }
        | Expr::Match { expr: _, arms: _ }
        | Expr::Return { expr: _ }
        | Expr::Yield { expr: _ }
        | Expr::Yeet { expr: _ }
        | Expr::Become { expr: _ }
        | Expr::Await { expr: _ }
        | Expr::RecordLit {
            path: _,
            fields: _,
            spread: _,
        }
        | Expr::Field { expr: _, name: _ }
        | Expr::Cast {
            expr: _,
            type_ref: _,
        }
        | Expr::Ref {
            expr: _,
            rawness: _,
            mutability: _,
        }
        | Expr::UnaryOp { expr: _, op: _ }
        | Expr::BinaryOp {
            lhs: _,
            rhs: _,
            op: _,
        }
        | Expr::Assignment {
            target: _,
            value: _,
        }
        | Expr::Index { base: _, index: _ }
        | Expr::Closure {
            args: _,
            arg_types: _,
            ret_type: _,
            body: _,
            closure_kind: _,
            capture_by: _,
        }
        | Expr::Tuple { exprs: _ } => None,
    }
}

/// The binding that the pattern names. The match names each field, so that a new one is a compile error.
fn binding_of(pat: &Pat) -> Option<BindingId>
    ensures { option_to_list result ≡ pat_bindings pat.now }
{
    match pat {
        Pat::Bind { id, subpat: _ } => Some(*id),
        Pat::Missing
        | Pat::Rest
        | Pat::Wild
        | Pat::NotNull
        | Pat::Tuple {
            args: _,
            ellipsis: _,
        }
        | Pat::Or(_)
        | Pat::Record {
            path: _,
            args: _,
            ellipsis: _,
        }
        | Pat::Range {
            start: _,
            end: _,
            range_type: _,
        }
        | Pat::Slice {
            prefix: _,
            slice: _,
            suffix: _,
        }
        | Pat::Path(_)
        | Pat::Lit(_)
        | Pat::Expr(_)
        | Pat::TupleStruct {
            path: _,
            args: _,
            ellipsis: _,
        }
        | Pat::Ref {
            pat: _,
            mutability: _,
        }
        | Pat::Box { inner: _ }
        | Pat::Deref { inner: _ } => None,
    }
}
