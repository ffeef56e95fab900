//! Visitors of nodes, and the calls that parts of nodes make to them.
#![tactic(auto, using(crate::proofs::RunLemmas::runs))]

ghost use Rattle.std.specs.Prelude.{◌≡◌, List};
ghost use Rattle.std.specs.List.{flat_map};
ghost use Rattle.hir_node.specs.ChildCalls.{Call, OnExpr, OnAnonConst, OnPat, OnType, OnLifetime, e, p, t, l, opt, use_calls, bound_calls, arg_calls, args_calls, binding_calls, path_calls, normal_path_calls};
ghost use Rattle.hir_node.specs.Runs.{Runs, MayRun};

use crate::visit::visit_each;
use hir_path::{
    AssociatedTypeBinding, ExprId, GenericArg, GenericArgs, LifetimeRefId, NormalPath, PatId, Path,
    TypeBound, TypeRefId, UseArgRef,
};

/// A visitor, which is called with each child of a node.
///
/// An implementation states by `step` how each call changes it, and by `may` when a call may be made: by
/// default always.
pub trait StoreVisitor {
    // the condition on the value before a call
    ghost may: { Self → Call → Type 0 } = { λ _ _. Unit {0} };

    // relates the value before a call, the call, and the value after it
    ghost step: { Self → Call → Self → Type 0 };

    /// Is called with each expression.
    fn on_expr(&mut self, expr: ExprId)
        requires { may self.old (OnExpr expr) }
        ensures { step self.old (OnExpr expr) self.new };

    /// Is called with each anonymous constant: an expression that sees no local variables.
    fn on_anon_const_expr(&mut self, expr: ExprId)
        requires { may self.old (OnAnonConst expr) }
        ensures { step self.old (OnAnonConst expr) self.new };

    /// Is called with each pattern.
    fn on_pat(&mut self, pat: PatId)
        requires { may self.old (OnPat pat) }
        ensures { step self.old (OnPat pat) self.new };

    /// Is called with each type.
    fn on_type(&mut self, type_ref: TypeRefId)
        requires { may self.old (OnType type_ref) }
        ensures { step self.old (OnType type_ref) self.new };

    /// Is called with each lifetime.
    fn on_lifetime(&mut self, lifetime: LifetimeRefId)
        requires { may self.old (OnLifetime lifetime) }
        ensures { step self.old (OnLifetime lifetime) self.new };
}

impl<V: StoreVisitor> StoreVisitor for &mut V {
    ghost may = { λ v c. V.may v.now c };

    ghost step = { λ v c w. V.step v.now c w.now × (w.ghost_name ≡ v.ghost_name) };

    fn on_expr(&mut self, expr: ExprId) {
        (**self).on_expr(expr);
    }

    fn on_anon_const_expr(&mut self, expr: ExprId) {
        (**self).on_anon_const_expr(expr);
    }

    fn on_pat(&mut self, pat: PatId) {
        (**self).on_pat(pat);
    }

    fn on_type(&mut self, type_ref: TypeRefId) {
        (**self).on_type(type_ref);
    }

    fn on_lifetime(&mut self, lifetime: LifetimeRefId) {
        (**self).on_lifetime(lifetime);
    }
}

/// The other calls that every visitor has: with parts that may be absent, lists, bounds, generic arguments
/// and paths.
/// Each runs the child calls of its argument, in order.
pub trait StoreVisitorExt: StoreVisitor {
    /// Visits a bound: the type that is its path, or its lifetimes.
    fn on_type_bound(&mut self, bound: &TypeBound)
        requires { MayRun Self.may Self.step self.old (bound_calls bound.now) }
        ensures { Runs Self.step self.old (bound_calls bound.now) self.new }
    {
        match bound {
            TypeBound::Path(path, _) => self.on_type(path.type_ref()),
            TypeBound::ForLifetime(_, path) => self.on_type(path.type_ref()),
            TypeBound::Lifetime(lifetime) => self.on_lifetime(*lifetime),
            TypeBound::Use(args) => visit_each(self, args.as_slice()),
            TypeBound::Error => {}
        }
    }

    /// Visits a path: the generic arguments of its segments, then its anchor.
    fn on_path(&mut self, path: &Path)
        requires { MayRun Self.may Self.step self.old (path_calls path.now) }
        ensures { Runs Self.step self.old (path_calls path.now) self.new }
    {
        match path {
            Path::BarePath(_) | Path::LangItem(_, _) => {}
            Path::Normal(path) => visit_normal_path(self, path.get()),
        }
    }

    /// Visits the expression, if it is present.
    fn on_expr_opt(&mut self, expr: Option<ExprId>)
        requires { MayRun Self.may Self.step self.old (opt e expr) }
        ensures { Runs Self.step self.old (opt e expr) self.new }
    {
        if let Some(expr) = expr {
            self.on_expr(expr);
        }
    }

    /// Visits the pattern, if it is present.
    fn on_pat_opt(&mut self, pat: Option<PatId>)
        requires { MayRun Self.may Self.step self.old (opt p pat) }
        ensures { Runs Self.step self.old (opt p pat) self.new }
    {
        if let Some(pat) = pat {
            self.on_pat(pat);
        }
    }

    /// Visits the type, if it is present.
    fn on_type_opt(&mut self, type_ref: Option<TypeRefId>)
        requires { MayRun Self.may Self.step self.old (opt t type_ref) }
        ensures { Runs Self.step self.old (opt t type_ref) self.new }
    {
        if let Some(type_ref) = type_ref {
            self.on_type(type_ref);
        }
    }

    /// Visits the lifetime, if it is present.
    fn on_lifetime_opt(&mut self, lifetime: Option<LifetimeRefId>)
        requires { MayRun Self.may Self.step self.old (opt l lifetime) }
        ensures { Runs Self.step self.old (opt l lifetime) self.new }
    {
        if let Some(lifetime) = lifetime {
            self.on_lifetime(lifetime);
        }
    }

    /// Visits the generic arguments, if they are present.
    fn on_generic_args_opt(&mut self, args: Option<&GenericArgs>)
        requires { MayRun Self.may Self.step self.old (opt (λ a. args_calls a.now) args) }
        ensures { Runs Self.step self.old (opt (λ a. args_calls a.now) args.entry) self.new }
    {
        if let Some(args) = args {
            self.on_generic_args(args);
        }
    }

    /// Visits generic arguments, as `visit_generic_args` does.
    fn on_generic_args(&mut self, args: &GenericArgs)
        requires { MayRun Self.may Self.step self.old (args_calls args.now) }
        ensures { Runs Self.step self.old (args_calls args.now) self.new }
    {
        visit_generic_args(self, args);
    }

    /// Visits each expression.
    fn on_exprs(&mut self, exprs: &[ExprId])
        requires { MayRun Self.may Self.step self.old (flat_map e exprs.now) }
        ensures { Runs Self.step self.old (flat_map e exprs.now) self.new }
    {
        visit_each(self, exprs);
    }

    /// Visits each pattern.
    fn on_pats(&mut self, pats: &[PatId])
        requires { MayRun Self.may Self.step self.old (flat_map p pats.now) }
        ensures { Runs Self.step self.old (flat_map p pats.now) self.new }
    {
        visit_each(self, pats);
    }

    /// Visits each type.
    fn on_types(&mut self, types: &[TypeRefId])
        requires { MayRun Self.may Self.step self.old (flat_map t types.now) }
        ensures { Runs Self.step self.old (flat_map t types.now) self.new }
    {
        visit_each(self, types);
    }

    /// Visits each bound.
    fn on_type_bounds(&mut self, bounds: &[TypeBound])
        requires { MayRun Self.may Self.step self.old (flat_map bound_calls bounds.now) }
        ensures { Runs Self.step self.old (flat_map bound_calls bounds.now) self.new }
    {
        visit_each(self, bounds);
    }
}

impl<V: StoreVisitor> StoreVisitorExt for V {}

/// Visits one entry of a bound `use<..>`: a lifetime is one call, a name none.
pub(crate) fn visit_use_arg<V: StoreVisitor>(visitor: &mut V, arg: &UseArgRef)
    requires { MayRun V.may V.step visitor.old (use_calls arg.now) }
    ensures { Runs V.step visitor.old (use_calls arg.now) visitor.new }
{
    match arg {
        UseArgRef::Name(_) => {}
        UseArgRef::Lifetime(lifetime) => visitor.on_lifetime(*lifetime),
    }
}

/// Visits one generic argument.
pub(crate) fn visit_generic_arg<V: StoreVisitor>(visitor: &mut V, arg: &GenericArg)
    requires { MayRun V.may V.step visitor.old (arg_calls arg.now) }
    ensures { Runs V.step visitor.old (arg_calls arg.now) visitor.new }
{
    match arg {
        GenericArg::Ty(type_ref) => visitor.on_type(*type_ref),
        GenericArg::Lifetime(lifetime) => visitor.on_lifetime(*lifetime),
        GenericArg::Const(len) => visitor.on_anon_const_expr(len.expr),
    }
}

/// Calls the visitor with each argument, and then for each associated type binding with its own generic
/// arguments, its type and its bounds.
///
/// It recurses as deep as bindings are nested in the arguments of bindings, `A<B<C = ..> = ..>`. A type that
/// an argument, a binding or a bound names is one call `on_type`, and the visit doesn't enter it.
#[cycle(visit_generic_args)]
pub fn visit_generic_args<V: StoreVisitor>(visitor: &mut V, args: &GenericArgs)
    requires { MayRun V.may V.step visitor.old (args_calls args.now) }
    ensures { Runs V.step visitor.old (args_calls args.now) visitor.new }
{
    let bindings = args.bindings.as_slice();
    visit_each(visitor, args.args.as_slice());
    visit_bindings(visitor, bindings);
}

#[cycle(visit_generic_args)]
fn visit_bindings<V: StoreVisitor>(visitor: &mut V, bindings: &[AssociatedTypeBinding])
    requires { MayRun V.may V.step visitor.old (flat_map binding_calls bindings.now) }
    ensures { Runs V.step visitor.old (flat_map binding_calls bindings.now) visitor.new }
{
    for binding in bindings {
        visit_binding(visitor, binding);
    }
}

#[cycle(visit_generic_args)]
fn visit_binding<V: StoreVisitor>(visitor: &mut V, binding: &AssociatedTypeBinding)
    requires { MayRun V.may V.step visitor.old (binding_calls binding.now) }
    ensures { Runs V.step visitor.old (binding_calls binding.now) visitor.new }
{
    visit_args_opt(visitor, &binding.args);
    visitor.on_type_opt(binding.type_ref);
    visitor.on_type_bounds(binding.bounds.as_slice());
}

#[cycle(visit_generic_args)]
pub(crate) fn visit_args_opt<V: StoreVisitor>(visitor: &mut V, args: &Option<GenericArgs>)
    requires { MayRun V.may V.step visitor.old (opt args_calls args.now) }
    ensures { Runs V.step visitor.old (opt args_calls args.now) visitor.new }
{
    if let Some(args) = args {
        visit_generic_args(visitor, args);
    }
}

/// Visits the generic arguments of each segment, then the anchor.
fn visit_normal_path<V: StoreVisitor>(visitor: &mut V, path: &NormalPath)
    requires { MayRun V.may V.step visitor.old (normal_path_calls path.now) }
    ensures { Runs V.step visitor.old (normal_path_calls path.now) visitor.new }
{
    visit_each(visitor, path.generic_args.as_slice());
    visitor.on_type_opt(path.type_anchor);
}
