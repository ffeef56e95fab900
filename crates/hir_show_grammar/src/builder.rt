//! Where what lines make goes.

use crate::line_error::LineError;
use hir_base::{HygieneId, Name};
use hir_node::{Binding, BindingId, Expr, ExprId, ExprOrPatId, Pat, PatId, TypeRef};

/// Takes what lines make.
///
/// Each call adds one thing. `Memory` where an allocation for it failed, or an arena is full: nothing is
/// changed then. It is never `Bad`.
pub trait Builder {
    ghost use Rattle.std.specs.Prelude.{◌≡◌, Bool};
    ghost use Rattle.hir_show_grammar.specs.Makers.{Maker};
    ghost use Rattle.hir_show_grammar.specs.Makers as make;
    ghost use Rattle.hir_show_grammar.specs.LineEffects.{AddsOne};

    // Whether a self parameter was given; a name.
    ghost has_self: { Self → Bool };

    ghost has_name: { Self → Bool };

    // What is made with one thing more.
    ghost add: { Self → Maker → Self };

    /// Whether there is a self parameter: a second one is bad.
    fn has_self_param(&self) -> bool
        ensures { result ≡ has_self self.now };

    /// Whether the function has a name: a second one is bad.
    fn has_fn_name(&self) -> bool
        ensures { result ≡ has_name self.now };

    /// Adds a binding.
    fn binding(&mut self, binding: Binding) -> Result<(), LineError>
        ensures { AddsOne (add self.old (make.Binding binding)) self.old self.new result };

    /// Adds a pattern.
    fn pat(&mut self, pat: Pat) -> Result<(), LineError>
        ensures { AddsOne (add self.old (make.Pat pat)) self.old self.new result };

    /// Adds a type.
    fn type_ref(&mut self, type_ref: TypeRef) -> Result<(), LineError>
        ensures { AddsOne (add self.old (make.TypeRef type_ref)) self.old self.new result };

    /// Adds an expression.
    fn expr(&mut self, expr: Expr) -> Result<(), LineError>
        ensures { AddsOne (add self.old (make.Expr expr)) self.old self.new result };

    /// Sets the hygiene of the path that the expression or the pattern is.
    fn hygiene(&mut self, id: ExprOrPatId, hygiene: HygieneId) -> Result<(), LineError>
        ensures { AddsOne (add self.old (make.Hygiene id hygiene)) self.old self.new result };

    /// Sets the self parameter, by its binding.
    fn self_param(&mut self, id: BindingId) -> Result<(), LineError>
        ensures { AddsOne (add self.old (make.SelfParam id)) self.old self.new result };

    /// Adds a parameter, by its pattern.
    fn param(&mut self, id: PatId) -> Result<(), LineError>
        ensures { AddsOne (add self.old (make.Param id)) self.old self.new result };

    /// Sets the name of the function.
    fn fn_name(&mut self, name: Name) -> Result<(), LineError>
        ensures { AddsOne (add self.old (make.FnName name)) self.old self.new result };

    /// Begins the list of roots, where there is no list yet.
    fn roots(&mut self) -> Result<(), LineError>
        ensures { AddsOne (add self.old make.Roots) self.old self.new result };

    /// Adds a root.
    fn root(&mut self, id: ExprId) -> Result<(), LineError>
        ensures { AddsOne (add self.old (make.Root id)) self.old self.new result };
}
