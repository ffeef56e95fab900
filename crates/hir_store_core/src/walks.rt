//! Walks over the patterns of a pattern and over the child expressions of an expression, for every closure
//! that may always be called. Each is the walk that can stop, by a closure that refuses nothing.

ghost use Rattle.std.specs.Prelude.{◌≡◌, ◌<◌, Ok, length};
ghost use Rattle.std.specs.List.{FoldsTo};
ghost use Rattle.hir_store_core.specs.PatLists.{child_pats_of, pats, bindings_in, exprs_in, child_exprs, child_exprs_without_pats};

use crate::store::ExpressionStore;
use hir_node::{BindingId, ExprId, PatId};
use std::convert::Infallible;

impl ExpressionStore {
    /// Runs the closure on each child pattern of a pattern, in order.
    pub fn walk_pats_shallow<F: FnMut(PatId)>(&self, id: PatId, f: &mut F)
        requires in_range { id < length self.now.nodes.pats }
        requires callable { F.IsAlwaysCallable f.old }
        ensures runs { FoldsTo (λ p x q. F.step p x tt q) f.old (child_pats_of self.now.nodes id) f.new }
        ensures callable { F.IsAlwaysCallable f.new }
    {
        self[id].walk_child_pats(f);
    }

    /// Runs the closure on a pattern, and then on the patterns of each of its child patterns.
    pub fn walk_pats<F: FnMut(PatId)>(&self, id: PatId, f: &mut F)
        requires in_range { id < length self.now.nodes.pats }
        requires callable { F.IsAlwaysCallable f.old }
        ensures runs { FoldsTo (λ p x q. F.step p x tt q) f.old (pats self.now.nodes id) f.new }
        ensures callable { F.IsAlwaysCallable f.new }
    {
        let _ = self.try_walk_pats(
            id,
            &mut |pat: PatId| -> Result<(), Infallible>
                requires { F.IsAlwaysCallable f.now }
                ensures { (result ≡ Ok tt) × F.step f.entry.now pat tt f.exit.now }
            {
                f(pat);
                Ok(())
            },
        );
    }

    /// Runs the closure on the binding of each pattern of a pattern that binds one, in the order of
    /// `walk_pats`.
    pub fn walk_bindings_in_pat<F: FnMut(BindingId)>(&self, id: PatId, f: &mut F)
        requires in_range { id < length self.now.nodes.pats }
        requires callable { F.IsAlwaysCallable f.old }
        ensures runs { FoldsTo (λ p x q. F.step p x tt q) f.old (bindings_in self.now.nodes id) f.new }
        ensures callable { F.IsAlwaysCallable f.new }
    {
        let _ = self.try_walk_bindings_in_pat(
            id,
            &mut |binding: BindingId| -> Result<(), Infallible>
                requires { F.IsAlwaysCallable f.now }
                ensures { (result ≡ Ok tt) × F.step f.entry.now binding tt f.exit.now }
            {
                f(binding);
                Ok(())
            },
        );
    }

    /// Runs the closure on each expression of a pattern: those visited by descending through patterns, the
    /// constants in their paths included.
    pub fn walk_exprs_in_pat<F: FnMut(ExprId)>(&self, id: PatId, f: &mut F)
        requires in_range { id < length self.now.nodes.pats }
        requires callable { F.IsAlwaysCallable f.old }
        ensures runs { FoldsTo (λ p x q. F.step p x tt q) f.old (exprs_in self.now.nodes id) f.new }
        ensures callable { F.IsAlwaysCallable f.new }
    {
        let _ = self.try_walk_exprs_in_pat(
            id,
            &mut |expr: ExprId| -> Result<(), Infallible>
                requires { F.IsAlwaysCallable f.now }
                ensures { (result ≡ Ok tt) × F.step f.entry.now expr tt f.exit.now }
            {
                f(expr);
                Ok(())
            },
        );
    }

    /// Runs the closure on each child expression of an expression, anonymous constants included; a child
    /// pattern gives its expressions.
    pub fn walk_child_exprs<F: FnMut(ExprId)>(&self, id: ExprId, f: &mut F)
        requires in_range { id < length self.now.nodes.exprs }
        requires callable { F.IsAlwaysCallable f.old }
        ensures runs { FoldsTo (λ p x q. F.step p x tt q) f.old (child_exprs self.now.nodes id) f.new }
        ensures callable { F.IsAlwaysCallable f.new }
    {
        let _ = self.try_walk_child_exprs(
            id,
            &mut |child: ExprId| -> Result<(), Infallible>
                requires { F.IsAlwaysCallable f.now }
                ensures { (result ≡ Ok tt) × F.step f.entry.now child tt f.exit.now }
            {
                f(child);
                Ok(())
            },
        );
    }

    /// Runs the closure on each child expression of an expression, anonymous constants included; a child
    /// pattern gives none.
    pub fn walk_child_exprs_without_pats<F: FnMut(ExprId)>(&self, id: ExprId, f: &mut F)
        requires in_range { id < length self.now.nodes.exprs }
        requires callable { F.IsAlwaysCallable f.old }
        ensures runs { FoldsTo (λ p x q. F.step p x tt q) f.old
            (child_exprs_without_pats self.now.nodes id) f.new }
        ensures callable { F.IsAlwaysCallable f.new }
    {
        let _ = self.try_walk_child_exprs_without_pats(
            id,
            &mut |child: ExprId| -> Result<(), Infallible>
                requires { F.IsAlwaysCallable f.now }
                ensures { (result ≡ Ok tt) × F.step f.entry.now child tt f.exit.now }
            {
                f(child);
                Ok(())
            },
        );
    }
}
