//! Root search: which root an expression, a pattern or a binding was made for.

ghost use Rattle.std.specs.Prelude.{◌≡◌, ◌↔◌, ◌-◌, ◌≤◌, IsTrue, IsSome, Some, length};
ghost use Rattle.hir_store_core.specs.RootSearch.{root_for, root_for_expr, root_for_pat, root_for_binding, AtMostDigitsOf};

use crate::root_search::{EndOf, first_root};
use crate::store::ExpressionStore;
use hir_base::Steps;
use hir_node::{BindingId, ExprId, PatId};

impl ExpressionStore {
    /// Returns the first root whose end of this kind exceeds the id.
    fn root_for(&self, kind: EndOf, id: u32, steps: &mut Steps) -> Option<ExprId>
        ensures found { result ≡ root_for kind self.now.roots id }
        ensures counted { steps.old ≤ steps.new }
        ensures steps { AtMostDigitsOf (length self.now.roots) (steps.new - steps.old) }
    {
        self.has_no_fault();
        first_root(kind, self.roots(), id, steps)
    }

    /// Returns whether a root for the expression exists: one that was listed after the expression was made.
    pub fn covers_expr(&self, id: ExprId) -> bool
        ensures { IsTrue result ↔ IsSome (root_for_expr self.now.roots id) }
    {
        let mut steps = Steps::new();
        self.root_for(EndOf::Exprs, id.into_raw(), &mut steps)
            .is_some()
    }

    /// Returns whether a root for the pattern exists.
    pub fn covers_pat(&self, id: PatId) -> bool
        ensures { IsTrue result ↔ IsSome (root_for_pat self.now.roots id) }
    {
        let mut steps = Steps::new();
        self.root_for(EndOf::Pats, id.into_raw(), &mut steps)
            .is_some()
    }

    /// Returns whether a root for the binding exists.
    pub fn covers_binding(&self, id: BindingId) -> bool
        ensures { IsTrue result ↔ IsSome (root_for_binding self.now.roots id) }
    {
        let mut steps = Steps::new();
        self.root_for(EndOf::Bindings, id.into_raw(), &mut steps)
            .is_some()
    }

    /// Returns the root that the expression was made for: the first that was listed after the expression was
    /// made. It has to exist, as `covers_expr` tests. The call reads as few ends of roots as
    /// `find_root_for_expr_counted` says.
    pub fn find_root_for_expr(&self, id: ExprId) -> ExprId
        requires { IsSome (root_for_expr self.now.roots id) }
        ensures { Some result ≡ root_for_expr self.now.roots id }
    {
        let mut steps = Steps::new();
        self.find_root_for_expr_counted(id, &mut steps)
    }

    /// Returns the root that the pattern was made for, as for an expression. It has to exist, as `covers_pat`
    /// tests.
    pub fn find_root_for_pat(&self, id: PatId) -> ExprId
        requires { IsSome (root_for_pat self.now.roots id) }
        ensures { Some result ≡ root_for_pat self.now.roots id }
    {
        let mut steps = Steps::new();
        self.find_root_for_pat_counted(id, &mut steps)
    }

    /// Returns the root that the binding was made for, as for an expression. It has to exist, as
    /// `covers_binding` tests.
    pub fn find_root_for_binding(&self, id: BindingId) -> ExprId
        requires { IsSome (root_for_binding self.now.roots id) }
        ensures { Some result ≡ root_for_binding self.now.roots id }
    {
        let mut steps = Steps::new();
        self.find_root_for_binding_counted(id, &mut steps)
    }

    /// Returns the root that the expression was made for, as `find_root_for_expr` finds it. The count rises
    /// by one for each end of a root that is read: by at most as many as the number of roots has binary
    /// digits.
    pub fn find_root_for_expr_counted(&self, id: ExprId, steps: &mut Steps) -> ExprId
        requires { IsSome (root_for_expr self.now.roots id) }
        ensures found { Some result ≡ root_for_expr self.now.roots id }
        ensures counted { steps.old ≤ steps.new }
        ensures steps { AtMostDigitsOf (length self.now.roots) (steps.new - steps.old) }
    {
        match self.root_for(EndOf::Exprs, id.into_raw(), steps) {
            Some(root) => root,
            None => unreachable!(),
        }
    }

    /// Returns the root that the pattern was made for, with a count as for an expression.
    pub fn find_root_for_pat_counted(&self, id: PatId, steps: &mut Steps) -> ExprId
        requires { IsSome (root_for_pat self.now.roots id) }
        ensures found { Some result ≡ root_for_pat self.now.roots id }
        ensures counted { steps.old ≤ steps.new }
        ensures steps { AtMostDigitsOf (length self.now.roots) (steps.new - steps.old) }
    {
        match self.root_for(EndOf::Pats, id.into_raw(), steps) {
            Some(root) => root,
            None => unreachable!(),
        }
    }

    /// Returns the root that the binding was made for, with a count as for an expression.
    pub fn find_root_for_binding_counted(&self, id: BindingId, steps: &mut Steps) -> ExprId
        requires { IsSome (root_for_binding self.now.roots id) }
        ensures found { Some result ≡ root_for_binding self.now.roots id }
        ensures counted { steps.old ≤ steps.new }
        ensures steps { AtMostDigitsOf (length self.now.roots) (steps.new - steps.old) }
    {
        match self.root_for(EndOf::Bindings, id.into_raw(), steps) {
            Some(root) => root,
            None => unreachable!(),
        }
    }
}
