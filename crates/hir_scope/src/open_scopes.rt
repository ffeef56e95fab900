//! The scopes that a walk opens.

ghost use Rattle.std.specs.Prelude.{◌≡◌, ◌<◌, [], ◌∷◌, ◌++◌, length, map, Err, IfOk, OnOk};
ghost use Rattle.hir_node.specs.declared.node_id.NodeId.TheVariants as node;
ghost use Rattle.hir_node.specs.ChildCalls.{children};
ghost use Rattle.hir_scope.specs.ScopingForms.{form_model};
ghost use Rattle.hir_scope.specs.Order.{met_in_form};
ghost use Rattle.hir_scope.specs.Frames.{frame_with, of_kind};
ghost use Rattle.hir_scope.specs.Scopes.{frame_of};
ghost use Rattle.hir_scope.specs.internal.WalkState.{state, AreInRange, OpensScopes, Over};
ghost use Rattle.hir_scope.specs.internal.Pending.{opened_frames, opened_const_frames};

use crate::entries::add_pat;
use crate::fault::ScopesFault;
use crate::form::Form;
use crate::scope::ScopeKind;
use crate::walk::Walk;
use hir_node::PatId;
use hir_store_core::ExpressionStore;

impl Walk {
    /// Opens a scope of this kind over the current one, with what patterns bind.
    pub(crate) fn open(
        &mut self,
        store: &ExpressionStore,
        kind: ScopeKind,
        pats: &[PatId],
    ) -> Result<(), ScopesFault>
        requires in_range { AreInRange store.now.nodes (map node.Pat pats.now) }
        requires scope { self.old.current.scope < length self.old.scopes.scopes }
        requires const_scope { self.old.current.const_scope < length self.old.scopes.scopes }
        ensures opened { IfOk result (λ _. OpensScopes (state self.old) (state self.new)
            (frame_with store.now.nodes kind pats.now ∷ []) []) }
        ensures full { result ≡ Err ScopesFault.Full → Over (map frame_of self.old.scopes.scopes
            ++ frame_with store.now.nodes kind pats.now ∷ []) }
        ensures missing { result ≡ Err ScopesFault.Missing → ⊥ }
        ensures taken { OnOk result (self.new.entries.items ≡ []) }
    {
        let parent = Some(self.current.scope);
        let entries = &mut self.entries;
        entries.clear();
        for pat in pats {
            add_pat(entries, store, *pat)?;
        }
        self.current.scope = self.scopes.new_scope(parent, kind, entries)?;
        Ok(())
    }

    /// Opens two scopes without entries: one over the current one, and one over that of constants.
    pub(crate) fn open_both(
        &mut self,
        store: &ExpressionStore,
        scope: ScopeKind,
        const_scope: ScopeKind,
    ) -> Result<(), ScopesFault>
        requires scope { self.old.current.scope < length self.old.scopes.scopes }
        requires const_scope { self.old.current.const_scope < length self.old.scopes.scopes }
        ensures opened { IfOk result (λ _. OpensScopes (state self.old) (state self.new)
            (of_kind scope ∷ []) (of_kind const_scope ∷ [])) }
        ensures full { result ≡ Err ScopesFault.Full
            → Over (map frame_of self.old.scopes.scopes ++ of_kind scope ∷ of_kind const_scope ∷ []) }
        ensures missing { result ≡ Err ScopesFault.Missing → ⊥ }
    {
        self.open(store, scope, &[])?;
        let parent = Some(self.current.const_scope);
        self.current.const_scope = self
            .scopes
            .new_scope(parent, const_scope, &mut self.entries)?;
        Ok(())
    }

    /// Opens the scopes that a node of this form has around what is inside it. Its children have to exist.
    pub(crate) fn open_inside(
        &mut self,
        store: &ExpressionStore,
        form: &Form<'_>,
    ) -> Result<(), ScopesFault>
        requires in_range { AreInRange store.now.nodes (children (met_in_form (form_model form.now))) }
        requires scope { self.old.current.scope < length self.old.scopes.scopes }
        requires const_scope { self.old.current.const_scope < length self.old.scopes.scopes }
        ensures opened { IfOk result (λ _. OpensScopes (state self.old) (state self.new)
            (opened_frames store.now.nodes (form_model form.now))
            (opened_const_frames (form_model form.now))) }
        ensures full { result ≡ Err ScopesFault.Full → Over (map frame_of self.old.scopes.scopes
            ++ (opened_frames store.now.nodes (form_model form.now)
            ++ opened_const_frames (form_model form.now))) }
        ensures missing { result ≡ Err ScopesFault.Missing → ⊥ }
    {
        match *form {
            Form::Block(Some(id), label, _, _) => self.open_both(
                store,
                ScopeKind::Block { id, label },
                ScopeKind::Block { id, label: None },
            ),
            Form::Block(None, Some(label), _, _) | Form::Loop(Some(label), _) => {
                self.open(store, ScopeKind::Label(label), &[])
            }
            Form::Block(None, None, _, _) | Form::Loop(None, _) | Form::If(_, _, _) => {
                self.open(store, ScopeKind::None, &[])
            }
            Form::Closure(_, _, args, _) => self.open(store, ScopeKind::None, args),
            Form::Assignment(target, _) => self.open(store, ScopeKind::None, &[target]),
            Form::Let(_, _) | Form::Match(_, _) | Form::PatternType(_, _) => Ok(()),
            Form::Leaf | Form::Expr(_) | Form::Pat(_) | Form::TypeRef(_) => Ok(()),
        }
    }
}
