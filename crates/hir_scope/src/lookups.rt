//! The scopes of a definition, looked up in what holds bodies and stores, as tables do.
ghost use Rattle.hir_base.specs.declared.defs.ExpressionStoreOwnerId.{ExpressionStoreOwnerId};
ghost use Rattle.hir_base.specs.declared.defs.ExpressionStoreOwnerId.TheVariants as owner;
ghost use Rattle.hir_scope.specs.Lookups.{AnswersBody, AnswersStore, AnswersOwner, body_in, store_in};

use crate::expr_scopes::ExprScopes;
use crate::fault::ScopesFault;
use hir_base::{DefWithBodyId, ExpressionStoreOwnerId, GenericDefId, VariantId};
use hir_body::{Bodies, Body};
use hir_store_core::Stores;
use std::alloc::Global;

/// Returns the scopes of an owner's store, made as for a signature.
fn of_store<T: Stores>(
    alloc: Global,
    tables: &T,
    owner: ExpressionStoreOwnerId,
) -> Result<ExprScopes, ScopesFault>
    ensures { AnswersStore (store_in (T.store_entry tables.now owner)) result }
{
    match tables.store_of(owner) {
        Ok((store, _)) => ExprScopes::new_store(alloc, store),
        Err(_) => Err(ScopesFault::Missing),
    }
}

impl ExprScopes {
    /// Returns the scopes of the body of a definition.
    ///
    /// Returns `Missing` exactly where the tables have no body of it, and otherwise what `new_body` returns.
    pub fn body_expr_scopes<T: Bodies>(
        alloc: Global,
        tables: &T,
        def: DefWithBodyId,
    ) -> Result<ExprScopes, ScopesFault>
        ensures { AnswersBody (body_in (T.body_entry tables.now def)) result }
    {
        match Body::of(tables, def) {
            Ok(body) => ExprScopes::new_body(alloc, body),
            Err(_) => Err(ScopesFault::Missing),
        }
    }

    /// Returns the scopes of the signature of a definition.
    ///
    /// Returns `Missing` exactly where the tables have no signature of it, and otherwise what `new_store`
    /// returns.
    pub fn sig_expr_scopes<T: Stores>(
        alloc: Global,
        tables: &T,
        def: GenericDefId,
    ) -> Result<ExprScopes, ScopesFault>
        ensures { AnswersStore (store_in (T.store_entry tables.now (owner.Signature def))) result }
    {
        of_store(alloc, tables, ExpressionStoreOwnerId::Signature(def))
    }

    /// Returns the scopes of the fields of a variant.
    ///
    /// Returns `Missing` exactly where the tables have no fields of it, and otherwise what `new_store`
    /// returns.
    pub fn variant_scopes<T: Stores>(
        alloc: Global,
        tables: &T,
        variant: VariantId,
    ) -> Result<ExprScopes, ScopesFault>
        ensures { AnswersStore (store_in (T.store_entry tables.now (owner.VariantFields variant))) result }
    {
        of_store(
            alloc,
            tables,
            ExpressionStoreOwnerId::VariantFields(variant),
        )
    }

    /// Returns the scopes of a body, of a signature or of the fields of a variant, by who owns their store.
    ///
    /// Returns `Missing` exactly where the tables have no entry of the owner, and otherwise what `new_body`
    /// returns for a body, and `new_store` for a signature or fields.
    pub fn of<T: Bodies + Stores, O: Into<ExpressionStoreOwnerId>>(
        alloc: Global,
        tables: &T,
        owner: O,
    ) -> Result<ExprScopes, ScopesFault>
        ensures { (id : ExpressionStoreOwnerId) × O.converts owner id
            × AnswersOwner (T.body_entry tables.now) (T.store_entry tables.now) id result }
    {
        match owner.into() {
            ExpressionStoreOwnerId::Signature(def) => {
                ExprScopes::sig_expr_scopes(alloc, tables, def)
            }
            ExpressionStoreOwnerId::Body(def) => ExprScopes::body_expr_scopes(alloc, tables, def),
            ExpressionStoreOwnerId::VariantFields(variant) => {
                ExprScopes::variant_scopes(alloc, tables, variant)
            }
        }
    }
}
