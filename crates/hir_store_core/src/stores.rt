//! Holders of stores, by what each store belongs to.

ghost use Rattle.std.specs.Prelude.{◌≡◌, Option, None, Some, IfOk, IfErr};
ghost use Rattle.hir_base.specs.declared.defs.ExpressionStoreOwnerId.{ExpressionStoreOwnerId};
ghost use Rattle.hir_store_core.specs.Owners.{StoreAndSources, missing_owner};

use crate::missing::Missing;
use crate::store::ExpressionStore;
use hir_base::ExpressionStoreOwnerId;
use hir_source_map::ExpressionStoreSourceMap;

/// The store of an owner, and where it comes from.
pub type StoreEntry<'a> = (&'a ExpressionStore, &'a ExpressionStoreSourceMap);

/// A holder of stores: of bodies, of signatures and of fields.
pub trait Stores {
    // what is held for an owner
    ghost store_entry: { Self → ExpressionStoreOwnerId → Option StoreAndSources };

    /// Returns the store of the owner, and where it comes from.
    ///
    /// Where nothing is held for the owner, returns `Missing::Signature` or `Missing::Body` of its
    /// definition, or `Missing::Fields` of its variant, as the owner is.
    fn store_of(&self, owner: ExpressionStoreOwnerId) -> Result<StoreEntry<'_>, Missing>
        ensures found { IfOk result (λ found. store_entry self.now owner ≡ Some (found.0.now, found.1.now)) }
        ensures absent { IfErr result (λ absent.
            (absent ≡ missing_owner owner) × (store_entry self.now owner ≡ None)) };
}
