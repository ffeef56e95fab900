//! Lookups of the generic parameters of a definition.
ghost use Rattle.std.specs.Prelude.{◌≡◌, Option, None, Some, IfOk, IfErr};
ghost use Rattle.std.specs.Option.{option_map};
ghost use Rattle.hir_base.specs.declared.defs.GenericDefId.{GenericDefId};
ghost use Rattle.hir_store_core.specs.declared.missing.Missing.TheVariants as missing;
ghost use Rattle.hir_signature.specs.Lookups.{SignatureAndSources, without_source_map};

use crate::generic_params::GenericParams;
use hir_base::GenericDefId;
use hir_source_map::ExpressionStoreSourceMap;
use hir_store_core::{ExpressionStore, Missing};

/// The generic parameters of a definition, the store that they name, and where that comes from.
pub type SignatureEntry<'a> = (
    &'a GenericParams,
    &'a ExpressionStore,
    &'a ExpressionStoreSourceMap,
);

/// A holder of signatures of definitions.
pub trait Signatures {
    // what is held for a definition
    ghost signature_entry: { Self → GenericDefId → Option SignatureAndSources };

    /// Returns the generic parameters of the definition, the store that they name, and where that comes from.
    ///
    /// Returns `Missing::Signature` of the definition where it has no signature.
    fn signature_of(&self, def: GenericDefId) -> Result<SignatureEntry<'_>, Missing>
        ensures found { IfOk result (λ found.
            signature_entry self.now def ≡ Some (found.0.now, found.1.now, found.2.now)) }
        ensures absent { IfErr result (λ absent.
            (absent ≡ missing.Signature def) × (signature_entry self.now def ≡ None)) };
}

/// Lookups of the generic parameters of a definition.
impl GenericParams {
    /// Returns the parameters of the definition.
    ///
    /// Returns `Missing::Signature` of the definition where it has no signature.
    pub fn of<T: Signatures>(tables: &T, def: GenericDefId) -> Result<&GenericParams, Missing>
        ensures found { IfOk result (λ found.
            option_map (λ entry. entry.0) (T.signature_entry tables.now def) ≡ Some found.now) }
        ensures absent { IfErr result (λ absent.
            (absent ≡ missing.Signature def) × (T.signature_entry tables.now def ≡ None)) }
    {
        let (params, _, _) = tables.signature_of(def)?;
        Ok(params)
    }

    /// Returns the parameters of the definition, and the store that they name.
    ///
    /// Returns `Missing::Signature` of the definition where it has no signature.
    pub fn with_store<T: Signatures>(
        tables: &T,
        def: GenericDefId,
    ) -> Result<(&GenericParams, &ExpressionStore), Missing>
        ensures found { IfOk result (λ found.
            option_map without_source_map (T.signature_entry tables.now def)
            ≡ Some (found.0.now, found.1.now)) }
        ensures absent { IfErr result (λ absent.
            (absent ≡ missing.Signature def) × (T.signature_entry tables.now def ≡ None)) }
    {
        let (params, store, _) = tables.signature_of(def)?;
        Ok((params, store))
    }

    /// Returns the parameters of the definition, the store that they name, and where that comes from.
    ///
    /// Returns `Missing::Signature` of the definition where it has no signature.
    pub fn with_source_map<T: Signatures>(
        tables: &T,
        def: GenericDefId,
    ) -> Result<SignatureEntry<'_>, Missing>
        ensures found { IfOk result (λ found.
            T.signature_entry tables.now def ≡ Some (found.0.now, found.1.now, found.2.now)) }
        ensures absent { IfErr result (λ absent.
            (absent ≡ missing.Signature def) × (T.signature_entry tables.now def ≡ None)) }
    {
        tables.signature_of(def)
    }
}
