//! Lookups in the tables: the signature and the body of a definition, and the store of an owner.
//!
//! The private lookups borrow one table, since a function that borrows all of them is costly to prove.

ghost use Rattle.std.specs.Prelude.{◌≡◌, ◌∷◌, [], Option, None, Some, IfOk, IfErr};
ghost use Rattle.std.specs.Option.{option_map};
ghost use Rattle.std.specs.FinMap as map;
ghost use Rattle.hir_base.specs.declared.defs.AdtId.TheVariants as adt;
ghost use Rattle.hir_base.specs.declared.defs.GenericDefId.TheVariants as generic;
ghost use Rattle.hir_base.specs.declared.defs.ExpressionStoreOwnerId.{ExpressionStoreOwnerId};
ghost use Rattle.hir_store_core.specs.declared.missing.Missing.TheVariants as missing;
ghost use Rattle.hir_source_map.specs.declared.source_map.ExpressionStoreSourceMap.{ExpressionStoreSourceMap};
ghost use Rattle.hir_defs.specs.Tables.{plain_code, generic_def};
ghost use Rattle.hir_store_core.specs.Owners.{missing_owner};
ghost use Rattle.hir_defs.specs.Lookups.{Tables, function_entry, struct_entry, plain_entry, value_entry, of_adt, owner_entry};

use crate::no_generics::NoGenerics;
use crate::plain_def::PlainDef;
use crate::tables::{Tables, entry};
use hir_base::{AdtId, DefWithBodyId, ExpressionStoreOwnerId, FunctionId, GenericDefId, StructId};
use hir_body::{Bodies, BodyEntry};
use hir_collections::Table;
use hir_signature::{
    FunctionSignature, PlainSignature, SignatureEntry, Signatures, StructSignature,
};
use hir_source_map::ExpressionStoreSourceMap;
use hir_store_core::{ExpressionStore, Missing, StoreEntry, Stores};

fn of_function<'a>(
    functions: &'a Table<FunctionId, (FunctionSignature, ExpressionStoreSourceMap)>,
    id: FunctionId,
) -> Result<SignatureEntry<'a>, Missing>
    ensures found { IfOk result (λ found.
        option_map function_entry (map.get functions.now (id ∷ []))
        ≡ Some (found.0.now, found.1.now, found.2.now)) }
    ensures absent { IfErr result (λ absent.
        (absent ≡ missing.Signature (generic.FunctionId id)) × (map.get functions.now (id ∷ []) ≡ None)) }
{
    let wanted = Missing::Signature(GenericDefId::FunctionId(id));
    let (signature, source_map) = entry(functions, &id, wanted)?;
    Ok((signature.generic_params(), signature.store(), source_map))
}

fn of_struct<'a>(
    structs: &'a Table<StructId, (StructSignature, ExpressionStoreSourceMap)>,
    id: StructId,
) -> Result<SignatureEntry<'a>, Missing>
    ensures found { IfOk result (λ found.
        option_map struct_entry (map.get structs.now (id ∷ []))
        ≡ Some (found.0.now, found.1.now, found.2.now)) }
    ensures absent { IfErr result (λ absent.
        (absent ≡ missing.Signature (generic.AdtId (adt.StructId id)))
        × (map.get structs.now (id ∷ []) ≡ None)) }
{
    let wanted = Missing::Signature(GenericDefId::AdtId(AdtId::StructId(id)));
    let (signature, source_map) = entry(structs, &id, wanted)?;
    Ok((signature.generic_params(), signature.store(), source_map))
}

fn of_plain<'a>(
    plains: &'a Table<PlainDef, (PlainSignature, ExpressionStoreSourceMap)>,
    def: PlainDef,
) -> Result<SignatureEntry<'a>, Missing>
    ensures found { IfOk result (λ found.
        option_map plain_entry (map.get plains.now (plain_code def))
        ≡ Some (found.0.now, found.1.now, found.2.now)) }
    ensures absent { IfErr result (λ absent.
        (absent ≡ missing.Signature (generic_def def)) × (map.get plains.now (plain_code def) ≡ None)) }
{
    let wanted = Missing::Signature(def.generic_def());
    let (signature, source_map) = entry(plains, &def, wanted)?;
    Ok((signature.generic_params(), signature.store(), source_map))
}

/// Returns the entry of a constant or a static, which has no parameters.
fn of_value<'a>(
    plains: &'a Table<PlainDef, (PlainSignature, ExpressionStoreSourceMap)>,
    no_generics: &'a NoGenerics,
    def: PlainDef,
) -> Result<SignatureEntry<'a>, Missing>
    ensures found { IfOk result (λ found.
        option_map value_entry (map.get plains.now (plain_code def))
        ≡ Some (found.0.now, found.1.now, found.2.now)) }
    ensures absent { IfErr result (λ absent.
        (absent ≡ missing.Signature (generic_def def)) × (map.get plains.now (plain_code def) ≡ None)) }
{
    let wanted = Missing::Signature(def.generic_def());
    let (signature, source_map) = entry(plains, &def, wanted)?;
    Ok((no_generics.params(), signature.store(), source_map))
}

fn of_adt<'a>(
    structs: &'a Table<StructId, (StructSignature, ExpressionStoreSourceMap)>,
    plains: &'a Table<PlainDef, (PlainSignature, ExpressionStoreSourceMap)>,
    id: AdtId,
) -> Result<SignatureEntry<'a>, Missing>
    ensures found { IfOk result (λ found.
        of_adt structs.now plains.now id ≡ Some (found.0.now, found.1.now, found.2.now)) }
    ensures absent { IfErr result (λ absent.
        (absent ≡ missing.Signature (generic.AdtId id)) × (of_adt structs.now plains.now id ≡ None)) }
{
    match id {
        AdtId::EnumId(id) => of_plain(plains, PlainDef::Enum(id)),
        AdtId::StructId(id) => of_struct(structs, id),
        AdtId::UnionId(id) => of_plain(plains, PlainDef::Union(id)),
    }
}

impl Signatures for Tables {
    ghost use Rattle.hir_defs.specs.Lookups.{signature_entry};

    ghost signature_entry = { signature_entry };

    fn signature_of(&self, def: GenericDefId) -> Result<SignatureEntry<'_>, Missing> {
        let plains = &self.plains;
        match def {
            GenericDefId::AdtId(id) => of_adt(&self.structs, plains, id),
            GenericDefId::ConstId(id) => of_value(plains, &self.no_generics, PlainDef::Const(id)),
            GenericDefId::FunctionId(id) => of_function(&self.functions, id),
            GenericDefId::ImplId(id) => of_plain(plains, PlainDef::Impl(id)),
            GenericDefId::StaticId(id) => of_value(plains, &self.no_generics, PlainDef::Static(id)),
            GenericDefId::TraitId(id) => of_plain(plains, PlainDef::Trait(id)),
            GenericDefId::TypeAliasId(id) => of_plain(plains, PlainDef::TypeAlias(id)),
        }
    }
}

impl Bodies for Tables {
    ghost use Rattle.hir_defs.specs.Lookups.{body_entry};

    ghost body_entry = { body_entry };

    fn body_of(&self, def: DefWithBodyId) -> Result<BodyEntry<'_>, Missing> {
        let wanted = Missing::Body(def);
        let (body, source_map) = entry(&self.bodies, &def, wanted)?;
        Ok((body, source_map))
    }
}

impl Stores for Tables {
    ghost store_entry = { owner_entry };

    fn store_of(&self, owner: ExpressionStoreOwnerId) -> Result<StoreEntry<'_>, Missing> {
        match owner {
            ExpressionStoreOwnerId::Signature(def) => {
                let (_, store, source_map) = self.signature_of(def)?;
                Ok((store, source_map))
            }
            ExpressionStoreOwnerId::Body(def) => {
                let (body, source_map) = self.body_of(def)?;
                Ok((body.store(), source_map.store()))
            }
            ExpressionStoreOwnerId::VariantFields(variant) => {
                let wanted = Missing::Fields(variant);
                let (fields, source_map) = entry(&self.fields, &variant, wanted)?;
                Ok((fields.store(), source_map))
            }
        }
    }
}

/// A lookup of a store by its owner.
pub trait StoreOf {
    // what the tables have for an owner
    ghost entry: { Tables → ExpressionStoreOwnerId → Option (Self × ExpressionStoreSourceMap) };

    /// Returns the store of the owner.
    ///
    /// Where the tables have nothing of the owner, returns `Missing::Signature` or `Missing::Body` of its
    /// definition, or `Missing::Fields` of its variant, as the owner is.
    fn of(tables: &Tables, owner: ExpressionStoreOwnerId) -> Result<&Self, Missing>
        ensures found { IfOk result (λ found.
            option_map (λ e. e.0) (entry tables.now owner) ≡ Some found.now) }
        ensures absent { IfErr result (λ absent.
            (absent ≡ missing_owner owner) × (entry tables.now owner ≡ None)) };

    /// Returns the store of the owner, and where it comes from.
    ///
    /// Where the tables have nothing of the owner, returns `Missing::Signature` or `Missing::Body` of its
    /// definition, or `Missing::Fields` of its variant, as the owner is.
    fn with_source_map(
        tables: &Tables,
        owner: ExpressionStoreOwnerId,
    ) -> Result<(&Self, &ExpressionStoreSourceMap), Missing>
        ensures found { IfOk result (λ found. entry tables.now owner ≡ Some (found.0.now, found.1.now)) }
        ensures absent { IfErr result (λ absent.
            (absent ≡ missing_owner owner) × (entry tables.now owner ≡ None)) };
}

impl StoreOf for ExpressionStore {
    ghost entry = { owner_entry };

    fn of(tables: &Tables, owner: ExpressionStoreOwnerId) -> Result<&ExpressionStore, Missing> {
        let (store, _) = ExpressionStore::with_source_map(tables, owner)?;
        Ok(store)
    }

    fn with_source_map(
        tables: &Tables,
        owner: ExpressionStoreOwnerId,
    ) -> Result<(&ExpressionStore, &ExpressionStoreSourceMap), Missing> {
        tables.store_of(owner)
    }
}
