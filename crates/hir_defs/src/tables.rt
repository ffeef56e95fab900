//! The facts about definitions outside of a store, as one finite map for each kind.

ghost use Rattle.std.specs.Prelude.{◌≡◌, ◌∷◌, [], None, Some, IfOk, IfErr, OnOk, OnErr};
ghost use Rattle.std.specs.Option.{option_map, option_copied};
ghost use Rattle.std.specs.FinMap as map;
ghost use Rattle.hir_base.specs.Keys.{named_code, fields_code, body_code};
ghost use Rattle.hir_base.specs.RawWords.{words_of, with_words};
ghost use Rattle.hir_base.specs.declared.defs.GenericDefId.TheVariants as generic;
ghost use Rattle.hir_base.specs.declared.defs.AdtId.TheVariants as adt;
ghost use Rattle.hir_store_core.specs.declared.missing.Missing.TheVariants as missing;
ghost use Rattle.hir_defs.specs.Tables.{plain_code, generic_def};
ghost use Rattle.hir_defs.specs.NoTables.{no_tables};

use crate::no_generics::NoGenerics;
use crate::plain_def::{PlainDef, Repr};
use hir_base::{
    AdtId, CrateId, DefWithBodyId, Edition, EnumId, EnumVariantId, FunctionId, GenericDefId,
    NamedDef, RawWords, StructId, VariantId,
};
use hir_body::{Body, BodySourceMap};
use hir_collections::{HasCode, Seq, Table, Text};
use hir_signature::{FunctionSignature, PlainSignature, StructSignature, VariantFields};
use hir_source_map::ExpressionStoreSourceMap;
use hir_store_core::Missing;
use std::alloc::{AllocFailed, Global};

/// The facts about the definitions outside. A later entry replaces an earlier one.
pub type Tables = TablesOf<
    FunctionSignature,
    StructSignature,
    PlainSignature,
    VariantFields,
    Body,
    ExpressionStoreSourceMap,
    BodySourceMap,
>;

/// Tables of signatures of functions `F`, of structs `S` and of other definitions `P`, of fields `V` and of
/// bodies `B`, with source maps `M`, and source maps of bodies `N`. The calls keep entries of any types
/// alike, so they are proved for any.
pub struct TablesOf<F, S, P, V, B, M, N> {
    names: Table<NamedDef, Option<Text>>,
    variant_parents: Table<EnumVariantId, EnumId>,
    pub(crate) functions: Table<FunctionId, (F, M)>,
    pub(crate) structs: Table<StructId, (S, M)>,
    pub(crate) plains: Table<PlainDef, (P, M)>,
    pub(crate) fields: Table<VariantId, (V, M)>,
    pub(crate) bodies: Table<DefWithBodyId, (B, N)>,
    crate_names: Table<CrateId, Option<Text>>,
    reprs: Table<StructId, Repr>,
    words: RawWords,
    pub(crate) no_generics: NoGenerics,
}

/// Drops its parts one after the other. This `impl` exists so that the drop is proved once, and is a call
/// where a value is dropped.
impl<F: Drop, S: Drop, P: Drop, V: Drop, B: Drop, M: Drop, N: Drop> Drop
    for TablesOf<F, S, P, V, B, M, N> {
    fn drop(self) {
        let TablesOf {
            names,
            variant_parents,
            functions,
            structs,
            plains,
            fields,
            bodies,
            crate_names,
            reprs,
            words,
            no_generics,
        } = self;
    }
}

/// Returns the value of this key, or `wanted`, as what is missing, where it has none.
///
/// It borrows one table, since a function that borrows all of them is costly to prove.
pub(crate) fn entry<'a, K: HasCode, V>(
    table: &'a Table<K, V>,
    key: &K,
    wanted: Missing,
) -> Result<&'a V, Missing>
    ensures found { IfOk result (λ found. map.get table.now (K.code key.now) ≡ Some found.now) }
    ensures absent { IfErr result (λ absent.
        (absent ≡ wanted) × (map.get table.now (K.code key.now) ≡ None)) }
{
    match table.get(key) {
        Some(found) => Ok(found),
        None => Err(wanted),
    }
}

impl<F: Drop, S: Drop, P: Drop, V: Drop, B: Drop, M: Drop, N: Drop> TablesOf<F, S, P, V, B, M, N> {
    /// Returns tables without an entry, without an allocation.
    pub fn new(alloc: Global) -> TablesOf<F, S, P, V, B, M, N>
        ensures { result ≡ no_tables }
    {
        TablesOf {
            names: Table::new(alloc),
            variant_parents: Table::new(alloc),
            functions: Table::new(alloc),
            structs: Table::new(alloc),
            plains: Table::new(alloc),
            fields: Table::new(alloc),
            bodies: Table::new(alloc),
            crate_names: Table::new(alloc),
            reprs: Table::new(alloc),
            words: RawWords::new(alloc),
            no_generics: NoGenerics::new(alloc),
        }
    }

    /// Records the name of the definition, or that it has none.
    ///
    /// Where an allocation fails, the error gives the entry back and nothing has changed.
    pub fn add_name(
        &mut self,
        def: NamedDef,
        name: Option<Text>,
    ) -> Result<(), AllocFailed<(NamedDef, Option<Text>)>>
        ensures ok { OnOk result (self.new ≡
            record self.old { names = map.insert self.old.names (named_code def) name }) }
        ensures err { OnErr result (self.new ≡ self.old) }
        ensures value_returned { IfErr result (λ failed. failed.value ≡ (def, name)) }
    {
        self.names.put(def, name)
    }

    /// Records the enum of the variant.
    ///
    /// Where an allocation fails, the error gives the entry back and nothing has changed.
    pub fn add_variant_parent(
        &mut self,
        variant: EnumVariantId,
        parent: EnumId,
    ) -> Result<(), AllocFailed<(EnumVariantId, EnumId)>>
        ensures ok { OnOk result (self.new ≡
            record self.old { variant_parents = map.insert self.old.variant_parents (variant ∷ []) parent }) }
        ensures err { OnErr result (self.new ≡ self.old) }
        ensures value_returned { IfErr result (λ failed. failed.value ≡ (variant, parent)) }
    {
        self.variant_parents.put(variant, parent)
    }

    /// Records the name of the crate, or that it has none.
    ///
    /// Where an allocation fails, the error gives the entry back and nothing has changed.
    pub fn add_crate_name(
        &mut self,
        id: CrateId,
        name: Option<Text>,
    ) -> Result<(), AllocFailed<(CrateId, Option<Text>)>>
        ensures ok { OnOk result (self.new ≡
            record self.old { crate_names = map.insert self.old.crate_names (id ∷ []) name }) }
        ensures err { OnErr result (self.new ≡ self.old) }
        ensures value_returned { IfErr result (λ failed. failed.value ≡ (id, name)) }
    {
        self.crate_names.put(id, name)
    }

    /// Records how the struct lies in memory.
    ///
    /// Where an allocation fails, the error gives the entry back and nothing has changed.
    pub fn add_repr(
        &mut self,
        id: StructId,
        repr: Repr,
    ) -> Result<(), AllocFailed<(StructId, Repr)>>
        ensures ok { OnOk result (self.new ≡
            record self.old { reprs = map.insert self.old.reprs (id ∷ []) repr }) }
        ensures err { OnErr result (self.new ≡ self.old) }
        ensures value_returned { IfErr result (λ failed. failed.value ≡ (id, repr)) }
    {
        self.reprs.put(id, repr)
    }

    /// Gives the function this signature.
    ///
    /// Where an allocation fails, the error gives the entry back and nothing has changed.
    pub fn add_function(
        &mut self,
        id: FunctionId,
        signature: F,
        source_map: M,
    ) -> Result<(), AllocFailed<(FunctionId, (F, M))>>
        ensures ok { OnOk result (self.new ≡
            record self.old { functions = map.insert self.old.functions (id ∷ []) (signature, source_map) }) }
        ensures err { OnErr result (self.new ≡ self.old) }
        ensures value_returned { IfErr result (λ failed. failed.value ≡ (id, (signature, source_map))) }
    {
        self.functions.put(id, (signature, source_map))
    }

    /// Gives the struct this signature.
    ///
    /// Where an allocation fails, the error gives the entry back and nothing has changed.
    pub fn add_struct(
        &mut self,
        id: StructId,
        signature: S,
        source_map: M,
    ) -> Result<(), AllocFailed<(StructId, (S, M))>>
        ensures ok { OnOk result (self.new ≡
            record self.old { structs = map.insert self.old.structs (id ∷ []) (signature, source_map) }) }
        ensures err { OnErr result (self.new ≡ self.old) }
        ensures value_returned { IfErr result (λ failed. failed.value ≡ (id, (signature, source_map))) }
    {
        self.structs.put(id, (signature, source_map))
    }

    /// Gives the definition this signature.
    ///
    /// Where an allocation fails, the error gives the entry back and nothing has changed.
    pub fn add_plain(
        &mut self,
        def: PlainDef,
        signature: P,
        source_map: M,
    ) -> Result<(), AllocFailed<(PlainDef, (P, M))>>
        ensures ok { OnOk result (self.new ≡ record self.old {
          plains = map.insert self.old.plains (plain_code def) (signature, source_map);
        }) }
        ensures err { OnErr result (self.new ≡ self.old) }
        ensures value_returned { IfErr result (λ failed. failed.value ≡ (def, (signature, source_map))) }
    {
        self.plains.put(def, (signature, source_map))
    }

    /// Gives the struct, the union or the variant these fields.
    ///
    /// Where an allocation fails, the error gives the entry back and nothing has changed.
    pub fn add_fields(
        &mut self,
        variant: VariantId,
        fields: V,
        source_map: M,
    ) -> Result<(), AllocFailed<(VariantId, (V, M))>>
        ensures ok { OnOk result (self.new ≡ record self.old {
          fields = map.insert self.old.fields (fields_code variant) (fields, source_map);
        }) }
        ensures err { OnErr result (self.new ≡ self.old) }
        ensures value_returned { IfErr result (λ failed. failed.value ≡ (variant, (fields, source_map))) }
    {
        self.fields.put(variant, (fields, source_map))
    }

    /// Gives the definition this body.
    ///
    /// Where an allocation fails, the error gives the entry back and nothing has changed.
    pub fn add_body(
        &mut self,
        def: DefWithBodyId,
        body: B,
        source_map: N,
    ) -> Result<(), AllocFailed<(DefWithBodyId, (B, N))>>
        ensures ok { OnOk result (self.new ≡
            record self.old { bodies = map.insert self.old.bodies (body_code def) (body, source_map) }) }
        ensures err { OnErr result (self.new ≡ self.old) }
        ensures value_returned { IfErr result (λ failed. failed.value ≡ (def, (body, source_map))) }
    {
        self.bodies.put(def, (body, source_map))
    }

    /// Sets the words of this edition that are written with `r#`, in place of the ones that it had.
    pub fn set_raw_words(&mut self, edition: Edition, words: Seq<Text>)
        ensures { self.new ≡ record self.old { words = with_words self.old.words edition words } }
    {
        self.words.set_words(edition, words);
    }

    /// Returns the words of this edition that are written with `r#`: none where none were given.
    pub fn raw_words(&self, edition: Edition) -> &[Text]
        ensures { result.now ≡ words_of self.now.words edition }
    {
        self.words.words(edition)
    }

    /// Returns how the struct lies in memory, where that was recorded.
    pub fn repr(&self, id: StructId) -> Option<Repr>
        ensures { result ≡ map.get self.now.reprs (id ∷ []) }
    {
        self.reprs.get(&id).copied()
    }

    /// Returns the name of the definition, and `None` where it has no name.
    ///
    /// Returns `Missing::Name` of the definition where the tables don't say whether it has a name.
    pub fn name(&self, def: NamedDef) -> Result<Option<&Text>, Missing>
        ensures found { IfOk result (λ found.
            map.get self.now.names (named_code def) ≡ Some (option_copied found)) }
        ensures absent { IfErr result (λ absent.
            (absent ≡ missing.Name def) × (map.get self.now.names (named_code def) ≡ None)) }
    {
        let wanted = Missing::Name(def);
        let found = entry(&self.names, &def, wanted)?;
        Ok(found.as_ref())
    }

    /// Returns the enum of the variant.
    ///
    /// Returns `Missing::Variant` of the variant where the tables don't say of which enum it is.
    pub fn variant_parent(&self, variant: EnumVariantId) -> Result<EnumId, Missing>
        ensures found { IfOk result (λ found.
            map.get self.now.variant_parents (variant ∷ []) ≡ Some found) }
        ensures absent { IfErr result (λ absent.
            (absent ≡ missing.Variant variant) × (map.get self.now.variant_parents (variant ∷ []) ≡ None)) }
    {
        let wanted = Missing::Variant(variant);
        let found = entry(&self.variant_parents, &variant, wanted)?;
        Ok(*found)
    }

    /// Returns the name of the crate, and `None` where it has no name.
    ///
    /// Returns `Missing::Crate` of the crate where the tables don't say whether it has a name.
    pub fn crate_name(&self, id: CrateId) -> Result<Option<&Text>, Missing>
        ensures found { IfOk result (λ found.
            map.get self.now.crate_names (id ∷ []) ≡ Some (option_copied found)) }
        ensures absent { IfErr result (λ absent.
            (absent ≡ missing.Crate id) × (map.get self.now.crate_names (id ∷ []) ≡ None)) }
    {
        let wanted = Missing::Crate(id);
        let found = entry(&self.crate_names, &id, wanted)?;
        Ok(found.as_ref())
    }

    /// Returns the signature of the function.
    ///
    /// Returns `Missing::Signature` of the function where the tables have none of it.
    pub fn function_signature(&self, id: FunctionId) -> Result<&F, Missing>
        ensures found { IfOk result (λ found.
            option_map (λ entry. entry.0) (map.get self.now.functions (id ∷ [])) ≡ Some found.now) }
        ensures absent { IfErr result (λ absent.
            (absent ≡ missing.Signature (generic.FunctionId id))
            × (map.get self.now.functions (id ∷ []) ≡ None)) }
    {
        let wanted = Missing::Signature(GenericDefId::FunctionId(id));
        let (found, _) = entry(&self.functions, &id, wanted)?;
        Ok(found)
    }

    /// Returns the signature of the struct.
    ///
    /// Returns `Missing::Signature` of the struct where the tables have none of it.
    pub fn struct_signature(&self, id: StructId) -> Result<&S, Missing>
        ensures found { IfOk result (λ found.
            option_map (λ entry. entry.0) (map.get self.now.structs (id ∷ [])) ≡ Some found.now) }
        ensures absent { IfErr result (λ absent.
            (absent ≡ missing.Signature (generic.AdtId (adt.StructId id)))
            × (map.get self.now.structs (id ∷ []) ≡ None)) }
    {
        let wanted = Missing::Signature(GenericDefId::AdtId(AdtId::StructId(id)));
        let (found, _) = entry(&self.structs, &id, wanted)?;
        Ok(found)
    }

    /// Returns the signature of the definition.
    ///
    /// Returns `Missing::Signature` of the definition where the tables have none of it.
    pub fn plain_signature(&self, def: PlainDef) -> Result<&P, Missing>
        ensures found { IfOk result (λ found.
            option_map (λ entry. entry.0) (map.get self.now.plains (plain_code def)) ≡ Some found.now) }
        ensures absent { IfErr result (λ absent.
            (absent ≡ missing.Signature (generic_def def))
            × (map.get self.now.plains (plain_code def) ≡ None)) }
    {
        let wanted = Missing::Signature(def.generic_def());
        let (found, _) = entry(&self.plains, &def, wanted)?;
        Ok(found)
    }

    /// Returns the fields of the struct, the union or the variant.
    ///
    /// Returns `Missing::Fields` of the struct, the union or the variant where the tables have none of it.
    pub fn variant_fields(&self, variant: VariantId) -> Result<&V, Missing>
        ensures found { IfOk result (λ found.
            option_map (λ entry. entry.0) (map.get self.now.fields (fields_code variant)) ≡ Some found.now) }
        ensures absent { IfErr result (λ absent.
            (absent ≡ missing.Fields variant) × (map.get self.now.fields (fields_code variant) ≡ None)) }
    {
        let wanted = Missing::Fields(variant);
        let (found, _) = entry(&self.fields, &variant, wanted)?;
        Ok(found)
    }
}
