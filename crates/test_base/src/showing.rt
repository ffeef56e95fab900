//! The texts of ids and of names, the same by `Display` and by `Debug`.
use hir_base::{
    AdtId, BlockId, ConstId, ConstParamId, CrateId, DefWithBodyId, Edition, EnumId, EnumVariantId,
    ExpressionStoreOwnerId, FunctionId, GenericDefId, HirFileId, HygieneId, Id, ImplId,
    LangItemTarget, LifetimeParamId, LocalLifetimeParamId, LocalTypeOrConstParamId, Macro2Id,
    MacroCallId, MacroDefId, MacroId, MacroRulesId, Name, NamedDef, ProcMacroId, StaticId,
    StructId, SyntaxContext, SyntheticSyntax, TraitId, TypeAliasId, TypeOrConstParamId,
    TypeParamId, UnionId, VariantId,
};
use hir_collections::{Idx, Kind};
use std::alloc::{AllocError, Global};
use std::fmt::{Debug, Display};
use std::mem::drop;
use std::test::Fail;

// Whether the value has this text by `Display`.
fn is_displayed<T: Display>(alloc: Global, value: &T, text: &str) -> Result<bool, AllocError> {
    let displayed = format!(in alloc; "{value}")?;
    Ok(displayed.as_str() == text)
}

// Whether the value has this text by `Debug`.
fn is_debugged<T: Debug>(alloc: Global, value: &T, text: &str) -> Result<bool, AllocError> {
    let debugged = format!(in alloc; "{value:?}")?;
    Ok(debugged.as_str() == text)
}

// Whether the value has this text by `Display` and by `Debug`.
fn shows<T: Display + Debug + Drop>(
    alloc: Global,
    value: T,
    text: &str,
) -> Result<bool, AllocError> {
    let is_displayed = is_displayed(alloc, &value, text)?;
    let is_debugged = is_debugged(alloc, &value, text)?;
    Ok(is_displayed & is_debugged)
}

// Whether an id shows as this text, by `Display` and by `Debug`. It is said of any kind, so that a test names
// the kind alone.
fn id_shows<K: Kind>(alloc: Global, id: Id<K>, text: &str) -> Result<bool, AllocError> {
    shows(alloc, id, text)
}

fn definitions_show(alloc: Global) -> Result<bool, AllocError> {
    Ok(
        id_shows(alloc, FunctionId::from_raw(7), "FunctionId(7)")?
            && id_shows(alloc, StructId::from_raw(0), "StructId(0)")?
            && id_shows(alloc, UnionId::from_raw(1), "UnionId(1)")?
            && id_shows(alloc, EnumId::from_raw(2), "EnumId(2)")?
            && id_shows(alloc, EnumVariantId::from_raw(3), "EnumVariantId(3)")?
            && id_shows(alloc, ConstId::from_raw(4), "ConstId(4)")?,
    )
}

fn other_definitions_show(alloc: Global) -> Result<bool, AllocError> {
    Ok(
        id_shows(alloc, StaticId::from_raw(5), "StaticId(5)")?
            && id_shows(alloc, TraitId::from_raw(6), "TraitId(6)")?
            && id_shows(alloc, ImplId::from_raw(10), "ImplId(10)")?
            && id_shows(alloc, TypeAliasId::from_raw(255), "TypeAliasId(255)")?
            && id_shows(alloc, CrateId::from_raw(4294967295), "CrateId(4294967295)")?
            && id_shows(alloc, HirFileId::from_raw(8), "HirFileId(8)")?,
    )
}

fn macros_and_blocks_show(alloc: Global) -> Result<bool, AllocError> {
    Ok(
        id_shows(alloc, BlockId::from_raw(9), "BlockId(9)")?
            && id_shows(alloc, MacroDefId::from_raw(1), "MacroDefId(1)")?
            && id_shows(alloc, MacroCallId::from_raw(2), "MacroCallId(2)")?
            && id_shows(alloc, Macro2Id::from_raw(3), "Macro2Id(3)")?
            && id_shows(alloc, MacroRulesId::from_raw(4), "MacroRulesId(4)")?
            && id_shows(alloc, ProcMacroId::from_raw(5), "ProcMacroId(5)")?,
    )
}

#[test]
fn an_id_shows_its_kind_and_its_number(rt: HostRuntime) -> Result<(), Fail> {
    let alloc = rt.alloc();
    assert!(rt; definitions_show(alloc)? && other_definitions_show(alloc)?);
    assert!(rt; macros_and_blocks_show(alloc)?);
    Ok(())
}

fn function() -> FunctionId {
    FunctionId::from_raw(7)
}

fn parent() -> GenericDefId {
    GenericDefId::AdtId(AdtId::EnumId(EnumId::from_raw(3)))
}

// An enum of ids shows the id that it holds, and not its own variant.
fn enums_show(alloc: Global) -> Result<bool, AllocError> {
    let adt = AdtId::EnumId(EnumId::from_raw(3));
    Ok(
        shows(alloc, adt, "EnumId(3)")?
            && shows(alloc, GenericDefId::AdtId(adt), "EnumId(3)")?
            && shows(alloc, GenericDefId::FunctionId(function()), "FunctionId(7)")?,
    )
}

fn enums_of_variants_show(alloc: Global) -> Result<bool, AllocError> {
    let variant = EnumVariantId::from_raw(1);
    Ok(
        shows(alloc, DefWithBodyId::VariantId(variant), "EnumVariantId(1)")?
            && shows(alloc, VariantId::EnumVariantId(variant), "EnumVariantId(1)")?
            && shows(
                alloc,
                VariantId::UnionId(UnionId::from_raw(2)),
                "UnionId(2)",
            )?,
    )
}

fn wider_enums_show(alloc: Global) -> Result<bool, AllocError> {
    let by_rules = MacroId::MacroRulesId(MacroRulesId::from_raw(4));
    Ok(
        shows(alloc, by_rules, "MacroRulesId(4)")?
            && shows(alloc, NamedDef::MacroId(by_rules), "MacroRulesId(4)")?
            && shows(alloc, LangItemTarget::MacroId(by_rules), "MacroRulesId(4)")?
            && shows(
                alloc,
                LangItemTarget::ImplId(ImplId::from_raw(5)),
                "ImplId(5)",
            )?,
    )
}

// An owner shows what of the definition it is as well.
fn owners_show(alloc: Global) -> Result<bool, AllocError> {
    let adt = AdtId::EnumId(EnumId::from_raw(3));
    let signature = ExpressionStoreOwnerId::Signature(GenericDefId::AdtId(adt));
    let body = ExpressionStoreOwnerId::Body(DefWithBodyId::FunctionId(function()));
    let fields = ExpressionStoreOwnerId::VariantFields(VariantId::StructId(StructId::from_raw(0)));
    Ok(
        shows(alloc, signature, "Signature(EnumId(3))")?
            && shows(alloc, body, "Body(FunctionId(7))")?
            && shows(alloc, fields, "VariantFields(StructId(0))")?,
    )
}

#[test]
fn an_enum_of_ids_shows_the_id_in_it(rt: HostRuntime) -> Result<(), Fail> {
    let alloc = rt.alloc();
    assert!(rt; enums_show(alloc)? && enums_of_variants_show(alloc)?);
    assert!(rt; wider_enums_show(alloc)? && owners_show(alloc)?);
    Ok(())
}

fn params_show(alloc: Global) -> Result<bool, AllocError> {
    let local_id: LocalTypeOrConstParamId = Idx::from_raw(2);
    let param = TypeOrConstParamId {
        parent: parent(),
        local_id,
    };
    Ok(
        shows(alloc, local_id, "LocalTypeOrConstParamId(2)")?
            && shows(alloc, param, "TypeOrConstParamId(EnumId(3), 2)")?
            && shows(
                alloc,
                TypeParamId::from_unchecked(param),
                "TypeParamId(EnumId(3), 2)",
            )?
            && shows(
                alloc,
                ConstParamId::from_unchecked(param),
                "ConstParamId(EnumId(3), 2)",
            )?,
    )
}

fn lifetimes_show(alloc: Global) -> Result<bool, AllocError> {
    let local_id: LocalLifetimeParamId = Idx::from_raw(2);
    let param = LifetimeParamId {
        parent: parent(),
        local_id,
    };
    Ok(
        shows(alloc, local_id, "LocalLifetimeParamId(2)")?
            && shows(alloc, param, "LifetimeParamId(EnumId(3), 2)")?,
    )
}

#[test]
fn a_parameter_shows_its_parent_and_its_number(rt: HostRuntime) -> Result<(), Fail> {
    assert!(rt; params_show(rt.alloc())? && lifetimes_show(rt.alloc())?);
    Ok(())
}

#[test]
fn hygiene_shows_its_context(rt: HostRuntime) -> Result<(), Fail> {
    let alloc = rt.alloc();
    let source = SyntaxContext::Root(Edition::Edition2021);
    let expansion = SyntaxContext::Expansion(7);
    assert!(rt; shows(alloc, source, "Root(Edition2021)")?);
    assert!(rt; shows(alloc, HygieneId::new(source), "Root(Edition2015)")?);
    assert!(rt; shows(alloc, HygieneId::new(expansion), "Expansion(7)")?);
    assert!(rt; is_debugged(alloc, &SyntheticSyntax, "SyntheticSyntax")?);
    Ok(())
}

// Whether a name of this text is shown as it, and has it and no other.
fn name_shows(alloc: Global, text: &str) -> Result<bool, AllocError> {
    let name = Name::new(alloc, text)?;
    let is_displayed = is_displayed(alloc, &name, text);
    let has_text = name.has_text(text) & !name.has_text("other");
    drop(name);
    Ok(is_displayed? & has_text)
}

#[test]
fn a_name_shows_its_text(rt: HostRuntime) -> Result<(), Fail> {
    for text in &["größe", "fifteen_bytes_x", ""] {
        assert!(rt; name_shows(rt.alloc(), text)?);
    }
    Ok(())
}
