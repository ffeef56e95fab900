//! The kinds of numbered ids. They are markers: no value of them exists.
ghost use Rattle.std.specs.Prelude.{codes};

use hir_collections::Kind;

/// Of `FunctionId`.
pub enum Function {}

impl Kind for Function {
    ghost name = { codes "FunctionId" };

    fn name() -> &'static str {
        "FunctionId"
    }
}

/// Of `StructId`.
pub enum Struct {}

impl Kind for Struct {
    ghost name = { codes "StructId" };

    fn name() -> &'static str {
        "StructId"
    }
}

/// Of `UnionId`.
pub enum Union {}

impl Kind for Union {
    ghost name = { codes "UnionId" };

    fn name() -> &'static str {
        "UnionId"
    }
}

/// Of `EnumId`.
pub enum Enum {}

impl Kind for Enum {
    ghost name = { codes "EnumId" };

    fn name() -> &'static str {
        "EnumId"
    }
}

/// Of `EnumVariantId`.
pub enum EnumVariant {}

impl Kind for EnumVariant {
    ghost name = { codes "EnumVariantId" };

    fn name() -> &'static str {
        "EnumVariantId"
    }
}

/// Of `ConstId`.
pub enum Const {}

impl Kind for Const {
    ghost name = { codes "ConstId" };

    fn name() -> &'static str {
        "ConstId"
    }
}

/// Of `StaticId`.
pub enum Static {}

impl Kind for Static {
    ghost name = { codes "StaticId" };

    fn name() -> &'static str {
        "StaticId"
    }
}

/// Of `TraitId`.
pub enum Trait {}

impl Kind for Trait {
    ghost name = { codes "TraitId" };

    fn name() -> &'static str {
        "TraitId"
    }
}

/// Of `ImplId`.
pub enum Impl {}

impl Kind for Impl {
    ghost name = { codes "ImplId" };

    fn name() -> &'static str {
        "ImplId"
    }
}

/// Of `TypeAliasId`.
pub enum TypeAlias {}

impl Kind for TypeAlias {
    ghost name = { codes "TypeAliasId" };

    fn name() -> &'static str {
        "TypeAliasId"
    }
}

/// Of `BlockId`.
pub enum Block {}

impl Kind for Block {
    ghost name = { codes "BlockId" };

    fn name() -> &'static str {
        "BlockId"
    }
}

/// Of `MacroDefId`.
pub enum MacroDef {}

impl Kind for MacroDef {
    ghost name = { codes "MacroDefId" };

    fn name() -> &'static str {
        "MacroDefId"
    }
}

/// Of `MacroCallId`.
pub enum MacroCall {}

impl Kind for MacroCall {
    ghost name = { codes "MacroCallId" };

    fn name() -> &'static str {
        "MacroCallId"
    }
}

/// Of `CrateId`.
pub enum Crate {}

impl Kind for Crate {
    ghost name = { codes "CrateId" };

    fn name() -> &'static str {
        "CrateId"
    }
}

/// Of `Macro2Id`.
pub enum Macro2 {}

impl Kind for Macro2 {
    ghost name = { codes "Macro2Id" };

    fn name() -> &'static str {
        "Macro2Id"
    }
}

/// Of `MacroRulesId`.
pub enum MacroRules {}

impl Kind for MacroRules {
    ghost name = { codes "MacroRulesId" };

    fn name() -> &'static str {
        "MacroRulesId"
    }
}

/// Of `ProcMacroId`.
pub enum ProcMacro {}

impl Kind for ProcMacro {
    ghost name = { codes "ProcMacroId" };

    fn name() -> &'static str {
        "ProcMacroId"
    }
}

/// Of `HirFileId`.
pub enum HirFile {}

impl Kind for HirFile {
    ghost name = { codes "HirFileId" };

    fn name() -> &'static str {
        "HirFileId"
    }
}
