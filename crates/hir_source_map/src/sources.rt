//! The two parts of a source map: the maps of expressions and all that belongs to them, and the maps of
//! types and lifetimes.

ghost use Rattle.std.specs.Prelude.{◌≡◌};

use crate::definitions::Definitions;
use crate::diagnostics::ExpressionStoreDiagnostics;
use hir_base::{
    ExprOrPatSource, ExprSource, FieldSource, InFile, LabelSource, LifetimeSource, MacroCallId,
    MacroCallPtr, PatFieldSource, PatSource, TypeSource,
};
use hir_collections::{Empty, Seq, Table};
use hir_path::{BindingId, ExprId, ExprOrPatId, LabelId, LifetimeRefId, PatId, TypeRefId};
use std::alloc::Global;

/// Where expressions, patterns, labels and bindings come from, what macro calls expanded to, and the
/// diagnostics.
#[derive(PartialEq, Eq)]
pub struct ExprSources {
    /// What an expression in source became: a pattern, if it is assigned to.
    pub expr_map: Table<ExprSource, ExprOrPatId>,
    pub expr_map_back: Table<ExprId, ExprOrPatSource>,
    /// What a pattern in source became: an expression, perhaps.
    pub pat_map: Table<PatSource, ExprOrPatId>,
    pub pat_map_back: Table<PatId, ExprOrPatSource>,
    pub label_map: Table<LabelSource, LabelId>,
    pub label_map_back: Table<LabelId, LabelSource>,
    /// The patterns that define a binding. `define` adds them.
    pub definitions: Table<BindingId, Definitions>,
    /// The key of a field of a struct expression is the expression that is its value.
    pub field_map_back: Table<ExprId, FieldSource>,
    /// The key of a field of a struct pattern is the pattern that it holds.
    pub pat_field_map_back: Table<PatId, PatFieldSource>,
    /// What macro calls expanded to.
    pub expansions: Table<InFile<MacroCallPtr>, MacroCallId>,
    /// The diagnostics, in the order in which they were added.
    pub diagnostics: Seq<ExpressionStoreDiagnostics>,
}

/// Drops its parts one after the other. It is written out so that it is proved once, and that each drop is a
/// call.
impl Drop for ExprSources {
    fn drop(self) {
        let ExprSources {
            expr_map,
            expr_map_back,
            pat_map,
            pat_map_back,
            label_map,
            label_map_back,
            definitions,
            field_map_back,
            pat_field_map_back,
            expansions,
            diagnostics,
        } = self;
    }
}

/// Where types and lifetimes come from.
#[derive(PartialEq, Eq)]
pub struct TypeSources {
    pub type_map: Table<TypeSource, TypeRefId>,
    pub type_map_back: Table<TypeRefId, TypeSource>,
    pub lifetime_map: Table<LifetimeSource, LifetimeRefId>,
    pub lifetime_map_back: Table<LifetimeRefId, LifetimeSource>,
}

/// Drops its parts one after the other. It is written out so that it is proved once, and that each drop is a
/// call.
impl Drop for TypeSources {
    fn drop(self) {
        let TypeSources {
            type_map,
            type_map_back,
            lifetime_map,
            lifetime_map_back,
        } = self;
    }
}

impl ExprSources {
    ghost use Rattle.hir_source_map.specs.Sources.{no_expr_sources, has_news};

    /// Maps without entries.
    pub fn new(alloc: Global) -> ExprSources
        ensures { result ≡ no_expr_sources }
    {
        ExprSources {
            expr_map: Table::new(alloc),
            expr_map_back: Table::new(alloc),
            pat_map: Table::new(alloc),
            pat_map_back: Table::new(alloc),
            label_map: Table::new(alloc),
            label_map_back: Table::new(alloc),
            definitions: Table::new(alloc),
            field_map_back: Table::new(alloc),
            pat_field_map_back: Table::new(alloc),
            expansions: Table::new(alloc),
            diagnostics: Seq::new(alloc),
        }
    }

    /// Returns whether there is an expansion or a diagnostic.
    pub fn has_news(&self) -> bool
        ensures { result ≡ has_news self.now }
    {
        !self.expansions.is_empty() || !self.diagnostics.is_empty()
    }
}

impl TypeSources {
    ghost use Rattle.hir_source_map.specs.Sources.{no_type_sources};

    /// Maps without entries.
    pub fn new(alloc: Global) -> TypeSources
        ensures { result ≡ no_type_sources }
    {
        TypeSources {
            type_map: Table::new(alloc),
            type_map_back: Table::new(alloc),
            lifetime_map: Table::new(alloc),
            lifetime_map_back: Table::new(alloc),
        }
    }
}

impl Empty for ExprSources {
    ghost use Rattle.hir_source_map.specs.Sources.{no_expr_sources};

    ghost empty_value = { no_expr_sources };

    fn empty_value(alloc: Global) -> ExprSources {
        ExprSources::new(alloc)
    }
}

impl Empty for TypeSources {
    ghost use Rattle.hir_source_map.specs.Sources.{no_type_sources};

    ghost empty_value = { no_type_sources };

    fn empty_value(alloc: Global) -> TypeSources {
        TypeSources::new(alloc)
    }
}
