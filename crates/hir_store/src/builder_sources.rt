//! Recording in a builder where its nodes come from: each call adds one entry to one map of its source map.

ghost use Rattle.std.specs.Prelude.{◌≡◌, OnOk, OnErr, IfErr};
ghost use Rattle.hir_source_map.specs.Additions.{with_expr, with_expr_back, with_pat, with_pat_back, with_label, with_label_back, with_type, with_type_back, with_lifetime, with_lifetime_back, with_field_back, with_pat_field_back, with_expansion, with_definition, with_diagnostic};

use crate::builder::ExpressionStoreBuilder;
use hir_base::{
    ExprOrPatSource, ExprSource, FieldSource, InFile, LabelSource, LifetimeSource, MacroCallId,
    MacroCallPtr, PatFieldSource, PatSource, TypeSource,
};
use hir_node::{BindingId, ExprId, ExprOrPatId, LabelId, LifetimeRefId, PatId, TypeRefId};
use hir_source_map::{ExpressionStoreDiagnostics, define};
use std::alloc::AllocFailed;

impl ExpressionStoreBuilder {
    /// Records that this source became this expression, or this pattern where it is assigned to.
    ///
    /// It replaces an earlier entry of the same key. Where the allocation of one more entry fails, the error
    /// gives key and value back and the builder is as it was. So it is with the other calls that add to the
    /// source map.
    pub fn map_expr(
        &mut self,
        source: ExprSource,
        expr: ExprOrPatId,
    ) -> Result<(), AllocFailed<(ExprSource, ExprOrPatId)>>
        ensures ok { OnOk result (self.new
            ≡ record self.old { source_map = with_expr self.old.source_map source expr }) }
        ensures err { OnErr result (self.new ≡ self.old) }
        ensures value_returned { IfErr result (λ failed. failed.value ≡ (source, expr)) }
    {
        match self.source_map.exprs.get_or_alloc() {
            Ok(maps) => maps.expr_map.put(source, expr),
            Err(_) => Err(AllocFailed {
                value: (source, expr),
            }),
        }
    }

    /// Records that the expression came from this source.
    pub fn map_expr_back(
        &mut self,
        expr: ExprId,
        source: ExprOrPatSource,
    ) -> Result<(), AllocFailed<(ExprId, ExprOrPatSource)>>
        ensures ok { OnOk result (self.new
            ≡ record self.old { source_map = with_expr_back self.old.source_map expr source }) }
        ensures err { OnErr result (self.new ≡ self.old) }
        ensures value_returned { IfErr result (λ failed. failed.value ≡ (expr, source)) }
    {
        match self.source_map.exprs.get_or_alloc() {
            Ok(maps) => maps.expr_map_back.put(expr, source),
            Err(_) => Err(AllocFailed {
                value: (expr, source),
            }),
        }
    }

    /// Records that this source became this pattern, or this expression.
    pub fn map_pat(
        &mut self,
        source: PatSource,
        pat: ExprOrPatId,
    ) -> Result<(), AllocFailed<(PatSource, ExprOrPatId)>>
        ensures ok { OnOk result (self.new
            ≡ record self.old { source_map = with_pat self.old.source_map source pat }) }
        ensures err { OnErr result (self.new ≡ self.old) }
        ensures value_returned { IfErr result (λ failed. failed.value ≡ (source, pat)) }
    {
        match self.source_map.exprs.get_or_alloc() {
            Ok(maps) => maps.pat_map.put(source, pat),
            Err(_) => Err(AllocFailed {
                value: (source, pat),
            }),
        }
    }

    /// Records that the pattern came from this source.
    pub fn map_pat_back(
        &mut self,
        pat: PatId,
        source: ExprOrPatSource,
    ) -> Result<(), AllocFailed<(PatId, ExprOrPatSource)>>
        ensures ok { OnOk result (self.new
            ≡ record self.old { source_map = with_pat_back self.old.source_map pat source }) }
        ensures err { OnErr result (self.new ≡ self.old) }
        ensures value_returned { IfErr result (λ failed. failed.value ≡ (pat, source)) }
    {
        match self.source_map.exprs.get_or_alloc() {
            Ok(maps) => maps.pat_map_back.put(pat, source),
            Err(_) => Err(AllocFailed {
                value: (pat, source),
            }),
        }
    }

    /// Records that this source became this label.
    pub fn map_label(
        &mut self,
        source: LabelSource,
        label: LabelId,
    ) -> Result<(), AllocFailed<(LabelSource, LabelId)>>
        ensures ok { OnOk result (self.new
            ≡ record self.old { source_map = with_label self.old.source_map source label }) }
        ensures err { OnErr result (self.new ≡ self.old) }
        ensures value_returned { IfErr result (λ failed. failed.value ≡ (source, label)) }
    {
        match self.source_map.exprs.get_or_alloc() {
            Ok(maps) => maps.label_map.put(source, label),
            Err(_) => Err(AllocFailed {
                value: (source, label),
            }),
        }
    }

    /// Records that the label came from this source.
    pub fn map_label_back(
        &mut self,
        label: LabelId,
        source: LabelSource,
    ) -> Result<(), AllocFailed<(LabelId, LabelSource)>>
        ensures ok { OnOk result (self.new
            ≡ record self.old { source_map = with_label_back self.old.source_map label source }) }
        ensures err { OnErr result (self.new ≡ self.old) }
        ensures value_returned { IfErr result (λ failed. failed.value ≡ (label, source)) }
    {
        match self.source_map.exprs.get_or_alloc() {
            Ok(maps) => maps.label_map_back.put(label, source),
            Err(_) => Err(AllocFailed {
                value: (label, source),
            }),
        }
    }

    /// Records that this source became this type.
    pub fn map_type(
        &mut self,
        source: TypeSource,
        type_ref: TypeRefId,
    ) -> Result<(), AllocFailed<(TypeSource, TypeRefId)>>
        ensures ok { OnOk result (self.new
            ≡ record self.old { source_map = with_type self.old.source_map source type_ref }) }
        ensures err { OnErr result (self.new ≡ self.old) }
        ensures value_returned { IfErr result (λ failed. failed.value ≡ (source, type_ref)) }
    {
        match self.source_map.types.get_or_alloc() {
            Ok(maps) => maps.type_map.put(source, type_ref),
            Err(_) => Err(AllocFailed {
                value: (source, type_ref),
            }),
        }
    }

    /// Records that the type came from this source.
    pub fn map_type_back(
        &mut self,
        type_ref: TypeRefId,
        source: TypeSource,
    ) -> Result<(), AllocFailed<(TypeRefId, TypeSource)>>
        ensures ok { OnOk result (self.new
            ≡ record self.old { source_map = with_type_back self.old.source_map type_ref source }) }
        ensures err { OnErr result (self.new ≡ self.old) }
        ensures value_returned { IfErr result (λ failed. failed.value ≡ (type_ref, source)) }
    {
        match self.source_map.types.get_or_alloc() {
            Ok(maps) => maps.type_map_back.put(type_ref, source),
            Err(_) => Err(AllocFailed {
                value: (type_ref, source),
            }),
        }
    }

    /// Records that this source became this lifetime.
    pub fn map_lifetime(
        &mut self,
        source: LifetimeSource,
        lifetime: LifetimeRefId,
    ) -> Result<(), AllocFailed<(LifetimeSource, LifetimeRefId)>>
        ensures ok { OnOk result (self.new
            ≡ record self.old { source_map = with_lifetime self.old.source_map source lifetime }) }
        ensures err { OnErr result (self.new ≡ self.old) }
        ensures value_returned { IfErr result (λ failed. failed.value ≡ (source, lifetime)) }
    {
        match self.source_map.types.get_or_alloc() {
            Ok(maps) => maps.lifetime_map.put(source, lifetime),
            Err(_) => Err(AllocFailed {
                value: (source, lifetime),
            }),
        }
    }

    /// Records that the lifetime came from this source.
    pub fn map_lifetime_back(
        &mut self,
        lifetime: LifetimeRefId,
        source: LifetimeSource,
    ) -> Result<(), AllocFailed<(LifetimeRefId, LifetimeSource)>>
        ensures ok { OnOk result (self.new
            ≡ record self.old { source_map = with_lifetime_back self.old.source_map lifetime source }) }
        ensures err { OnErr result (self.new ≡ self.old) }
        ensures value_returned { IfErr result (λ failed. failed.value ≡ (lifetime, source)) }
    {
        match self.source_map.types.get_or_alloc() {
            Ok(maps) => maps.lifetime_map_back.put(lifetime, source),
            Err(_) => Err(AllocFailed {
                value: (lifetime, source),
            }),
        }
    }

    /// Records that the field whose value is the expression came from this source.
    pub fn map_field_back(
        &mut self,
        expr: ExprId,
        source: FieldSource,
    ) -> Result<(), AllocFailed<(ExprId, FieldSource)>>
        ensures ok { OnOk result (self.new
            ≡ record self.old { source_map = with_field_back self.old.source_map expr source }) }
        ensures err { OnErr result (self.new ≡ self.old) }
        ensures value_returned { IfErr result (λ failed. failed.value ≡ (expr, source)) }
    {
        match self.source_map.exprs.get_or_alloc() {
            Ok(maps) => maps.field_map_back.put(expr, source),
            Err(_) => Err(AllocFailed {
                value: (expr, source),
            }),
        }
    }

    /// Records that the field that holds the pattern came from this source.
    pub fn map_pat_field_back(
        &mut self,
        pat: PatId,
        source: PatFieldSource,
    ) -> Result<(), AllocFailed<(PatId, PatFieldSource)>>
        ensures ok { OnOk result (self.new
            ≡ record self.old { source_map = with_pat_field_back self.old.source_map pat source }) }
        ensures err { OnErr result (self.new ≡ self.old) }
        ensures value_returned { IfErr result (λ failed. failed.value ≡ (pat, source)) }
    {
        match self.source_map.exprs.get_or_alloc() {
            Ok(maps) => maps.pat_field_map_back.put(pat, source),
            Err(_) => Err(AllocFailed {
                value: (pat, source),
            }),
        }
    }

    /// Records that the macro call has this expansion.
    pub fn add_expansion(
        &mut self,
        call: InFile<MacroCallPtr>,
        expansion: MacroCallId,
    ) -> Result<(), AllocFailed<(InFile<MacroCallPtr>, MacroCallId)>>
        ensures ok { OnOk result (self.new
            ≡ record self.old { source_map = with_expansion self.old.source_map call expansion }) }
        ensures err { OnErr result (self.new ≡ self.old) }
        ensures value_returned { IfErr result (λ failed. failed.value ≡ (call, expansion)) }
    {
        match self.source_map.exprs.get_or_alloc() {
            Ok(maps) => maps.expansions.put(call, expansion),
            Err(_) => Err(AllocFailed {
                value: (call, expansion),
            }),
        }
    }

    /// Records that the pattern defines the binding, in addition to those recorded before.
    pub fn add_definition(
        &mut self,
        binding: BindingId,
        pat: PatId,
    ) -> Result<(), AllocFailed<(BindingId, PatId)>>
        ensures ok { OnOk result (self.new
            ≡ record self.old { source_map = with_definition self.old.source_map binding pat }) }
        ensures err { OnErr result (self.new ≡ self.old) }
        ensures value_returned { IfErr result (λ failed. failed.value ≡ (binding, pat)) }
    {
        let alloc = self.source_map.alloc;
        match self.source_map.exprs.get_or_alloc() {
            Ok(maps) => define(alloc, &mut maps.definitions, binding, pat),
            Err(_) => Err(AllocFailed {
                value: (binding, pat),
            }),
        }
    }

    /// Adds a diagnostic after the others.
    pub fn push_diagnostic(
        &mut self,
        diagnostic: ExpressionStoreDiagnostics,
    ) -> Result<(), AllocFailed<ExpressionStoreDiagnostics>>
        ensures ok { OnOk result (self.new
            ≡ record self.old { source_map = with_diagnostic self.old.source_map diagnostic }) }
        ensures err { OnErr result (self.new ≡ self.old) }
        ensures value_returned { IfErr result (λ failed. failed.value ≡ diagnostic) }
    {
        match self.source_map.exprs.get_or_alloc() {
            Ok(maps) => maps.diagnostics.push(diagnostic),
            Err(_) => Err(AllocFailed { value: diagnostic }),
        }
    }
}
