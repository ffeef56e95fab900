//! The parts of a body that lines make: a builder, the parameters and the name of the function.

ghost use Rattle.std.specs.Prelude.{◌≡◌};
ghost use Rattle.hir_show_run.specs.internal.Parts.{builder_parts};
ghost use Rattle.hir_show_run.specs.Parts.{no_parts};

use hir_base::{HygieneId, Name};
use hir_body::Param;
use hir_collections::Seq;
use hir_node::{Binding, BindingId, Expr, ExprId, ExprOrPatId, Pat, PatId, TypeRef};
use hir_show_grammar::{Builder, LineError};
use hir_store::ExpressionStoreBuilder;
use std::alloc::Global;

/// A builder, and the parameters and the name of the function that its last root is the body of.
#[derive(Drop)]
pub(crate) struct BodyBuilder {
    pub(crate) builder: ExpressionStoreBuilder,
    pub(crate) self_param: Option<Param<BindingId>>,
    pub(crate) params: Seq<Param<PatId>>,
    pub(crate) name: Option<Name>,
}

/// A parameter that the body has as the user wrote it.
fn as_written<Id: Copy>(id: Id) -> Param<Id>
    ensures { result ≡ record { formal = id; user_written = id } }
{
    Param {
        formal: id,
        user_written: id,
    }
}

impl BodyBuilder {
    /// Nothing made yet.
    pub(crate) fn new(alloc: Global) -> BodyBuilder
        ensures { builder_parts result ≡ no_parts }
    {
        BodyBuilder {
            builder: ExpressionStoreBuilder::new(alloc),
            self_param: None,
            params: Seq::new(alloc),
            name: None,
        }
    }
}

impl Builder for BodyBuilder {
    ghost use Rattle.std.specs.Prelude.{is_some};
    ghost use Rattle.hir_show_run.specs.internal.Parts.{with_maker};

    ghost has_self = { λ b. is_some b.self_param };

    ghost has_name = { λ b. is_some b.name };

    ghost add = { with_maker };

    fn has_self_param(&self) -> bool {
        self.self_param.is_some()
    }

    fn has_fn_name(&self) -> bool {
        self.name.is_some()
    }

    // Each outcome is matched here: a function that takes it has the node that a refusal gives back copied.
    // Always inlined, as those below are: see `with_zeros` of `hir_base`.
    #[inline(always)]
    fn binding(&mut self, binding: Binding) -> Result<(), LineError> {
        match self.builder.alloc_binding(binding) {
            Ok(_) => Ok(()),
            Err(_) => Err(LineError::Memory),
        }
    }

    // Always inlined, as `expr` is: the node goes into the arena without a copy on the way, which saves 5 %
    // of the instructions of making.
    #[inline(always)]
    fn pat(&mut self, pat: Pat) -> Result<(), LineError> {
        match self.builder.alloc_pat(pat) {
            Ok(_) => Ok(()),
            Err(_) => Err(LineError::Memory),
        }
    }

    fn type_ref(&mut self, type_ref: TypeRef) -> Result<(), LineError> {
        match self.builder.alloc_type(type_ref) {
            Ok(_) => Ok(()),
            Err(_) => Err(LineError::Memory),
        }
    }

    #[inline(always)]
    fn expr(&mut self, expr: Expr) -> Result<(), LineError> {
        match self.builder.alloc_expr(expr) {
            Ok(_) => Ok(()),
            Err(_) => Err(LineError::Memory),
        }
    }

    fn hygiene(&mut self, id: ExprOrPatId, hygiene: HygieneId) -> Result<(), LineError> {
        match self.builder.set_hygiene(id, hygiene) {
            Ok(_) => Ok(()),
            Err(_) => Err(LineError::Memory),
        }
    }

    fn self_param(&mut self, id: BindingId) -> Result<(), LineError> {
        self.self_param = Some(as_written(id));
        Ok(())
    }

    fn param(&mut self, id: PatId) -> Result<(), LineError> {
        match self.params.push(as_written(id)) {
            Ok(()) => Ok(()),
            Err(_) => Err(LineError::Memory),
        }
    }

    fn fn_name(&mut self, name: Name) -> Result<(), LineError> {
        self.name = Some(name);
        Ok(())
    }

    fn roots(&mut self) -> Result<(), LineError> {
        self.builder.begin_roots();
        Ok(())
    }

    fn root(&mut self, id: ExprId) -> Result<(), LineError> {
        match self.builder.push_root(id) {
            Ok(()) => Ok(()),
            Err(_) => Err(LineError::Memory),
        }
    }
}
