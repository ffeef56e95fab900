//! Ids of generic parameters: a parameter's number among those of its parent, and the parent.
ghost use Rattle.std.specs.Prelude.{◌≡◌, codes};
ghost use Rattle.hir_collections.specs.Exact.{exact};

use crate::defs::GenericDefId;
use hir_collections::{ExactEq, Idx, Kind, TryClone};
use std::marker::Model;

/// The kind of type and constant parameters. It is a marker: no value of it exists.
pub enum TypeOrConstParamKind {}

impl Kind for TypeOrConstParamKind {
    ghost name = { codes "LocalTypeOrConstParamId" };

    fn name() -> &'static str {
        "LocalTypeOrConstParamId"
    }
}

/// The kind of lifetime parameters. It is a marker: no value of it exists.
pub enum LifetimeParamKind {}

impl Kind for LifetimeParamKind {
    ghost name = { codes "LocalLifetimeParamId" };

    fn name() -> &'static str {
        "LocalLifetimeParamId"
    }
}

/// The number of a type or constant parameter among those of its parent.
pub type LocalTypeOrConstParamId = Idx<TypeOrConstParamKind>;

/// The number of a lifetime parameter among those of its parent.
pub type LocalLifetimeParamId = Idx<LifetimeParamKind>;

/// A type or constant parameter.
#[derive(Clone, Copy, PartialEq, Eq, Hash)]
pub struct TypeOrConstParamId {
    /// What the parameter belongs to.
    pub parent: GenericDefId,
    /// The number of the parameter among those of its parent.
    pub local_id: LocalTypeOrConstParamId,
}

impl ExactEq for TypeOrConstParamId {
    ghost eq_decides = { Prim.search exact };
}

impl TryClone for TypeOrConstParamId {
    ghost clone_is_same = { Prim.search exact };
}

/// A lifetime parameter.
#[derive(Clone, Copy, PartialEq, Eq, Hash)]
pub struct LifetimeParamId {
    /// What the parameter belongs to.
    pub parent: GenericDefId,
    /// The number of the parameter among those of its parent.
    pub local_id: LocalLifetimeParamId,
}

impl ExactEq for LifetimeParamId {
    ghost eq_decides = { Prim.search exact };
}

impl TryClone for LifetimeParamId {
    ghost clone_is_same = { Prim.search exact };
}

/// A parameter that is a type.
#[derive(Clone, Copy, PartialEq, Eq, Hash)]
pub struct TypeParamId {
    type_param: TypeOrConstParamId,
}

impl Model for TypeParamId {
    ghost use Rattle.hir_base.specs.declared.params.TypeOrConstParamId.{TypeOrConstParamId};

    ghost Value = { TypeOrConstParamId };

    ghost view = { λ id. id.type_param };

    ghost inverse = { λ id. record { type_param = id } };
}

impl TypeParamId {
    /// Returns this parameter, which the caller knows to be a type: nothing checks it.
    pub fn from_unchecked(id: TypeOrConstParamId) -> TypeParamId
        ensures { result ≡ id }
    {
        TypeParamId { type_param: id }
    }

    /// Returns what the parameter belongs to.
    pub fn parent(self) -> GenericDefId
        ensures { result ≡ self.parent }
    {
        self.type_param.parent
    }

    /// Returns the number of the parameter among those of its parent.
    pub fn local_id(self) -> LocalTypeOrConstParamId
        ensures { result ≡ self.local_id }
    {
        self.type_param.local_id
    }
}

impl ExactEq for TypeParamId {
    ghost eq_decides = { Prim.search exact };
}

impl TryClone for TypeParamId {
    ghost clone_is_same = { Prim.search exact };
}

/// A parameter that is a constant.
#[derive(Clone, Copy, PartialEq, Eq, Hash)]
pub struct ConstParamId {
    const_param: TypeOrConstParamId,
}

impl Model for ConstParamId {
    ghost use Rattle.hir_base.specs.declared.params.TypeOrConstParamId.{TypeOrConstParamId};

    ghost Value = { TypeOrConstParamId };

    ghost view = { λ id. id.const_param };

    ghost inverse = { λ id. record { const_param = id } };
}

impl ConstParamId {
    /// Returns this parameter, which the caller knows to be a constant: nothing checks it.
    pub fn from_unchecked(id: TypeOrConstParamId) -> ConstParamId
        ensures { result ≡ id }
    {
        ConstParamId { const_param: id }
    }

    /// Returns what the parameter belongs to.
    pub fn parent(self) -> GenericDefId
        ensures { result ≡ self.parent }
    {
        self.const_param.parent
    }

    /// Returns the number of the parameter among those of its parent.
    pub fn local_id(self) -> LocalTypeOrConstParamId
        ensures { result ≡ self.local_id }
    {
        self.const_param.local_id
    }
}

impl ExactEq for ConstParamId {
    ghost eq_decides = { Prim.search exact };
}

impl TryClone for ConstParamId {
    ghost clone_is_same = { Prim.search exact };
}
