//! The parts of generic arguments and bounds: constants, the ids of types that are paths, and bounds.
ghost use Rattle.std.specs.Prelude.{◌≡◌, Some, codes};
ghost use Rattle.hir_collections.specs.Exact.{exact};
ghost use Rattle.hir_collections.specs.IdText.{id_text};

use crate::ids::{ExprId, LifetimeRefId, TypeRefId};
use hir_base::Name;
use hir_collections::{ExactEq, Seq, TryClone};
use std::fmt::{self, Debug, Display};
use std::marker::Model;

/// The id of a type that is a path, modelled as the number of that type. Nothing here checks that the type
/// is a path.
#[derive(Clone, Copy, PartialEq, Eq, Hash)]
pub struct PathId(TypeRefId);

impl Model for PathId {
    ghost use Rattle.std.specs.Prelude.{ℕ};

    ghost Value = { ℕ };

    ghost view = { λ id. id.0 };

    ghost inverse = { λ n. record { 0 = n } };
}

impl PathId {
    /// Returns this type, which the caller knows to be a path: nothing checks it.
    pub fn from_type_ref_unchecked(type_ref: TypeRefId) -> PathId
        ensures { result ≡ type_ref }
    {
        PathId(type_ref)
    }

    /// Returns the type that is the path.
    pub fn type_ref(self) -> TypeRefId
        ensures { result ≡ self }
    {
        self.0
    }
}

/// Writes its kind and the number of the type, as `PathId(3)`.
impl Display for PathId {
    ghost output = { λ id. Some (id_text (codes "PathId") id) };

    fn fmt<W: fmt::Write>(&self, f: &mut fmt::Formatter<W>) -> fmt::Result {
        let number = self.0.into_raw();
        write!(f, "PathId({number})")
    }
}

impl Debug for PathId {
    ghost debug_output = { λ id. Some (id_text (codes "PathId") id) };

    fn fmt<W: fmt::Write>(&self, f: &mut fmt::Formatter<W>) -> fmt::Result {
        Display::fmt(self, f)
    }
}

impl ExactEq for PathId {
    ghost eq_decides = { Prim.search exact };
}

impl TryClone for PathId {
    ghost clone_is_same = { Prim.search exact };
}

/// A constant in a type or an argument list: an expression that sees no local variables.
#[derive(Clone, Copy, PartialEq, Eq, Hash)]
pub struct ConstRef {
    pub expr: ExprId,
}

impl ExactEq for ConstRef {
    ghost eq_decides = { Prim.search exact };
}

impl TryClone for ConstRef {
    ghost clone_is_same = { Prim.search exact };
}

/// A bound: what a type has to be or to outlive.
#[derive(Drop, Clone, PartialEq, Eq, Hash)]
pub enum TypeBound {
    /// A trait, perhaps after `?`.
    Path(PathId, TraitBoundModifier),
    /// A trait after `for<..>` with these lifetimes.
    ForLifetime(Seq<Name>, PathId),
    Lifetime(LifetimeRefId),
    /// What `use<..>` lists.
    Use(Seq<UseArgRef>),
    /// What could not be lowered.
    Error,
}

impl ExactEq for TypeBound {
    ghost eq_decides = { Prim.search exact };
}

impl TryClone for TypeBound {
    ghost clone_is_same = { Prim.search exact };
}

/// What a bound `use<..>` lists.
#[derive(Drop, Clone, PartialEq, Eq, Hash)]
pub enum UseArgRef {
    /// A type or constant parameter, by its name.
    Name(Name),
    Lifetime(LifetimeRefId),
}

impl ExactEq for UseArgRef {
    ghost eq_decides = { Prim.search exact };
}

impl TryClone for UseArgRef {
    ghost clone_is_same = { Prim.search exact };
}

/// The modifier before the trait of a bound.
#[derive(Clone, Copy, PartialEq, Eq, Hash)]
pub enum TraitBoundModifier {
    None,
    /// `?`
    Maybe,
}

impl ExactEq for TraitBoundModifier {
    ghost eq_decides = { Prim.search exact };
}

impl TryClone for TraitBoundModifier {
    ghost clone_is_same = { Prim.search exact };
}
