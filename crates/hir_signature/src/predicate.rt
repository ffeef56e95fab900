//! The predicates of `where` clauses.
ghost use Rattle.std.specs.Prelude.{◌≡◌};
ghost use Rattle.hir_collections.specs.Exact.{exact};

use hir_base::Name;
use hir_collections::{ExactEq, Seq, TryClone};
use hir_path::{LifetimeRefId, TypeBound, TypeRefId};

/// One predicate of a `where` clause. `where T: Foo + Bar` has two.
#[derive(Drop, Clone, PartialEq, Eq, Hash)]
pub enum WherePredicate {
    /// A type has to fulfil a bound.
    TypeBound {
        /// The lifetimes of a `for<..>` before the type, if there is one.
        lifetimes: Option<Seq<Name>>,
        target: TypeRefId,
        bound: TypeBound,
    },
    /// A lifetime has to outlive another.
    Lifetime {
        target: LifetimeRefId,
        bound: LifetimeRefId,
    },
}

impl ExactEq for WherePredicate {
    ghost use Rattle.hir_signature.specs.same.SameData.{predicates_decide};

    ghost eq_decides = { predicates_decide };
}

impl TryClone for WherePredicate {
    ghost clone_is_same = { Prim.search exact };
}
