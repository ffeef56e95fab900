//! Bodies: parts that are refused come back as they were given, and what an accepted body gives is in its
//! store.
use crate::memory::push;
use crate::trees::{self, BindingOf, One, PatOf, Tree};
use hir_body::{Body, BodyFault, Param, RefusedBody, laws};
use hir_collections::{Idx, Seq};
use hir_node::{Expr, Literal, Pat, PatId};
use std::alloc::{AllocError, Global};
use std::test::Fail;

/// The numbers of a parameter and of what the user wrote of it.
type Numbers = (u32, u32);

/// A pattern `_`, and `1` as the root.
const WILD: Tree = Tree {
    bindings: &[],
    pats: &[PatOf::Wild],
    exprs: &[One],
    roots: Some(&[0]),
};

/// A pattern `_`, and `1`, which is no root.
const NO_ROOT: Tree = Tree {
    bindings: &[],
    pats: &[PatOf::Wild],
    exprs: &[One],
    roots: Some(&[]),
};

/// The pattern `1..`, and its `1` as the root.
const RANGE: Tree = Tree {
    bindings: &[],
    pats: &[PatOf::RangeFrom(0)],
    exprs: &[One],
    roots: Some(&[0]),
};

/// `x @ _`, where the inner pattern is 0 and the outer one 1, and `1` as the root.
const NESTED: Tree = Tree {
    bindings: &[BindingOf("x")],
    pats: &[PatOf::Wild, PatOf::Bind(0, Some(0))],
    exprs: &[One],
    roots: Some(&[0]),
};

/// The bindings `self`, `copy` and `x`, a pattern `_`, and `1` as the root.
const METHOD: Tree = Tree {
    bindings: &[BindingOf("self"), BindingOf("copy"), BindingOf("x")],
    pats: &[PatOf::Wild],
    exprs: &[One],
    roots: Some(&[0]),
};

/// A tree, the parameters and `self`; and why the body is refused, where it is.
type Case = (Tree, &'static [Numbers], Option<Numbers>, Option<BodyFault>);

/// A case of each fault, and such as are accepted, with `self` and without.
const CASES: &[Case] = &[
    (NO_ROOT, &[(9, 9)], Some((5, 5)), Some(BodyFault::NoRoot)),
    (
        METHOD,
        &[(0, 0)],
        Some((0, 3)),
        Some(BodyFault::SelfOutOfRange),
    ),
    (
        WILD,
        &[(0, 0), (9, 9)],
        None,
        Some(BodyFault::ParamOutOfRange(1)),
    ),
    (
        WILD,
        &[(0, 0), (0, 0)],
        None,
        Some(BodyFault::ParamRepeated(1)),
    ),
    (
        NESTED,
        &[(1, 1), (0, 0)],
        None,
        Some(BodyFault::ParamUnder(1)),
    ),
    (RANGE, &[(0, 0)], None, Some(BodyFault::RootInParam)),
    (METHOD, &[(0, 0)], Some((0, 1)), None),
    (NESTED, &[(1, 1)], None, None),
];

/// The parameter of these numbers.
fn param<K>(numbers: Numbers) -> Param<Idx<K>> {
    Param {
        formal: Idx::from_raw(numbers.0),
        user_written: Idx::from_raw(numbers.1),
    }
}

/// The list of the parameters of these numbers.
fn list_of(alloc: Global, numbers: &[Numbers]) -> Result<Seq<Param<PatId>>, AllocError> {
    let mut list = Seq::new(alloc);
    for numbers in numbers {
        push(&mut list, param(*numbers))?;
    }
    Ok(list)
}

/// Whether these are the parameters of those numbers.
fn are(params: &[Param<PatId>], numbers: &[Numbers]) -> bool {
    for (found, numbers) in params.iter().zip(numbers) {
        if *found != param(*numbers) {
            return false;
        }
    }
    params.len() == numbers.len()
}

/// What the body evaluates to. An id that a body gives is in its store: nothing is tested first.
fn value_of(body: &Body) -> &Expr {
    &body.store()[body.root_expr()]
}

/// Whether each parameter is a pattern, as the body has it and as the user wrote it.
fn has_patterns(body: &Body) -> bool {
    for param in body.params() {
        let formal = &body.store()[param.formal];
        let user_written = &body.store()[param.user_written];
        if *formal == Pat::Missing || *user_written == Pat::Missing {
            return false;
        }
    }
    true
}

/// Whether the binding of `self` is called so, where there is one.
fn has_self(body: &Body) -> bool {
    match body.self_param() {
        Some(param) => body.store()[param.formal].name.as_str() == "self",
        None => true,
    }
}

/// What tests ask of a body that is accepted, and of one that is refused.
trait Answered {
    /// Whether it is what is wanted, and its parts are present, or come back, as they were given. Where an
    /// allocation fails, that is the error.
    fn is_wanted(&self, case: &Case) -> Result<bool, BodyFault>;
}

/// That it equals itself is asked too; that it has no fault is a fact of every body.
impl Answered for Body {
    fn is_wanted(&self, case: &Case) -> Result<bool, BodyFault> {
        let (_, params, self_param, wanted) = case;
        self.has_no_fault();
        Ok(
            wanted.is_none()
                && are(self.params(), params)
                && self.self_param() == self_param.map(param)
                && *value_of(self) == Expr::Literal(Literal::Int(1, None))
                && has_patterns(self)
                && has_self(self)
                && *self == *self,
        )
    }
}

impl Answered for RefusedBody {
    fn is_wanted(&self, case: &Case) -> Result<bool, BodyFault> {
        let (_, params, self_param, wanted) = case;
        if self.fault == BodyFault::Memory {
            return Err(BodyFault::Memory);
        }
        Ok(
            *wanted == Some(self.fault)
                && are(self.params.as_slice(), params)
                && self.self_param == self_param.map(param)
                && self.store.has_expr(Idx::from_raw(0)),
        )
    }
}

/// Whether the outcome is the one that is wanted. It is said of any type, so that no large one is laid out
/// here.
fn answers<B: Answered + Drop, R: Answered + Drop>(
    outcome: Result<B, R>,
    case: &Case,
) -> Result<bool, BodyFault> {
    match outcome {
        Ok(body) => body.is_wanted(case),
        Err(refused) => refused.is_wanted(case),
    }
}

/// The body of what was given back.
fn made_again(alloc: Global, refused: RefusedBody) -> Result<Body, RefusedBody> {
    let RefusedBody {
        fault: _,
        store,
        params,
        self_param,
    } = refused;
    Body::new(alloc, store, params, self_param)
}

/// Whether the body of these parameters in the store of the tree, or its refusal, is the one that is wanted.
/// A body that is refused is made again of what was given back: it has its fault again, and where an
/// allocation fails it is accepted.
fn is_answered(alloc: Global, case: &Case) -> Result<bool, Fail> {
    let (tree, params, self_param, _) = case;
    let store = trees::store(alloc, &[], tree)?;
    let params = list_of(alloc, params)?;
    let self_param = self_param.map(param);
    let outcome = match Body::new(alloc, Box::into_inner(store), params, self_param) {
        Ok(body) => Ok(body),
        Err(refused) => made_again(alloc, refused),
    };
    Ok(answers(outcome, case)?)
}

#[test]
fn faults_and_parts(rt: HostRuntime) -> Result<(), Fail> {
    laws::first_body_fault_unique();
    laws::entry_nodes_are_in_range();
    laws::entry_nodes_are_disjoint();
    laws::nodes_of_a_body_are_in_range();
    laws::what_a_body_reaches_is_listed();
    for (i, case) in CASES.iter().enumerate() {
        assert!(&rt; is_answered(rt.alloc(), case)?, "case {i}");
    }
    Ok(())
}
