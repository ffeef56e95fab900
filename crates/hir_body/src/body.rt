//! Bodies: an accepted store, the formal parameters, and the last root, which is what the body evaluates to.

ghost use Rattle.std.specs.Prelude.{◌≡◌, ◌<◌, ◌⊎◌, ◌↔◌, All, None, Some, IfOk, IfErr, IfSome, IsTrue, length};
ghost use Rattle.hir_body.specs.Bodies.{body_of, body_fault, last_root, AreBelow, IsAnySelf};

use crate::body_fault::{BodyFault, first_fault, last_root};
use crate::formals::Param;
use hir_collections::{ExactEq, Seq};
use hir_node::{BindingId, ExprId, PatId};
use hir_store_core::ExpressionStore;
use hir_store_core::laws::roots_stand_apart;
use std::alloc::{AllocError, Global};
use std::fmt::{self, Display};
use std::marker::Model;

/// The body of a function, a constant, a static or an enum variant: its store, the patterns of its parameters
/// and the binding of its `self`. It has no fault: it has a root, what the parameters name exists, and
/// neither a formal nor the last root is a descendant of another of them.
///
/// The last root is what the body evaluates to. Earlier roots are expressions in the patterns of parameters,
/// whose types are inferred by themselves: in `fn f(Wrap::<{ 1 + 1 }>(x): Wrap<2>) -> u8 { x }` the roots are
/// `{ 1 + 1 }`, which is under the formal pattern, and then `{ x }`. A body is *reached* from its formals and
/// its last root: an earlier root that is under no formal isn't.
#[derive(PartialEq, Eq)]
pub struct Body {
    store: ExpressionStore,
    params: Seq<Param<PatId>>,
    self_param: Option<Param<BindingId>>,
}

/// Drops the parts one after the other. This `impl` exists so that the drop is proved once, and is a call
/// where a value is dropped.
impl Drop for Body {
    fn drop(self) {
        let Body {
            store,
            params,
            self_param,
        } = self;
    }
}

impl Model for Body {
    ghost use Rattle.std.specs.Prelude.{None};
    ghost use Rattle.hir_body.specs.Bodies.{BodyContents, body_of, body_fault};

    ghost Value = { BodyContents };

    ghost use Rattle.std.specs.Coded.{codes};
    ghost use Rattle.hir_store_core.specs.contracts.store.ExpressionStore as stored;

    ghost coded = { Prim.hlevel (codes, stored.the_row.coded) };

    ghost view = { λ b. record { store = b.store; params = b.params; self_param = b.self_param } };

    ghost inverse = { λ b. record { store = b.store; params = b.params; self_param = b.self_param } };

    ghost invariant = { λ b. body_fault (body_of b.store b.params b.self_param) None };
}

/// The parts of a body that was refused, as they were, with their first fault.
#[derive(Drop, PartialEq, Eq)]
#[derive_where(Debug)]
pub struct RefusedBody {
    pub fault: BodyFault,
    #[derive_where(skip(Debug))]
    pub store: ExpressionStore,
    #[derive_where(skip(Debug))]
    pub params: Seq<Param<PatId>>,
    #[derive_where(skip(Debug))]
    pub self_param: Option<Param<BindingId>>,
}

/// Writes the text of its fault.
impl Display for RefusedBody {
    ghost use Rattle.hir_body.specs.FaultTexts.{body_fault_text};

    ghost output = { λ refused. Some (body_fault_text refused.fault) };

    fn fmt<W: fmt::Write>(&self, f: &mut fmt::Formatter<W>) -> fmt::Result {
        Display::fmt(&self.fault, f)
    }
}

impl std::error::Error for RefusedBody {}

/// A body that isn't tested yet.
#[derive(Drop)]
struct UntestedBody {
    store: ExpressionStore,
    params: Seq<Param<PatId>>,
    self_param: Option<Param<BindingId>>,
}

impl UntestedBody {
    ghost use Rattle.hir_body.specs.internal.RefusedBodies.{refused_body};

    /// Returns the first fault.
    fn first_fault(&self, alloc: Global) -> Result<Option<BodyFault>, AllocError>
        ensures { IfOk result (body_fault (body_of self.now.store self.now.params self.now.self_param)) }
    {
        first_fault(alloc, &self.store, self.params.as_slice(), self.self_param)
    }

    /// Returns the body, which has no fault.
    fn into_body(self) -> Body
        requires { body_fault (body_of self.store self.params self.self_param) None }
        ensures { result ≡ body_of self.store self.params self.self_param }
    {
        let UntestedBody {
            store,
            params,
            self_param,
        } = self;
        Body {
            store,
            params,
            self_param,
        }
    }

    /// Gives the parts back with this fault.
    fn into_refusal(self, fault: BodyFault) -> RefusedBody
        ensures { result ≡ refused_body fault self.store self.params self.self_param }
    {
        let UntestedBody {
            store,
            params,
            self_param,
        } = self;
        RefusedBody {
            fault,
            store,
            params,
            self_param,
        }
    }
}

impl Body {
    /// Returns a body of these parts where they have no fault, and else the first fault, or `Memory` where an
    /// allocation fails, and the parts as they were.
    ///
    /// It takes time in the number of nodes and parameters, and doesn't recurse.
    pub fn new(
        alloc: Global,
        store: ExpressionStore,
        params: Seq<Param<PatId>>,
        self_param: Option<Param<BindingId>>,
    ) -> Result<Body, RefusedBody>
        ensures ok { IfOk result (λ body. (body ≡ body_of store params self_param)
            × body_fault (body_of store params self_param) None) }
        ensures fault { IfErr result (λ refused. refused.fault ≡ BodyFault.Memory
            ⊎ body_fault (body_of store params self_param) (Some refused.fault)) }
        ensures parts { IfErr result (λ refused.
            (refused.store ≡ store) × (refused.params ≡ params) × (refused.self_param ≡ self_param)) }
    {
        let untested = UntestedBody {
            store,
            params,
            self_param,
        };
        let fault = match untested.first_fault(alloc) {
            Ok(None) => return Ok(untested.into_body()),
            Ok(Some(fault)) => fault,
            Err(_) => BodyFault::Memory,
        };
        Err(untested.into_refusal(fault))
    }

    /// Tells a proof that the body has no fault, and does nothing.
    pub fn has_no_fault(&self)
        ensures { body_fault self.now None }
    {
        let _ = &self.store;
    }

    /// Returns the nodes and roots.
    pub fn store(&self) -> &ExpressionStore
        ensures { result.now ≡ self.now.store }
    {
        &self.store
    }

    /// Returns the parameters in their order, without `self`. Both patterns of each are in the store.
    pub fn params(&self) -> &[Param<PatId>]
        ensures params { result.now ≡ self.now.params }
        ensures in_range { All (AreBelow (length self.now.store.nodes.pats)) result.now }
    {
        self.params.as_slice()
    }

    /// Returns the `self` parameter, where the body has one. Both bindings of it are in the store.
    pub fn self_param(&self) -> Option<Param<BindingId>>
        ensures self_param { result ≡ self.now.self_param }
        ensures in_range { IfSome result (AreBelow (length self.now.store.nodes.bindings)) }
    {
        self.self_param
    }

    /// Returns what the body evaluates to: the last root, which is in the store. Earlier roots belong to the
    /// patterns of parameters.
    pub fn root_expr(&self) -> ExprId
        ensures last { Some result ≡ last_root self.now.store }
        ensures in_range { result < length self.now.store.nodes.exprs }
    {
        self.store.has_no_fault();
        roots_stand_apart();
        match last_root(&self.store) {
            Some(root) => root,
            None => unreachable!(),
        }
    }

    /// Returns whether this is the binding of `self`: the formal or the one that the user wrote.
    pub fn is_any_self_param(&self, binding: BindingId) -> bool
        ensures { IsTrue result ↔ IsAnySelf self.now binding }
    {
        match self.self_param {
            Some(param) => param.formal == binding || param.user_written == binding,
            None => false,
        }
    }
}

impl ExactEq for Body {
    ghost use Rattle.hir_body.specs.same.SameBodies.{bodies_decide};

    ghost eq_decides = { bodies_decide };
}
