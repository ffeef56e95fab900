//! The coroutine of an `async` closure, and the closure of a coroutine: lowering puts the one right before
//! the other.

ghost use Rattle.std.specs.Prelude.{◌≡◌, ◌+◌, ◌-◌, ◌<◌};

use crate::store::ExpressionStore;
use hir_node::ExprId;

impl ExpressionStore {
    /// Returns the coroutine that an `async` closure becomes, which is one expression before it. The closure
    /// can't be expression 0.
    pub fn coroutine_for_closure(coroutine_closure: ExprId) -> ExprId
        requires { 0 < coroutine_closure }
        ensures { result ≡ coroutine_closure - 1 }
    {
        ExprId::from_raw(coroutine_closure.into_raw() - 1)
    }

    /// Returns the `async` closure of a coroutine, which is one expression after it. The coroutine can't be
    /// expression 4,294,967,295.
    pub fn closure_for_coroutine(coroutine: ExprId) -> ExprId
        requires { coroutine < 4294967295 }
        ensures { result ≡ coroutine + 1 }
    {
        ExprId::from_raw(coroutine.into_raw() + 1)
    }
}
