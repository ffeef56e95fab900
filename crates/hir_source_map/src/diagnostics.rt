//! The diagnostics of lowering, which it gives in addition to nodes.
ghost use Rattle.hir_collections.specs.Exact.{exact};

use hir_base::{
    AstPtr, ExprPtr, InFile, LifetimePtr, MacroCallPtr, ModPath, Name, PatPtr, SyntaxNodePtr, ast,
};
use hir_collections::{ExactEq, Text, TryClone};

/// The kind of an item that has to have a body or a value.
#[derive(Clone, Copy, PartialEq, Eq, Hash)]
pub enum MissingBodyItemKind {
    /// A constant of a trait or an `impl`.
    AssocConst,
    /// A type of a trait or an `impl`.
    AssocType,
    /// A constant.
    Const,
    /// A static.
    Static,
    /// A type alias.
    TypeAlias,
}

impl ExactEq for MissingBodyItemKind {
    ghost eq_decides = { Prim.search exact };
}

impl TryClone for MissingBodyItemKind {
    ghost clone_is_same = { Prim.search exact };
}

/// The faults that lowering found, each with the node that it is about.
#[derive(Drop, PartialEq, Eq)]
pub enum ExpressionStoreDiagnostics {
    /// Code that a `cfg` leaves out.
    InactiveCode {
        node: InFile<SyntaxNodePtr>,
        /// The condition.
        cfg: Text,
        /// What it was tested against.
        opts: Text,
    },
    /// A call of a macro that isn't found.
    UnresolvedMacroCall {
        node: InFile<MacroCallPtr>,
        /// The path of the macro.
        path: ModPath,
    },
    /// A label outside of the function, the closure or the constant that names it.
    UnreachableLabel {
        node: InFile<LifetimePtr>,
        /// The label.
        name: Name,
    },
    /// An `.await` where nothing is asynchronous.
    AwaitOutsideOfAsync {
        node: InFile<AstPtr<ast::AwaitExpr>>,
        /// What the `.await` is in instead.
        location: Text,
    },
    /// A label that no enclosing loop or block has.
    UndeclaredLabel {
        node: InFile<LifetimePtr>,
        /// The label.
        name: Name,
    },
    /// A parameter of a foreign function that is a pattern.
    PatternArgInExternFn {
        node: InFile<PatPtr>,
    },
    /// A struct expression with a base, on the left of an assignment.
    FruInDestructuringAssignment {
        node: InFile<ExprPtr>,
    },
    /// An item without the body or the value that it has to have.
    MissingBody {
        node: InFile<SyntaxNodePtr>,
        /// What kind of item it is.
        kind: MissingBodyItemKind,
    },
}

impl ExactEq for ExpressionStoreDiagnostics {
    ghost use Rattle.hir_source_map.specs.same.SameDiagnostics.{diagnostics_decide};

    ghost eq_decides = { diagnostics_decide };
}
