//! What a case has: lines that make nodes, and what some of these are printed as.

/// What is printed: a node by its number, or a path.
#[derive(Clone, Copy)]
pub enum Asked {
    /// An expression, in lines.
    Expr(u32),
    /// A pattern, in lines.
    Pat(u32),
    /// A pattern, in one line.
    PatInOneLine(u32),
    /// A path, as golden cases write it.
    Path(&'static str),
}

/// The lines that make the nodes of a store, as golden cases have them, and what is printed of the store: a
/// text, or the first definition that is missing.
pub struct Case {
    pub nodes: &'static str,
    pub printed: &'static [(Asked, &'static str)],
}
