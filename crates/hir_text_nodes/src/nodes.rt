//! Nodes by their arena and number, as `expr:3`.

use crate::forms::{Read, Write, join, part};
use hir_node::{BindingId, ExprId, ExprOrPatId, LabelId, LifetimeRefId, NodeId, PatId, TypeRefId};
use hir_text_words::{Answer, TextError, Words};
use std::alloc::AllocError;

/// A node of an arena.
#[derive(Clone, Copy)]
pub enum Node {
    Expr(ExprId),
    Pat(PatId),
    Type(TypeRefId),
    Binding(BindingId),
    Label(LabelId),
    Lifetime(LifetimeRefId),
}

impl Read for Node {
    fn read(words: &mut Words<'_>) -> Result<Node, TextError> {
        Ok(match words.keyword() {
            "expr" => Node::Expr(part(words)?),
            "pat" => Node::Pat(part(words)?),
            "type" => Node::Type(part(words)?),
            "binding" => Node::Binding(part(words)?),
            "label" => Node::Label(part(words)?),
            "lifetime" => Node::Lifetime(part(words)?),
            _ => return Err(TextError::Syntax),
        })
    }
}

impl Read for ExprOrPatId {
    fn read(words: &mut Words<'_>) -> Result<ExprOrPatId, TextError> {
        match Node::read(words)? {
            Node::Expr(id) => Ok(ExprOrPatId::ExprId(id)),
            Node::Pat(id) => Ok(ExprOrPatId::PatId(id)),
            Node::Type(_) | Node::Binding(_) | Node::Label(_) | Node::Lifetime(_) => {
                Err(TextError::Syntax)
            }
        }
    }
}

impl Read for NodeId {
    fn read(words: &mut Words<'_>) -> Result<NodeId, TextError> {
        match Node::read(words)? {
            Node::Expr(id) => Ok(NodeId::Expr(id)),
            Node::Pat(id) => Ok(NodeId::Pat(id)),
            Node::Type(id) => Ok(NodeId::TypeRef(id)),
            Node::Binding(_) | Node::Label(_) | Node::Lifetime(_) => Err(TextError::Syntax),
        }
    }
}

impl Write for ExprOrPatId {
    fn write(&self, answer: &mut Answer) -> Result<(), AllocError> {
        match self {
            ExprOrPatId::ExprId(id) => join(answer, "expr:", id),
            ExprOrPatId::PatId(id) => join(answer, "pat:", id),
        }
    }
}

impl Write for NodeId {
    fn write(&self, answer: &mut Answer) -> Result<(), AllocError> {
        match self {
            NodeId::Expr(id) => join(answer, "expr:", id),
            NodeId::Pat(id) => join(answer, "pat:", id),
            NodeId::TypeRef(id) => join(answer, "type:", id),
        }
    }
}
