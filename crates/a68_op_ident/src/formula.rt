//! What a formula is made of.
use a68_base::Span;
use a68_tree::NodeId;

/// An operand: its node, and its stretch of the text.
#[derive(Clone, Copy)]
pub struct Operand {
    pub id: NodeId,
    pub span: Span,
}

/// A sign: its node, the number of its spelling, and the byte at which it begins.
#[derive(Clone, Copy)]
pub struct Sign {
    pub id: NodeId,
    pub name: u32,
    pub from: u32,
}

/// A part of a formula.
#[derive(Clone, Copy)]
pub enum FormulaPart {
    Operand(Operand),
    /// A sign before its one operand.
    Monad(Sign),
    /// A sign between two operands, and its priority, if any.
    Dyad(Sign, Option<u32>),
}
