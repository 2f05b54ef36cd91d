ghost use Rattle.std.specs.Prelude.{◌≡◌, ◌+◌, min, max};

/// How many nodes expressions have, and how high the highest is. Each number stops at 4294967295.
#[derive(Clone, Copy)]
pub(crate) struct Extent {
    pub(crate) nodes: u32,
    pub(crate) high: u32,
}

/// How many statements there are, how many nodes their expressions have, and how high the highest
/// statement is. Each number stops at 4294967295.
#[derive(Clone, Copy)]
pub(crate) struct Size {
    pub(crate) count: u32,
    pub(crate) nodes: u32,
    pub(crate) height: u32,
}

/// No expression.
pub(crate) const NO_EXTENT: Extent = Extent { nodes: 0, high: 0 };

/// An expression without operands.
pub(crate) const LEAF: Extent = Extent { nodes: 1, high: 1 };

/// No statement.
pub(crate) const NO_SIZE: Size = Size {
    count: 0,
    nodes: 0,
    height: 0,
};

/// The ones and the others.
pub(crate) fn beside(one: Extent, other: Extent) -> Extent
    ensures nodes { result.nodes ≡ min (one.nodes + other.nodes) 4294967295 }
    ensures high { result.high ≡ max one.high other.high }
{
    Extent {
        nodes: one.nodes.saturating_add(other.nodes),
        high: one.high.max(other.high),
    }
}

/// An operator with such operands.
pub(crate) fn raised(operands: Extent) -> Extent
    ensures nodes { result.nodes ≡ min (operands.nodes + 1) 4294967295 }
    ensures high { result.high ≡ min (operands.high + 1) 4294967295 }
{
    Extent {
        nodes: operands.nodes.saturating_add(1),
        high: operands.high.saturating_add(1),
    }
}

/// The target of an assignment, with such an index.
pub(crate) fn indexed(index: Extent) -> Extent
    ensures nodes { result.nodes ≡ index.nodes }
    ensures high { result.high ≡ min (index.high + 1) 4294967295 }
{
    Extent {
        nodes: index.nodes,
        high: index.high.saturating_add(1),
    }
}

/// The ones and the others.
pub(crate) fn together(one: Size, other: Size) -> Size
    ensures count { result.count ≡ min (one.count + other.count) 4294967295 }
    ensures nodes { result.nodes ≡ min (one.nodes + other.nodes) 4294967295 }
    ensures height { result.height ≡ max one.height other.height }
{
    Size {
        count: one.count.saturating_add(other.count),
        nodes: one.nodes.saturating_add(other.nodes),
        height: one.height.max(other.height),
    }
}

/// A statement with such expressions, round these.
pub(crate) fn around(expressions: Extent, inner: Size) -> Size
    ensures count { result.count ≡ min (inner.count + 1) 4294967295 }
    ensures nodes { result.nodes ≡ min (expressions.nodes + inner.nodes) 4294967295 }
    ensures height { result.height ≡ min (max expressions.high inner.height + 1) 4294967295 }
{
    Size {
        count: inner.count.saturating_add(1),
        nodes: expressions.nodes.saturating_add(inner.nodes),
        height: expressions.high.max(inner.height).saturating_add(1),
    }
}
