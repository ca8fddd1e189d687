// Nodes of a curve in their order.
use crate::CurveNode;
use std::alloc::{AllocError, Global};
use std::marker::Model;

/// Nodes in their order. A clause sees the list of them.
#[derive(Debug)]
pub struct NodeList {
    nodes: Vec<CurveNode>,
}

// One call at each exit of who lets it go.
impl Drop for NodeList {
    fn drop(self) {
        let NodeList { nodes: _ } = self;
    }
}

impl Model for NodeList {
    ghost use Rattle.std.specs.Prelude.{List};
    ghost use Rattle.curve_points.specs.declared.curves.CurveNode.{CurveNode};

    ghost Value = { List CurveNode };

    ghost view = { λ list. list.nodes.items };
}

impl NodeList {
    ghost use Rattle.std.specs.Prelude.{◌≡◌, ◌++◌, ◌∷◌, [], ◌<◌, length, slice_get, Some, OnOk, OnErr, IfOk};

    /// No nodes, which take no memory.
    pub fn new(alloc: Global) -> NodeList
        ensures { result ≡ [] }
    {
        NodeList {
            nodes: Vec::new(alloc),
        }
    }

    /// How many nodes there are.
    pub fn len(&self) -> usize
        ensures { result ≡ length self.now }
    {
        self.nodes.len()
    }

    /// The node at a place, counted from 0.
    pub fn get(&self, at: usize) -> &CurveNode
        requires { at < length self.now }
        ensures { slice_get self.now at ≡ Some result.now }
    {
        &self.nodes[at]
    }

    /// The nodes as a slice.
    pub fn items(&self) -> &[CurveNode]
        ensures { result.now ≡ self.now }
    {
        &self.nodes
    }

    /// Appends a node, or leaves the list as it was where memory is wanting.
    pub fn push(&mut self, node: CurveNode) -> Result<(), AllocError>
        ensures ok { OnOk result (self.new ≡ self.old ++ node ∷ []) }
        ensures err { OnErr result (self.new ≡ self.old) }
    {
        self.nodes.push(node)?;
        Ok(())
    }

    /// The same nodes once more, in one allocation.
    pub fn copy(&self, alloc: Global) -> Result<NodeList, AllocError>
        ensures { IfOk result (λ copy. copy ≡ self.now) }
    {
        let mut nodes = Vec::with_capacity(alloc, self.nodes.len())?;
        nodes.extend_from_slice(&self.nodes)?;
        Ok(NodeList { nodes })
    }
}
