//! `WellFormedNodes`, nodes of which a tree can be made.
ghost use Rattle.std.specs.Prelude.{◌≡◌, IfOk, IfErr, OnOk, map};
ghost use Rattle.wasi_tree.specs.NodeData.{node_data};
ghost use Rattle.wasi_tree.specs.WellFormed.{AreFit, IsTreeCause};
ghost use Rattle.wasi_tree.specs.WellFormedNodes.{NodeList};

use crate::errors::TreeError;
use crate::node::NewNode;
use crate::well_formed::counted_names;
use std::alloc::Global;
use std::marker::Model;
use wasi_host::Limits;

/// A list of nodes of which a tree can be made within its limits, with how many entries give each node. Contracts see
/// the nodes and the limits. Only the test makes one, so what has one needn't test again.
#[derive(Debug, Drop)]
pub struct WellFormedNodes {
    pub(crate) nodes: Vec<NewNode>,
    pub(crate) counts: Vec<u64>,
    pub(crate) limits: Limits,
}

impl Model for WellFormedNodes {
    ghost use Rattle.wasi_tree.specs.WellFormedNodes.{NodeList, node_list_code, AreTested};
    ghost use Rattle.wasi_tree.specs.NodeData.{node_data};
    ghost use Rattle.std.specs.Prelude.{map};

    ghost Value = { NodeList };

    ghost coded = { node_list_code };

    ghost view = { λ a. record { nodes = map node_data a.nodes.items; limits = a.limits } };

    ghost invariant = { λ a. AreTested a.limits (map node_data a.nodes.items) a.counts.items };
}

impl WellFormedNodes {
    /// These nodes, whose numbers are their places in the list, where a tree can be made of them within these limits.
    ///
    /// The rules: Node 0 is a directory without a name. Each other directory has exactly one name and is found from
    /// node 0, or it is removed: it has no name and no entries. A name has 1 to 255 bytes, no NUL and no `/`, and isn't
    /// `.` or `..`; a directory holds it once, and gives it the number of a node. A link's text has 1 to 4,095 bytes
    /// and no NUL. No file has more than 2^30 bytes, no file or link more than `limits.links` names, and no number is
    /// at or above `limits.nodes`.
    ///
    /// Where a number breaks the rules the answer is `Invalid`, with the lowest one that does, or `Memory`, which is want
    /// of memory alone. A bad name, a name that stands twice, or an entry whose number is no node's counts for the
    /// directory that holds it. A wrong number of names, entries of a directory without a name, and not being found from
    /// node 0 count for the directory itself. A number at the limit, a count of names, a size or a link's text counts
    /// for its node. An empty list, or a node 0 that isn't a directory, is `Invalid(0)`.
    pub fn new(
        alloc: Global,
        nodes: Vec<NewNode>,
        limits: Limits,
    ) -> Result<WellFormedNodes, TreeError>
        ensures kept { IfOk result (λ f. f ≡ record { nodes = map node_data nodes.items; limits = limits }) }
        ensures fit { OnOk result (AreFit limits (map node_data nodes.items)) }
        ensures cause { IfErr result (IsTreeCause limits (map node_data nodes.items)) }
    {
        let counts = counted_names(alloc, &nodes, limits)?;
        Ok(WellFormedNodes {
            nodes,
            counts,
            limits,
        })
    }

    /// The nodes as they were given.
    pub fn list(&self) -> &Vec<NewNode>
        ensures nodes { map node_data result.now.items ≡ self.now.nodes }
        ensures fit { AreFit self.now.limits self.now.nodes }
    {
        &self.nodes
    }

    /// The limits of their tree.
    pub fn limits(&self) -> Limits
        ensures limits { result ≡ self.now.limits }
    {
        self.limits
    }
}
