//! What comes in a node's place: one node, or two with a separator between them.
ghost use Rattle.std.specs.Prelude.{◌∷◌, [], IfOk};
ghost use Rattle.btree.specs.Nodes.{HasNodes};

use crate::lists::{list_of_one, list_of_two};
use std::alloc::{AllocError, Global};

/// Nodes, and the separators between them, which can stand among others.
#[derive(Drop)]
pub struct Siblings<K, N> {
    pub separators: Vec<K>,
    pub nodes: Vec<N>,
}

impl<K: Drop, N: Drop> Siblings<K, N> {
    pub fn one(alloc: Global, node: N) -> Result<Siblings<K, N>, AllocError>
        ensures { IfOk result (λ siblings. HasNodes siblings [] (node ∷ [])) }
    {
        Ok(Siblings {
            separators: Vec::new(alloc),
            nodes: list_of_one(alloc, node)?,
        })
    }

    pub fn two(alloc: Global, left: N, separator: K, right: N) -> Result<Siblings<K, N>, AllocError>
        ensures { IfOk result (λ siblings. HasNodes siblings (separator ∷ []) (left ∷ right ∷ [])) }
    {
        let nodes = list_of_two(alloc, left, right)?;
        let separators = list_of_one(alloc, separator)?;
        Ok(Siblings { separators, nodes })
    }
}
