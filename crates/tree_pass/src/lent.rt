// A tree that is lent.
ghost use Rattle.std.specs.Prelude.{◌-◌, ◌≤◌};
ghost use Rattle.base.specs.Limits.{max_vertices};
ghost use Rattle.tree_pass.specs.Inner.{Rows, rows_once};

// A tree, lent as its rows in growth order: row i has the parent and the child of edge i, and each position but the first is one row's child.
#[derive(Clone, Copy)]
pub struct Tree<'a> {
    pub parents: &'a [u16],
    pub children: &'a [u16],
    pub positions: usize,
    // its edges lie between its positions, in an order in which they grow from 0
    pub ghost grows: { Rows parents.now children.now positions (positions - 1) } by { rows_once parents.now children.now positions (positions - 1) },
    pub ghost most: { positions ≤ max_vertices },
}
