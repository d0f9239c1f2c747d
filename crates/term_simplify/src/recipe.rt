//! A plan, and further bits above what it makes.

ghost use Rattle.std.specs.Prelude.{◌≡◌, ◌+◌, ◌≤◌};
ghost use Rattle.bv_dag.specs.Graphs.{Graph};
ghost use Rattle.term_trees.specs.Trees.{Tree};
ghost use Rattle.term_simplify.specs.Plans.{Follows, Makes, stacked};

use crate::plan::Plan;

/// How many bits stand above a term: copies of its sign, and zeros above these.
#[derive(Clone, Copy, Debug)]
pub(crate) struct Above {
    pub signs: u32,
    pub zeros: u32,
}

/// A plan, and the bits above what it makes.
#[derive(Clone, Copy, Debug)]
pub(crate) struct Recipe {
    pub core: Plan,
    pub above: Above,
}

/// What a plan makes, alone.
pub(crate) fn alone(plan: Plan) -> Recipe
    ensures { (graph : Graph) (tree : Tree) → Makes graph plan tree → Follows graph result tree }
{
    Recipe {
        core: plan,
        above: Above { signs: 0, zeros: 0 },
    }
}

/// The bits above a term, where `by` further ones stand under them.
pub(crate) fn stacked(above: Above, by: u32, signed: bool) -> Above
    requires { above.signs + by + above.zeros ≤ 64 }
    ensures { result ≡ stacked above by signed }
{
    if signed {
        Above {
            signs: above.signs + by,
            zeros: above.zeros,
        }
    } else {
        Above {
            signs: 0,
            zeros: above.signs + by + above.zeros,
        }
    }
}
