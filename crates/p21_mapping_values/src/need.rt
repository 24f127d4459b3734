use p21_express_graph::Member;
use p21_values::Name;

/// A reference: the instance name, and the entity or select that is wanted there.
#[derive(Clone, Copy, Debug, PartialEq, Eq)]
pub struct Need {
    pub target: Name,
    pub wanted: Member,
}
