ghost use Rattle.std.specs.Prelude.{◌<◌, ◌^◌, length};
ghost use Rattle.p21_spec_schema.specs.Declared.{HasNoCircle};
ghost use Rattle.p21_express_outline.specs.Finding.{DecidesClaim};
ghost use Rattle.p21_express_graph.specs.SettledOrder.{AreWithin, IsNext, lists_of};

use crate::fault::SchemaFault;
use p21_express_graph::settled_order;
use std::alloc::Global;

/// No chain of numbers comes back.
pub(crate) fn check_ends(alloc: Global, nexts: &[Vec<u32>]) -> Result<(), SchemaFault>
    requires few { length nexts.now < 2 ^ 32 }
    requires within { AreWithin (lists_of nexts.now) }
    ensures { DecidesClaim (HasNoCircle (IsNext (lists_of nexts.now))) result }
{
    match settled_order(alloc, nexts)? {
        Some(_listed) => Ok(()),
        None => Err(SchemaFault::Circular),
    }
}
