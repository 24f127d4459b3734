//! `Base` stands in `p21_schema`, beside the look-ups, and not in `p21_express_graph`: many crates that stand
//! on the latter don't need it.
ghost use Rattle.p21_spec_schema.specs.Schema.{defined};
ghost use Rattle.p21_express_graph.specs.Meaning.{type_use};
ghost use Rattle.p21_express_graph.specs.DirectRenaming.{IsEnd};
ghost use Rattle.p21_express_graph.specs.Resolved.{IsType, IsTypeUse};
ghost use Rattle.p21_schema.specs.Base.{HasBase};

use crate::schema::Schema;
use p21_express_graph::{TypeId, TypeKind, TypeUse, Words, declared};

/// What a type comes down to where declared types just rename others (ISO 10303-11, Defined data type).
#[derive(Debug, Drop)]
pub enum Base<'a> {
    /// A type that is no declared one.
    Plain(&'a TypeUse),
    /// An enumeration with these items.
    Items(&'a Words),
    /// A select.
    Select(TypeId),
}

impl Schema {
    /// What a type of this schema comes down to. It takes no memory.
    pub fn base<'a>(&'a self, of: &'a TypeUse) -> Base<'a>
        requires { IsTypeUse self.now (type_use of.now) }
        ensures { HasBase self.now (type_use of.now) result }
    {
        match declared(of) {
            Some(t) => self.base_of(t),
            None => Base::Plain(of),
        }
    }

    /// What a declared type comes down to.
    fn base_of(&self, of: TypeId) -> Base<'_>
        requires { IsType self.now of.0 }
        ensures { HasBase self.now (defined of.0) result }
    {
        let last = self.end(of);
        match self.type_kind(last) {
            TypeKind::Alias(direct_renaming) => Base::Plain(direct_renaming),
            TypeKind::Items(words) => Base::Items(words),
            TypeKind::Choice(_) => Base::Select(last),
        }
    }

    /// The last one of the types that a type renames, one behind the other.
    fn end(&self, of: TypeId) -> TypeId
        requires { IsType self.now of.0 }
        ensures { IsEnd self.now of.0 result.0 }
    {
        TypeId(self.tables.ends[of.0 as usize])
    }
}
