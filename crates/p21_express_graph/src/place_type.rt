use crate::type_use::TypeUse;

/// What may stand at a place of an instance (ISO 10303-11, Attribute redeclaration).
#[derive(Debug, Drop)]
pub enum PlaceType<'a> {
    /// A derived attribute.
    Derived,
    /// A value of the type, which is OPTIONAL or not.
    Stored(bool, &'a TypeUse),
    /// Entities redeclare the place, and none of them is a subtype of all others that do.
    Two,
}
