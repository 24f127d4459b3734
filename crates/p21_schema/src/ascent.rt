ghost use Rattle.std.specs.Prelude.{◌≡◌, ◌↔◌, ◌⊎◌, ◌<◌, [], ℕ, length, Contains, IfOk, OnOk};
ghost use Rattle.std.specs.List.Sorted.{IsStrictlyIncreasing};
ghost use Rattle.p21_spec_schema.specs.Declared.{HasSupertype};
ghost use Rattle.p21_spec_schema.specs.Supertype.{IsA, supertypes_of};
ghost use Rattle.p21_express_graph.specs.Lookups.{AreEntities};
ghost use Rattle.p21_express_graph.specs.Orders.{numbers};
ghost use Rattle.p21_express_graph.specs.Resolved.{IsEntity};
ghost use Rattle.p21_schema.specs.Above.{AreAbove};
ghost use Rattle.p21_schema.specs.Ascent.{Ascends, AscendsFurther};

use crate::schema::Schema;
use p21_express_graph::{EntityId, rising_numbers};
use p21_values::NoMemory;
use std::alloc::Global;

/// Supertypes that are found on the way up: which entities are among them, and they in the order in which they are found.
#[derive(Drop)]
struct Ascent {
    marked: Vec<bool>,
    above: Vec<u32>,
}

impl Schema {
    /// The direct supertypes of an entity, as listed. It takes no memory.
    pub fn supertypes(&self, entity: EntityId) -> &[EntityId]
        requires { IsEntity self.now entity.0 }
        ensures { numbers result.now ≡ supertypes_of self.now entity.0 }
    {
        &self.entity_at(entity).supertypes
    }

    /// The numbers of the proper supertypes of entities, rising.
    pub(crate) fn all_above(&self, entities: &[EntityId]) -> Result<Vec<u32>, NoMemory>
        requires { AreEntities self.now (numbers entities.now) }
        ensures rising { IfOk result (λ above. IsStrictlyIncreasing above.items) }
        ensures above { IfOk result (λ above. AreAbove self.now (numbers entities.now) above.items) }
    {
        self.holds_together();
        let mut ascent = Ascent::new(self.alloc, self.entities())?;
        self.find_next(entities, &mut ascent)?;
        self.find_rest(&mut ascent)?;
        Ok(rising_numbers(ascent.above))
    }

    /// Finds the direct supertypes of entities.
    fn find_next(&self, entities: &[EntityId], ascent: &mut Ascent) -> Result<(), NoMemory>
        requires entities { AreEntities self.now (numbers entities.now) }
        requires ascends { Ascends ascent.old }
        requires size { length ascent.old.marked.items ≡ length self.now.entities }
        ensures goes_on { OnOk result (AscendsFurther ascent.old ascent.new) }
        ensures found { OnOk result ((f : ℕ) → Contains ascent.new.above.items f
            ↔ (Contains ascent.old.above.items f ⊎ ((e : ℕ) × Contains (numbers entities.now) e × HasSupertype self.now e f))) }
    {
        self.holds_together();
        for entity in entities {
            ascent.add(self.supertypes(*entity))?;
        }
        Ok(())
    }

    /// Finds the supertypes of those that are found.
    fn find_rest(&self, ascent: &mut Ascent) -> Result<(), NoMemory>
        requires ascends { Ascends ascent.old }
        requires size { length ascent.old.marked.items ≡ length self.now.entities }
        ensures kept { OnOk result ((f : ℕ) → Contains ascent.old.above.items f → Contains ascent.new.above.items f) }
        ensures within { OnOk result ((f : ℕ) → Contains ascent.new.above.items f
            → (e : ℕ) × Contains ascent.old.above.items e × IsA self.now e f) }
        ensures closed { OnOk result ((e f : ℕ) → Contains ascent.new.above.items e → HasSupertype self.now e f
            → Contains ascent.new.above.items f) }
    {
        self.holds_together();
        for at in 0..self.entities() {
            if at >= ascent.above.len() {
                return Ok(());
            }
            let entity = EntityId(ascent.above[at]);
            ascent.add(self.supertypes(entity))?;
        }
        Ok(())
    }
}

impl Ascent {
    /// None of so many entities is found.
    fn new(alloc: Global, count: usize) -> Result<Ascent, NoMemory>
        ensures ascends { IfOk result Ascends }
        ensures size { IfOk result (λ ascent. length ascent.marked.items ≡ count) }
        ensures empty { IfOk result (λ ascent. ascent.above.items ≡ []) }
    {
        let marked = vec![in alloc; false; count]?;
        Ok(Ascent {
            marked,
            above: Vec::new(alloc),
        })
    }

    /// Finds supertypes, each of them once.
    fn add(&mut self, supertypes: &[EntityId]) -> Result<(), NoMemory>
        requires ascends { Ascends self.old }
        requires within { (f : ℕ) → Contains (numbers supertypes.now) f → f < length self.old.marked.items }
        ensures goes_on { OnOk result (AscendsFurther self.old self.new) }
        ensures found { OnOk result ((f : ℕ) → Contains self.new.above.items f
            ↔ (Contains self.old.above.items f ⊎ Contains (numbers supertypes.now) f)) }
    {
        for supertype in supertypes {
            self.add_one(*supertype)?;
        }
        Ok(())
    }

    /// Finds a supertype, unless it is found already.
    fn add_one(&mut self, supertype: EntityId) -> Result<(), NoMemory>
        requires ascends { Ascends self.old }
        requires within { supertype.0 < length self.old.marked.items }
        ensures goes_on { OnOk result (AscendsFurther self.old self.new) }
        ensures found { OnOk result ((f : ℕ) → Contains self.new.above.items f ↔ (Contains self.old.above.items f ⊎ (f ≡ supertype.0))) }
    {
        let at = supertype.0 as usize;
        if self.marked[at] {
            return Ok(());
        }
        self.marked[at] = true;
        self.above.push(supertype.0)?;
        Ok(())
    }
}
