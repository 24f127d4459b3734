//! Which instances refer to an instance.
//!
//! The references of an accepted file are found once, by a walk over its lines, and stand in a table by the name that is
//! used (`p21_model_uses`): no line knows who refers to it. Each stands there once, however often its attribute has the name,
//! since who asks wants to know which attributes lead to an instance. Nothing in the table changes, so threads read it side by
//! side. While it is made a reference takes 24 bytes more.
ghost use Rattle.std.specs.Prelude.{◌≡◌, ◌++◌, List, IfErr, IfOk, filter, length, nat_eq};
ghost use Rattle.p21_express_graph.specs.Meaning.{place as place_of};
ghost use Rattle.p21_model.specs.Kept.{AreStated, HaveOneLine};
ghost use Rattle.p21_model.specs.Rows.{AreRowsOf, Row};
ghost use Rattle.p21_model.specs.Uses.{AreUsesIn, HandsOutUse, IsOfManyUses, uses_at, uses_by};
ghost use Rattle.p21_model_uses.specs.UseRows.{AreInOrder, UseRow as MeantRow};
ghost use Rattle.p21_model_values.specs.Written.{IsTextOf};
ghost use Rattle.p21_spec_exchange.specs.Parameter.{Param};
ghost use Rattle.p21_spec_exchange.specs.Record.{Record};
ghost use Rattle.p21_spec_file.specs.CanonicalTexts.{IsInstanceText};

use crate::attributes::Attribute;
use crate::instance::Instance;
use crate::model::AcceptedModel;
use p21_express_graph::{EntityId, Place};
use p21_model_uses::{UseTable, UsersFault, UsesLeft};
use p21_values::{Name, NoMemory};
use std::alloc::Global;
use std::marker::Model;

/// An instance that refers to another one, and the attribute whose value has the name of that.
#[derive(Clone, Copy)]
pub struct Use {
    pub user: Name,
    pub place: Place,
}

/// The name that is used, that of the instance that uses it, and the entity and the number of the attribute.
type UseRow = (u64, u64, u32, u32);

/// The references of an accepted file by the names that are used.
#[derive(Drop)]
pub struct Users {
    table: UseTable,
}

impl Model for Users {
    ghost use Rattle.std.specs.Prelude.{List};
    ghost use Rattle.p21_model_uses.specs.UseRows.{UseRow};

    ghost Value = { List UseRow };

    ghost view = { λ a. a.table };
}

impl Users {
    /// The references of an accepted file: a walk over all its values, and a sort. A reference takes 8 bytes, an instance that
    /// is used 16 and one that uses others 8.
    ///
    /// # Errors
    ///
    /// `NoMemory`; `TooMany`, only where the file has as many different uses as a number of 32 bits doesn't count, or more.
    pub fn new(alloc: Global, model: AcceptedModel<'_>) -> Result<Users, UsersFault>
        ensures uses { IfOk result (λ users. AreStated model.entry.schema.now model.entry.accepted.now.kept →
            HaveOneLine model.entry.accepted.now.kept → AreUsesIn model.entry.schema.now model.entry.accepted.now.kept users) }
        ensures order { IfOk result (λ users. AreInOrder users) }
        ensures fault { IfErr result (λ fault. AreStated model.entry.schema.now model.entry.accepted.now.kept →
            HaveOneLine model.entry.accepted.now.kept → IsOfManyUses model.entry.schema.now model.entry.accepted.now.kept fault) }
    {
        let rows = all_uses(alloc, model)?;
        let table = UseTable::new(alloc, rows)?;
        Ok(Users { table })
    }

    /// The instances that refer to the instance of this name, by rising names, each as often as it has an attribute that does;
    /// none, where nothing refers to it. It takes no memory, and doesn't walk.
    pub fn of(&self, name: Name) -> UsersOf<'_>
        ensures { result ≡ filter (λ (u : MeantRow). nat_eq u.0 name) self.now }
    {
        UsersOf {
            rest: self.table.of(number_of(name)),
        }
    }
}

/// The instances that refer to one, of which some have been handed out.
#[derive(Drop)]
pub struct UsersOf<'a> {
    rest: UsesLeft<'a>,
}

impl<'a> Model for UsersOf<'a> {
    ghost use Rattle.std.specs.Prelude.{List};
    ghost use Rattle.p21_model_uses.specs.UseRows.{UseRow};

    ghost Value = { List UseRow };

    ghost view = { λ a. a.rest };
}

impl<'a> UsersOf<'a> {
    /// How many are left. It takes no memory.
    pub fn len(&self) -> usize
        ensures { result ≡ length self.now }
    {
        self.rest.len()
    }

    /// The next instance that refers, with the attribute. It takes no memory.
    pub fn next(&mut self) -> Option<Use>
        ensures { HandsOutUse self.old result self.new }
    {
        let Some((user, entity, index)) = self.rest.next() else {
            return None;
        };
        Some(Use {
            user: Name(user),
            place: Place {
                entity: EntityId(entity),
                index,
            },
        })
    }
}

/// All uses in the file, by rising names of the instances that use, in the order of their lines.
fn all_uses(alloc: Global, model: AcceptedModel<'_>) -> Result<Vec<UseRow>, NoMemory>
    ensures { IfOk result (λ rows. AreStated model.entry.schema.now model.entry.accepted.now.kept →
        HaveOneLine model.entry.accepted.now.kept → AreUsesIn model.entry.schema.now model.entry.accepted.now.kept rows.items) }
{
    let mut rows = Vec::new(alloc);
    let mut least = 0;
    loop {
        let Some(instance) = model.first_from(Name(least)) else {
            return Ok(rows);
        };
        let user = number_of(instance.name);
        rows = with_instance(rows, user, &instance)?;
        let Some(next) = user.checked_add(1) else {
            return Ok(rows);
        };
        least = next;
    }
}

/// The uses, and behind them those by one more instance, which has this name.
fn with_instance(
    rows: Vec<UseRow>,
    user: u64,
    instance: &Instance<'_>,
) -> Result<Vec<UseRow>, NoMemory>
    ensures { IfOk result (λ more. (record_ : Record)
        (stated : IsInstanceText instance.now.schema.now instance.now.name record_ instance.now.line.now) (found : List Row) →
        AreRowsOf instance.now.schema.now stated.canonical found → more.items ≡ rows.items ++ uses_by user found) }
{
    let mut more = rows;
    let mut attributes = instance.attributes();
    while let Some(attribute) = attributes.next() {
        more = with_attribute(more, user, &attribute)?;
    }
    Ok(more)
}

/// The uses, and behind them those at one more attribute.
fn with_attribute(
    rows: Vec<UseRow>,
    user: u64,
    attribute: &Attribute<'_>,
) -> Result<Vec<UseRow>, NoMemory>
    ensures { IfOk result (λ more. (p : Param) → IsTextOf attribute.now.value.text.now p →
        more.items ≡ rows.items ++ uses_at user (place_of attribute.now.place, p)) }
{
    let place = attribute.place;
    let mut more = rows;
    let mut references = attribute.value.references();
    while let Some(name) = references.next() {
        more.push((number_of(name), user, place.entity.0, place.index))?;
    }
    Ok(more)
}

/// The number that is a name.
fn number_of(name: Name) -> u64
    ensures { result ≡ name }
{
    name.0
}
