//! Which instances of an accepted file refer to which.
ghost use Rattle.std.specs.Prelude.{◌≡◌, None};
ghost use Rattle.p21_c.specs.Answers.{HoldsMade};
ghost use Rattle.p21_c.specs.Contents.{boxed_content, model_in, users_in};
ghost use Rattle.p21_c.specs.Filled.{AreFirst, IsToldUse};
ghost use Rattle.p21_c.specs.Models.{MakesUsers, TellsUsers};

use crate::answers::{DONE, FAILED, MISUSED, REFUSED};
use crate::components::Handle;
use crate::contents::{Content, Holding, boxed};
use crate::lent::Lent;
use p21_model::{Use, Users, UsersFault, UsersOf};
use p21_values::Name;
use std::alloc::Global;

/// An instance that refers to another one, and the attribute whose value has the name of that.
#[repr(C)]
#[derive(Clone, Copy)]
pub struct UseOf {
    pub user: u64,
    pub entity: u32,
    pub index: u32,
}

/// Hands out the references of an accepted file.
#[unsafe(no_mangle)]
pub extern "C" fn p21_users_new(alloc: Global, accepted: &Lent, users: &mut Handle) -> u8
    ensures { HoldsMade (MakesUsers (model_in accepted.now.value) result) users.old.value users.new.value }
{
    let (made, status) = find(alloc, accepted);
    users.hand(alloc, made);
    status
}

/// Lets go of the references of a file.
#[unsafe(no_mangle)]
pub extern "C" fn p21_users_free(alloc: Global, users: &mut Handle)
    ensures { users.new.value ≡ None }
{
    users.put(alloc, None);
}

/// Tells the instances that refer to the one of this name, as many as there is room for.
#[unsafe(no_mangle)]
pub extern "C" fn p21_users_of(users: &Lent, name: u64, uses: &mut [UseOf], count: &mut usize) -> u8
    ensures { TellsUsers (users_in users.now.value) name uses.old uses.new result count.old count.new }
{
    let Some(users) = users.users() else {
        return MISUSED;
    };
    let left = users.of(Name(name));
    *count = left.len();
    let _ = tell_uses(left, uses);
    DONE
}

/// The references of the accepted file that is held.
fn find(alloc: Global, accepted: &Lent) -> (Holding, u8)
    ensures { MakesUsers (model_in accepted.now.value) result.1 (boxed_content result.0) }
{
    let Some(model) = accepted.model() else {
        return (None, MISUSED);
    };
    let users = match Users::new(alloc, model) {
        Ok(users) => users,
        Err(UsersFault::NoMemory) => return (None, FAILED),
        Err(UsersFault::TooMany) => return (None, REFUSED),
    };
    match boxed(alloc, Content::Users(users)) {
        Some(content) => (Some(content), DONE),
        None => (None, FAILED),
    }
}

/// Tells uses, as many as there is room for, and answers how many they were.
fn tell_uses(uses: UsersOf<'_>, room: &mut [UseOf]) -> usize
    ensures { AreFirst IsToldUse uses.entry room.new result }
{
    let mut left = uses;
    for at in 0..room.len() {
        let Some(found) = left.next() else {
            return at;
        };
        room[at] = told(found);
    }
    room.len()
}

/// A use, as C has it.
fn told(found: Use) -> UseOf
    ensures { result ≡ record { user = found.user; entity = found.place.entity.0; index = found.place.index } }
{
    UseOf {
        user: found.user.0,
        entity: found.place.entity.0,
        index: found.place.index,
    }
}
