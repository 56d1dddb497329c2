// Slots that make an environment contain a member.
ghost use Rattle.std.specs.Prelude.{◌<◌, ◌⊎◌, ℕ, IsTrue, MatchOption};
ghost use Rattle.environment_sets.specs.Sets.{◌⊆◌, ◌∖◌};
ghost use Rattle.environment_sets.specs.Members.{members, HasMember};
ghost use Rattle.antichains.specs.Signed.{IsSigned};
ghost use Rattle.antichains.specs.Completed.{Complete, IsCompleted, Lacking};

use crate::signed_list::SignedList;
use environment_sets::{Env, SLOTS};

/// Slots with any of which the environment contains a member that lacks this one. A member whose signature has more than one
/// bit that is not the environment's has more than one slot that is not, and is passed over unread.
pub fn completing(signed: &SignedList, env: &Env, lacked: u16) -> Env
    requires slot { lacked < SLOTS }
    requires signed { IsSigned signed.now }
    ensures { Complete (members result) (Lacking lacked (HasMember signed.now.list.items)) (members env.now) }
{
    let signature = env.signature();
    let mut slots = Env::empty();
    for place in 0..signed.list.len() {
        let rest = signed.signatures[place] & !signature;
        if rest == 0 || rest & (rest - 1) == 0 {
            slots = with_completing(slots, &signed.list[place], env, lacked);
        }
    }
    slots
}

// The slots with the one with which the environment contains the member, if the member lacks this slot and there is such a one.
fn with_completing(slots: Env, member: &Env, env: &Env, lacked: u16) -> Env
    requires { lacked < SLOTS }
    ensures { (n : ℕ) → IsTrue (members result n) → IsTrue (members slots n) ⊎ IsCompleted lacked n (members member.now) (members env.now) }
{
    if member.has(lacked) {
        return slots;
    }
    let Some(slot) = first_beyond(member, env) else {
        return slots;
    };
    if member.is_subset(&env.with(slot)) {
        return slots.with(slot);
    }
    slots
}

// The first slot of the member that the environment lacks.
fn first_beyond(member: &Env, env: &Env) -> Option<u16>
    ensures { MatchOption result (members member.now ⊆ members env.now) (λ slot. (slot < SLOTS) × IsTrue ((members member.now ∖ members env.now) slot)) }
{
    for slot in 0..SLOTS as u16 {
        if member.has(slot) && !env.has(slot) {
            return Some(slot);
        }
    }
    None
}
