// The first member of a walk: members are passed over by their sizes, and the others compared.
ghost use Rattle.std.specs.Prelude.{◌≡◌, ◌<◌, ◌↔◌, IsTrue, MatchBool, Some};
ghost use Rattle.std.specs.Option.{ForSome, option_map, option_copied};
ghost use Rattle.environment_sets.specs.declared.environment.TheConstants.{SLOTS};
ghost use Rattle.environment_sets.specs.Members.{members};
ghost use Rattle.environment_sets.specs.Orders.{ListsAll, IsOrder};
ghost use Rattle.environment_sets.specs.Walks.{ComesAfter, GivesNextEnv};
ghost use Rattle.antichains.specs.Nearest.{IsLess, IsMore, IsBehind, IsNearer, IsPassed};
ghost use Rattle.antichains.specs.Signed.{size_of, IsSigned};

use crate::signed_list::SignedList;
use environment_sets::Env;

// The sizes of the last one and of what was found, where they are there, and of a member.
#[derive(Drop)]
struct Sizes {
    last: Option<u16>,
    found: Option<u16>,
    member: u16,
}

/// The first environment that is inside the mask and comes after `last`, or after nothing. One with fewer slots than `last`,
/// or with more than what was found, is passed over unread.
pub fn first_after(
    signed: &SignedList,
    order: &[u16],
    mask: &Env,
    last: Option<&Env>,
) -> Option<Env>
    requires signed { IsSigned signed.now }
    requires slots { IsOrder SLOTS order.now }
    requires mask_listed { ListsAll order.now (members mask.now) }
    requires last_listed { ForSome last (λ l. ListsAll order.now (members l.now)) }
    ensures { GivesNextEnv order.now signed.now.list.items mask.now (option_copied last.entry) result }
{
    let least = size_if(last);
    let mut next = None;
    let mut most = None;
    for place in 0..signed.list.len() {
        let size = signed.sizes[place];
        if is_less(size, &least) {
            continue;
        }
        if is_more(size, &most) {
            continue;
        }
        let member = &signed.list[place];
        let sizes = Sizes {
            last: least,
            found: most,
            member: size,
        };
        if is_nearer(order, mask, last, &next, member, &sizes) {
            next = Some(*member);
            most = Some(size);
        }
    }
    next
}

// The size of the environment, if there is one.
fn size_if(env: Option<&Env>) -> Option<u16>
    ensures { result ≡ option_map size_of (option_copied env.entry) }
{
    match env {
        Some(env) => Some(env.size()),
        None => None,
    }
}

// Whether there is a bound, and the size is less.
fn is_less(size: u16, bound: &Option<u16>) -> bool
    ensures { IsTrue result ↔ IsLess size bound.now }
{
    match bound {
        Some(bound) => size < *bound,
        None => false,
    }
}

// Whether there is a bound, and the size is more.
fn is_more(size: u16, bound: &Option<u16>) -> bool
    ensures { IsTrue result ↔ IsMore size bound.now }
{
    match bound {
        Some(bound) => *bound < size,
        None => false,
    }
}

// Whether the member is inside the mask, comes after the last, and is not behind what was found before.
fn is_nearer(
    order: &[u16],
    mask: &Env,
    last: Option<&Env>,
    found: &Option<Env>,
    member: &Env,
    sizes: &Sizes,
) -> bool
    requires slots { IsOrder SLOTS order.now }
    requires last_size { sizes.now.last ≡ option_map size_of (option_copied last) }
    requires found_size { sizes.now.found ≡ option_map size_of found.now }
    requires size { sizes.now.member ≡ size_of member.now }
    requires mask_listed { ListsAll order.now (members mask.now) }
    requires last_listed { ForSome last (λ l. ListsAll order.now (members l.now)) }
    requires found_listed { ForSome found.now (λ e. ListsAll order.now (members e)) }
    ensures { MatchBool result (IsNearer order.now (members mask.now) (option_map members (option_copied last.entry)) (option_map members found.now) (members member.now)) (IsPassed order.now (members mask.now) (option_map members (option_copied last.entry)) (option_map members found.now) (members member.now)) }
{
    if !member.is_subset(mask) {
        return false;
    }
    if is_behind(order, found, member, sizes) {
        return false;
    }
    comes_after(order, last, member, sizes)
}

// Whether something was found that comes before the member.
fn is_behind(order: &[u16], found: &Option<Env>, member: &Env, sizes: &Sizes) -> bool
    requires slots { IsOrder SLOTS order.now }
    requires found_size { sizes.now.found ≡ option_map size_of found.now }
    requires size { sizes.now.member ≡ size_of member.now }
    requires found_listed { ForSome found.now (λ e. ListsAll order.now (members e)) }
    requires listed { ListsAll order.now (members member.now) }
    ensures { IsTrue result ↔ IsBehind order.now (option_map members found.now) (members member.now) }
{
    let Some(env) = found else {
        return false;
    };
    let Some(size) = sizes.found else {
        return false;
    };
    env.compare_sized(size, order, member, sizes.member).is_lt()
}

// Whether the member comes after the last.
fn comes_after(order: &[u16], last: Option<&Env>, member: &Env, sizes: &Sizes) -> bool
    requires slots { IsOrder SLOTS order.now }
    requires last_size { sizes.now.last ≡ option_map size_of (option_copied last) }
    requires size { sizes.now.member ≡ size_of member.now }
    requires last_listed { ForSome last (λ l. ListsAll order.now (members l.now)) }
    requires listed { ListsAll order.now (members member.now) }
    ensures { IsTrue result ↔ ComesAfter order.now (option_map members (option_copied last.entry)) (members member.now) }
{
    let Some(last) = last else {
        return true;
    };
    let Some(size) = sizes.last else {
        return false;
    };
    last.compare_sized(size, order, member, sizes.member)
        .is_lt()
}
