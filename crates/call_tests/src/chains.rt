// Records that are put in a list, walked, cut out and taken.
ghost use Rattle.std.specs.Prelude.{◌≡◌, ◌<◌, ℕ, length, IfOk, OnOk};
ghost use Rattle.environment_sets.specs.Lists.{IsIn};
ghost use Rattle.index_lists.specs.Chains.{lane_at, keys_in};

use index_lists::{Chains, Key};
use std::alloc::AllocError;
use std::test::Fail;

// One record more, at the front of the head in lane 2.
fn add(chains: &mut Chains<u8>, item: u8, head: usize) -> Result<Key, AllocError>
    requires { head < length (lane_at chains.old 2).lists }
    ensures heads { length (lane_at chains.new 2).lists ≡ length (lane_at chains.old 2).lists }
    ensures listed { IfOk result (λ key. IsIn (keys_in chains.new 2 head) key.place) }
    ensures stay { (k : ℕ) → IsIn (keys_in chains.old 2 head) k → IsIn (keys_in chains.new 2 head) k }
{
    match chains.put(item) {
        Ok(key) => {
            chains.link(key, 2, head);
            Ok(key)
        }
        Err(_) => Err(AllocError),
    }
}

// A record that is put in and taken away again.
fn put_and_taken(chains: &mut Chains<u8>, item: u8) -> Option<u8> {
    match chains.put(item) {
        Ok(key) => Some(chains.take(key)),
        Err(_) => None,
    }
}

#[test]
fn a_record_is_the_first_of_its_list(rt: HostRuntime) -> Result<(), Fail> {
    let mut chains = Chains::new(rt.alloc());
    assert_eq!(rt; put_and_taken(&mut chains, 9), Some(9));
    chains.make_heads(2, 1)?;
    let low = add(&mut chains, 1, 0)?;
    assert_eq!(rt; chains.first(2, 0), Some(low));
    assert_eq!(rt; chains.next(low, 2), None);
    Ok(())
}
