//! A finite map from keys to facts.
use flow_system::Facts;
use std::test::Fail;

#[test]
fn facts_are_put_found_and_removed(rt: HostRuntime) -> Result<(), Fail> {
    let mut facts: Facts<u32, u8> = Facts::empty(rt.alloc());
    assert!(rt; facts.is_empty());
    for (key, fact, old) in [(7, 1, None), (3, 2, None), (7, 4, Some(1)), (5, 0, None)] {
        assert_eq!(rt; facts.put(key, fact)?, old);
    }
    assert!(rt; !facts.is_empty());
    assert_eq!(rt; facts.len(), 3);
    assert_eq!(rt; facts.keys(rt.alloc())?.as_slice(), [3, 5, 7].as_slice());
    for (key, fact) in [(3, Some(2)), (4, None), (7, Some(4))] {
        assert_eq!(rt; facts.get(key).copied(), fact);
    }
    assert_eq!(rt; facts.remove(4), None);
    assert_eq!(rt; facts.remove(3), Some(2));
    assert_eq!(rt; facts.len(), 2);
    Ok(())
}
