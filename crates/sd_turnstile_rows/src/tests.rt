use crate::counter::Counter;
use crate::counting::{count, count_both};
use sd_turnstile::Turnstile;
use std::test::Fail;

#[test]
fn seats_count(rt: HostRuntime) -> Result<(), Fail> {
    let Ok((turnstile, mut seat)) = Turnstile::new(rt.alloc(), 3, Counter { value: 5 }) else {
        panic!(rt; "out of memory")
    };
    assert_eq!(rt; count(&rt, &turnstile, &mut seat), Some(6));
    assert_eq!(rt; count(&rt, &turnstile, &mut seat), Some(7));
    let Some(mut other) = turnstile.split(&mut seat) else {
        panic!(rt; "a seat of three parts can be split")
    };
    assert!(rt; seat.parts() == 2 && other.parts() == 1);
    assert!(rt; turnstile.split(&mut other).is_none());
    assert_eq!(rt; count(&rt, &turnstile, &mut other), Some(8));
    let Err((turnstile, mut seat)) = turnstile.close(seat) else {
        panic!(rt; "another seat is out")
    };
    assert_eq!(rt; count(&rt, &turnstile, &mut seat), Some(9));
    turnstile.join(&mut seat, other);
    assert_eq!(rt; seat.parts(), 3);
    let Ok(counter) = turnstile.close(seat) else {
        panic!(rt; "no other seat is out")
    };
    assert_eq!(rt; counter.value, 9);
    Ok(())
}

#[test]
fn two_threads_count(rt: HostRuntime) -> Result<(), Fail> {
    assert_eq!(rt; count_both(&rt, rt.alloc(), 0, 10_000), Some(20_000));
    for _ in 0..100 {
        assert_eq!(rt; count_both(&rt, rt.alloc(), 7, 50), Some(107));
    }
    Ok(())
}

// A full counter: the turns have no entry.
#[test]
fn a_turn_may_have_no_entry(rt: HostRuntime) -> Result<(), Fail> {
    assert_eq!(rt;
        count_both(&rt, rt.alloc(), u64::MAX - 3, 50),
        Some(u64::MAX)
    );
    Ok(())
}
