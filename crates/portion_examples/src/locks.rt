use conda_base::Actor;
use fallback_lock::{Lock, Mode};

#[test]
fn the_third_try_of_a_core_is_locked(rt: HostRuntime) {
    let mut lock = Lock::new(2, 2);
    assert_eq!(rt; lock.next(0), Mode::Free);
    lock.backed(0);
    lock.backed(0);
    assert_eq!(rt; lock.next(0), Mode::Locked);
    assert_eq!(rt; lock.next(1), Mode::Free);
    lock.took(0);
    assert!(rt; lock.held(Actor::Hart(0)));
    assert!(rt; lock.held(Actor::Core(1)));
    assert!(rt; !lock.held(Actor::Core(0)));
    lock.gave(0);
    assert!(rt; !lock.held(Actor::Hart(0)));
    assert_eq!(rt; lock.next(0), Mode::Free);
}

#[test]
fn a_launch_counts_anew(rt: HostRuntime) {
    let mut lock = Lock::new(1, 1);
    lock.backed(0);
    lock.fresh(0);
    assert_eq!(rt; lock.next(0), Mode::Free);
}
