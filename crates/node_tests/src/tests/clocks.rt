//! A clock through ticks, messages and a restart.

use hlc::Clock;
use mr_base::Reading;

fn at(wall: u64, logical: u64) -> Reading {
    Reading { wall, logical }
}

#[test]
fn readings_rise_and_the_physical_part_only_ticks(rt: HostRuntime) {
    let mut clock = Clock::new(5000);
    let given = [clock.now(), clock.now()];
    assert!(rt; given == [at(5000, 0), at(5000, 1)]);
    clock.observe(Reading {
        wall: 5400,
        logical: 3,
    });
    let ahead = [clock.reading(), clock.now(), clock.reading()];
    assert!(rt; ahead == [at(5400, 3), at(5400, 4), at(5400, 4)]);
    clock.restart();
    assert!(rt; clock.reading() == at(5000, 0));
    clock.tick(1000);
    assert!(rt; clock.now() == at(6000, 0));
}
