//! Workers before a gate at which two meet.

use std::thread::join;
use work_gate::{Gate, MeetGate, Next, Point};

fn goes(gate: &MeetGate, worker: u32, point: Point) -> bool {
    gate.reached(worker, point) == Next::Go
}

fn all_go(gate: &MeetGate) -> bool {
    goes(gate, 0, Point::AfterClaim)
        && goes(gate, 0, Point::Working)
        && goes(gate, 0, Point::BeforeGive)
        && goes(gate, 1, Point::Idle)
}

#[test]
fn the_first_and_other_points_pass(rt: HostRuntime) {
    let gate = MeetGate::new();
    assert!(rt; all_go(&gate) && !gate.have_met() && !gate.was_limit_reached());
}

#[test]
fn two_workers_meet_or_the_limit_is_reached(rt: HostRuntime) {
    let gate = MeetGate::new();
    gate.reached(0, Point::Working);
    let (zero, one) = join(
        &rt,
        || gate.reached(0, Point::Working),
        || gate.reached(1, Point::Working),
    );
    assert_eq!(rt; (zero, one), (Next::Go, Next::Go));
    assert!(rt; gate.have_met() || gate.was_limit_reached());
}
