//! Two threads that note numbers in turns.

ghost use Rattle.std.specs.Prelude.{◌≡◌, ◌==◌, ℕ, ◌≤◌, ◌+◌, ◌++◌, ◌∷◌, [], true, false, length, IfOk, MatchBool};
ghost use Rattle.std.specs.List.{filter};
ghost use Rattle.turn_lock.specs.Passes.{known, IsPassOf, IsSamePass};

use crate::tally::{Note, Tally};
use std::alloc::{AllocError as NoMemory, Global};
use std::sync::Wait;
use std::test::Fail;
use std::thread::{self, Threads, join};
use turn_lock::{Pass, TurnLock};

// Lets other threads go on so many times.
fn yield_often(times: u32) {
    for _ in 0..times {
        thread::yield_now();
    }
}

// Notes a number in a turn that is held while other threads go on so many times, and says whether there was memory for it.
fn note_once<R: Wait>(
    rt: &R,
    lock: &TurnLock<Tally>,
    pass: &mut Pass<Tally>,
    value: u32,
    held: u32,
) -> bool
    requires lock { IsPassOf lock.now pass.old }
    requires turn { (known pass.old).has_turn ≡ false }

    ensures lock { IsPassOf lock.now pass.new }
    ensures turn { (known pass.new).has_turn ≡ false }
    ensures same { IsSamePass (known pass.old) (known pass.new) }
    ensures own { MatchBool result
        ((known pass.new).own ≡ (known pass.old).own
        ++ record { by = (known pass.old).number; value = value } ∷ [])
        ((known pass.new).own ≡ (known pass.old).own) }
{
    let by = pass.number();
    let mut tally = lock.take(rt, pass);
    let done = tally.note(Note { by, value }).is_ok();
    yield_often(held);
    lock.give(pass, tally);
    done
}

// Notes the numbers below `times`, each in a turn that is held so long, and says how many there was memory for.
fn note_all<R: Wait>(
    rt: &R,
    lock: &TurnLock<Tally>,
    mut pass: Pass<Tally>,
    times: u32,
    held: u32,
) -> (Pass<Tally>, u32)
    requires lock { IsPassOf lock.now pass }
    requires turn { (known pass).has_turn ≡ false }

    ensures lock { IsPassOf lock.now result.0 }
    ensures turn { (known result.0).has_turn ≡ false }
    ensures same { IsSamePass (known pass) (known result.0) }
    ensures own { length (known result.0).own ≡ length (known pass).own + result.1 }
{
    let mut done = 0;
    for value in 0..times {
        if note_once(rt, lock, &mut pass, value, held) {
            done += 1;
        }
    }
    (pass, done)
}

// Takes in the second pass, and closes the lock.
fn end_two(lock: TurnLock<Tally>, mut first: Pass<Tally>, second: Pass<Tally>) -> Tally
    requires lock { IsPassOf lock first × IsPassOf lock second }
    requires turn { ((known first).has_turn ≡ false) × ((known second).has_turn ≡ false) }
    requires numbers { ((known first).number ≡ 0) × ((known second).number ≡ 1) }
    requires alone { ((known first).ended ≡ []) × ((known second).ended ≡ []) }
    requires opened { (known first).opened ≡ 0 }
    requires made { (known first).made ≡ 2 }

    ensures title { result.0 ≡ (known first).fixed }
    ensures first { filter (λ e. e.by == 0) result.2 ≡ (known first).own }
    ensures second { filter (λ e. e.by == 1) result.2 ≡ (known second).own }
    ensures others { (k : ℕ) → 2 ≤ k → filter (λ e. e.by == k) result.2 ≡ [] }
{
    lock.join(&mut first, second);
    lock.close(first)
}

// Two threads note the numbers below `times`, each with its own number. Each has as many notes as it says, and nobody else
// has any. Each turn is held while other threads go on `held` times.
fn note_by_two<R: Threads + Wait + Sync>(
    rt: &R,
    alloc: Global,
    title: u32,
    times: u32,
    held: u32,
) -> Result<(Tally, u32, u32), NoMemory>
    ensures title { IfOk result (λ r. r.0.0 ≡ title) }
    ensures first { IfOk result (λ r. length (filter (λ e. e.by == 0) r.0.2) ≡ r.1) }
    ensures second { IfOk result (λ r. length (filter (λ e. e.by == 1) r.0.2) ≡ r.2) }
    ensures others { IfOk result (λ r. (k : ℕ) → 2 ≤ k → filter (λ e. e.by == k) r.0.2 ≡ []) }
{
    let (lock, mut first) = TurnLock::new(alloc, Tally::new(alloc, title))?;
    let second = lock.split(&mut first, 1);
    let shared = &lock;
    let ((first, a), (second, b)) = join(
        rt,
        move || -> (Pass<Tally>, u32)
            requires { IsPassOf shared.now first × ((known first).has_turn ≡ false) }
            ensures { IsPassOf shared.entry.now result.0 × ((known result.0).has_turn ≡ false)
                × IsSamePass (known first) (known result.0)
                × (length (known result.0).own ≡ length (known first).own + result.1) }
        { note_all(rt, shared, first, times, held) },
        move || -> (Pass<Tally>, u32)
            requires { IsPassOf shared.now second × ((known second).has_turn ≡ false) }
            ensures { IsPassOf shared.entry.now result.0 × ((known result.0).has_turn ≡ false)
                × IsSamePass (known second) (known result.0)
                × (length (known result.0).own ≡ length (known second).own + result.1) }
        { note_all(rt, shared, second, times, held) },
    );
    Ok((end_two(lock, first, second), a, b))
}

// Whether the notes of each of two threads are the numbers below 100, in order.
fn are_in_order(notes: &[Note]) -> bool {
    let mut next = [0u32; 2];
    let mut in_order = true;
    for note in notes {
        if note.by == 0 {
            in_order = in_order && note.value == next[0];
            next[0] = next[0].wrapping_add(1);
        } else {
            in_order = in_order && note.by == 1 && note.value == next[1];
            next[1] = next[1].wrapping_add(1);
        }
    }
    in_order && next == [100, 100]
}

#[test]
fn two_threads_note_in_turns(rt: HostRuntime) -> Result<(), Fail> {
    let (tally, a, b) = note_by_two(&rt, rt.alloc(), 7, 100, 0)?;
    let is_titled = tally.title() == 7;
    let is_full = a == 100 && b == 100 && tally.notes().len() == 200;
    assert!(rt; is_titled && is_full && are_in_order(tally.notes()));
    Ok(())
}

#[test]
fn long_turns_are_waited_for(rt: HostRuntime) -> Result<(), Fail> {
    let (tally, a, b) = note_by_two(&rt, rt.alloc(), 7, 3, 100_000)?;
    assert!(rt; a == 3 && b == 3 && tally.notes().len() == 6);
    Ok(())
}
