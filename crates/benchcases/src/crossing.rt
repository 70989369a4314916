// Slips that are tried on a rack or a slate of another visit.
ghost use Rattle.std.specs.Prelude.{◌≡◌, ◌≤◌, ◌≢◌, ◌||◌, true, is_some, map, pos, Some, None};
ghost use Rattle.bench.specs.Calls.{SameMemory, wiped};
ghost use Rattle.bench.specs.Model.{rack_outline, shared, slate_outline, visit_to};

use crate::differing::cross_differences;
use bench::{EndRefused, Rack, Slate, Slip, begin, end};
use cases::Answer;
use levels::level::Level;
use limits::Fault;
use std::io;

// Rack and slate stand apart here, with their facts: each is tried with those of another visit.

// Begins a visit where begin does not refuse.
pub(crate) fn begin_free<L: Level>(rack: &mut Rack<'_, L>, slate: &mut Slate<'_>, flat: u16) -> Slip
    requires flat { (1 ≤ flat) × (flat ≤ 9999) }
    requires free { (rack_outline rack.old).visit ≡ None }
    requires same { shared (rack_outline rack.old) ≡ shared (slate_outline slate.old) }
    ensures flat { result.flat ≡ flat }
    ensures rack { shared (rack_outline rack.new) ≡ (Some (visit_to flat), (rack_outline rack.old).w, (rack_outline rack.old).h) }
    ensures slate { shared (slate_outline slate.new) ≡ (Some (visit_to flat), (slate_outline slate.old).w, (slate_outline slate.old).h) }
    ensures rack_places { (rack_outline rack.new).places ≡ (rack_outline rack.old).places }
    ensures slate_places { (slate_outline slate.new).places ≡ (slate_outline slate.old).places }
    ensures rack_lent { SameMemory rack.old.memory rack.new.memory }
    ensures slate_lent { SameMemory slate.old.memory slate.new.memory }
{
    begin(rack, slate, flat).unwrap()
}

// Ends a visit where end does not refuse.
pub(crate) fn end_own<L: Level>(rack: &mut Rack<'_, L>, slate: &mut Slate<'_>, slip: Slip)
    requires own { (rack_outline rack.old).visit ≡ Some (visit_to slip.flat) }
    requires same { shared (rack_outline rack.old) ≡ shared (slate_outline slate.old) }
    ensures rack { shared (rack_outline rack.new) ≡ (None, (rack_outline rack.old).w, (rack_outline rack.old).h) }
    ensures slate { shared (slate_outline slate.new) ≡ (None, (slate_outline slate.old).w, (slate_outline slate.old).h) }
    ensures levels { map L.height rack.new.memory.now ≡ wiped (rack_outline rack.old).places 0 (map L.height rack.old.memory.now) }
    ensures numbers { slate.new.memory.now ≡ wiped (slate_outline slate.old).places (pos 0) slate.old.memory.now }
    ensures rack_lent { SameMemory rack.old.memory rack.new.memory }
    ensures slate_lent { SameMemory slate.old.memory slate.new.memory }
{
    match end(rack, slate, slip) {
        Ok(()) => {}
        Err(_) => unreachable!(),
    }
}

// Tries to begin a visit with a rack or a slate that has one; nothing changes.
fn begin_refused<L: Level>(rack: &mut Rack<'_, L>, slate: &mut Slate<'_>, flat: u16) -> Fault
    requires { (is_some (rack_outline rack.old).visit || is_some (slate_outline slate.old).visit) ≡ true }
    ensures rack { rack_outline rack.new ≡ rack_outline rack.old }
    ensures slate { slate_outline slate.new ≡ slate_outline slate.old }
{
    match begin(rack, slate, flat) {
        Ok(_) => unreachable!(),
        Err(fault) => fault,
    }
}

// Tries to end a visit where the slip is not that of the rack or the slate is not the rack's; nothing changes.
fn end_refused<L: Level>(rack: &mut Rack<'_, L>, slate: &mut Slate<'_>, slip: Slip) -> (Slip, Fault)
    requires { (rack_outline rack.old).visit ≡ Some (visit_to slip.flat) → shared (rack_outline rack.old) ≢ shared (slate_outline slate.old) }
    ensures slip { result.0 ≡ slip }
    ensures rack { rack_outline rack.new ≡ rack_outline rack.old }
    ensures slate { slate_outline slate.new ≡ slate_outline slate.old }
{
    match end(rack, slate, slip) {
        Ok(()) => unreachable!(),
        Err(EndRefused { slip: back, fault }) => (back, fault),
    }
}

// Two visits of different flats on benches of the same sides: each slip is tried where it does not belong, and then spent where
// it does.
fn cross_flats<L: Level>(
    rack: &mut Rack<'_, L>,
    slate: &mut Slate<'_>,
    other_rack: &mut Rack<'_, L>,
    other_slate: &mut Slate<'_>,
) -> [Fault; 7]
    requires rack { shared (rack_outline rack.old) ≡ (None, 5, 1) }
    requires slate { shared (slate_outline slate.old) ≡ (None, 5, 1) }
    requires next_rack { shared (rack_outline other_rack.old) ≡ (None, 5, 1) }
    requires next_slate { shared (slate_outline other_slate.old) ≡ (None, 5, 1) }
{
    let slip = begin_free(rack, slate, 7);
    let other = begin_free(other_rack, other_slate, 8);
    let (other, other_flat) = end_refused(rack, slate, other);
    let (other, flat_first) = end_refused(rack, other_slate, other);
    let (slip, other_visit) = end_refused(rack, other_slate, slip);
    end_own(other_rack, other_slate, other);
    let (slip, no_visit) = end_refused(other_rack, other_slate, slip);
    let (slip, slate_without) = end_refused(rack, other_slate, slip);
    let slate_with = begin_refused(other_rack, slate, 9);
    let rack_with = begin_refused(rack, other_slate, 9);
    end_own(rack, slate, slip);
    [
        other_flat,
        flat_first,
        other_visit,
        no_visit,
        slate_without,
        slate_with,
        rack_with,
    ]
}

// Two visits of the same flat: with the slate of other sides end is refused.
fn cross_sides<L: Level>(
    rack: &mut Rack<'_, L>,
    slate: &mut Slate<'_>,
    other_rack: &mut Rack<'_, L>,
    other_slate: &mut Slate<'_>,
) -> [Fault; 2]
    requires rack { shared (rack_outline rack.old) ≡ (None, 5, 1) }
    requires slate { shared (slate_outline slate.old) ≡ (None, 5, 1) }
    requires next_rack { shared (rack_outline other_rack.old) ≡ (None, 1, 5) }
    requires next_slate { shared (slate_outline other_slate.old) ≡ (None, 1, 5) }
    ensures rack { shared (rack_outline rack.new) ≡ (None, 5, 1) }
    ensures slate { shared (slate_outline slate.new) ≡ (None, 5, 1) }
    ensures next_rack { shared (rack_outline other_rack.new) ≡ (None, 1, 5) }
    ensures next_slate { shared (slate_outline other_slate.new) ≡ (None, 1, 5) }
{
    let slip = begin_free(rack, slate, 9999);
    let other = begin_free(other_rack, other_slate, 9999);
    let (slip, wide) = end_refused(rack, other_slate, slip);
    let (other, high) = end_refused(other_rack, slate, other);
    end_own(rack, slate, slip);
    end_own(other_rack, other_slate, other);
    [wide, high]
}

// Prints refusals.
fn show_all(rt: &HostRuntime, faults: &[Fault]) -> io::Result<()> {
    for fault in faults {
        rt.println(Answer(Err(*fault)))?;
    }
    Ok(())
}

// Prints answers that tell nothing.
fn show_answers(rt: &HostRuntime, answers: [Result<(), Fault>; 3]) -> io::Result<()> {
    for answer in answers {
        rt.println(Answer::from(answer))?;
    }
    Ok(())
}

// Prints what is refused where the slips and the slates of two visits are crossed.
pub(crate) fn cross_visits<L: Level>(rt: &HostRuntime, picture: &[L]) -> io::Result<()> {
    let heap = rt.alloc();
    let mut levels = vec![in heap; L::lowest(); 30]?;
    let mut numbers = vec![in heap; 0; 5]?;
    let mut high_levels = vec![in heap; L::lowest(); 30]?;
    let mut high_numbers = vec![in heap; 0; 5]?;
    let mut other_levels = vec![in heap; L::lowest(); 30]?;
    let mut other_numbers = vec![in heap; 0; 5]?;
    let mut rack = Rack::open(levels.as_mut_slice(), 5, 1, 4);
    let mut slate = Slate::open(numbers.as_mut_slice(), 5, 1, 1);
    let mut high_rack = Rack::open(high_levels.as_mut_slice(), 1, 5, 4);
    let mut high_slate = Slate::open(high_numbers.as_mut_slice(), 1, 5, 1);
    let mut other_rack = Rack::open(other_levels.as_mut_slice(), 5, 1, 4);
    let mut other_slate = Slate::open(other_numbers.as_mut_slice(), 5, 1, 1);
    let sides = cross_sides(&mut rack, &mut slate, &mut high_rack, &mut high_slate);
    show_all(rt, &sides)?;
    let crossed = cross_differences(
        &mut rack,
        &mut slate,
        &mut high_rack,
        &mut high_slate,
        7,
        7,
        picture,
    );
    show_answers(rt, crossed)?;
    let crossed = cross_differences(
        &mut rack,
        &mut slate,
        &mut other_rack,
        &mut other_slate,
        7,
        8,
        picture,
    );
    show_answers(rt, crossed)?;
    let flats = cross_flats(&mut rack, &mut slate, &mut other_rack, &mut other_slate);
    show_all(rt, &flats)
}
