// Rules 2 to 4 on one subsystem, whose block is lent: each place is looked at once, and of what is found the lowest rule
// stands, at the first place that breaks it. Rule 1 has judged the counts: `Part` says so.
ghost use Rattle.std.specs.Prelude.{◌≡◌, ◌≤◌, ◌<◌};
ghost use Rattle.table.specs.Limits.{most};
ghost use Rattle.table.specs.Grid.{task_in, subsystem_in};
ghost use Rattle.rules.specs.Earlier.{earlier, is_first, is_refused, judged_own, judged_task, judged_subsystem};

use crate::breaks::{longest_of_task, own_out_of_range, task_out_of_order, task_out_of_range};
use crate::{Broken, Judged, Place, Rule};
use holding::Part;
use table::grid::{budget, count, period, work};

// The judgement so far, or a later one by a lower rule.
pub fn earlier(found: Judged, next: Judged) -> Judged
    ensures { result ≡ earlier found next }
{
    let Err(broken) = next else {
        return found;
    };
    let Err(former) = found else {
        return next;
    };
    if broken.rule < former.rule {
        next
    } else {
        found
    }
}

// Whether a judgement is by rule 2: then none of the rules here can find an earlier one.
pub fn is_first(found: Judged) -> bool
    ensures { result ≡ is_first found }
{
    found.is_err_and(|broken| broken.rule == Rule::Range)
}

// Whether a judgement is a refusal.
pub fn is_refused(found: Judged) -> bool
    ensures { result ≡ is_refused found }
{
    found.is_err()
}

// The subsystem's own place, in the table's subsystem of this number.
fn judged_own(part: &Part, subsystem: u8) -> Judged
    ensures { result ≡ judged_own part.now.m subsystem (subsystem_in part.now.m part.now.block.now) }
{
    let place = Place { subsystem, task: 0 };
    if own_out_of_range(part.block) {
        return Err(Broken {
            rule: Rule::Range,
            place,
        });
    }
    if period(part.block) < budget(part.block) {
        return Err(Broken {
            rule: Rule::Order,
            place,
        });
    }
    Ok(())
}

// A task's place.
fn judged_task(part: &Part, i: usize, place: Place) -> Judged
    requires { i < most }
    ensures { result ≡ judged_task part.now.m place (task_in part.now.m part.now.block.now i) }
{
    let longest = longest_of_task(part.block, part.m, i);
    if task_out_of_range(part.block, i, longest) {
        return Err(Broken {
            rule: Rule::Range,
            place,
        });
    }
    if task_out_of_order(part.block, i) {
        return Err(Broken {
            rule: Rule::Order,
            place,
        });
    }
    if work(part.block, i) < longest {
        return Err(Broken {
            rule: Rule::Access,
            place,
        });
    }
    Ok(())
}

// All places of the subsystem of this number. Where a place breaks nothing, what was found stays where it is.
pub fn judged_subsystem(part: &Part, subsystem: u8) -> Judged
    ensures { result ≡ judged_subsystem part.now.m subsystem (subsystem_in part.now.m part.now.block.now) }
{
    let mut found = judged_own(part, subsystem);
    for i in 0..count(part.block) {
        let place = Place {
            subsystem,
            task: (i + 1) as u8,
        };
        let next = judged_task(part, i, place);
        if is_refused(next) {
            found = earlier(found, next);
        }
    }
    found
}

// What was found so far, with all places of the subsystem of this number. Behind a refusal by rule 2 nothing need be looked
// at.
pub fn with_subsystem(found: Judged, part: &Part, subsystem: u8) -> Judged
    ensures { result ≡ earlier found (judged_subsystem part.now.m subsystem (subsystem_in part.now.m part.now.block.now)) }
{
    if is_first(found) {
        return found;
    }
    earlier(found, judged_subsystem(part, subsystem))
}
