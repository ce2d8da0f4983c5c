// The judge: rules 1 to 5 in their order on any table. `judge`, `judge_one` and `judge_counts` have no `requires`; the rest may take it
// for granted that rule 1 has passed, since no index is in range before.
#![tactic(auto)]

ghost use Rattle.std.specs.Prelude.{◌≡◌, ◌≤◌, replicate};
ghost use Rattle.table.specs.Limits.{most};
ghost use Rattle.table.specs.Meaning.{meaning};
ghost use Rattle.table.specs.Grid.{system_in};
ghost use Rattle.holding.specs.Held.{HeldIn};
ghost use Rattle.rules.specs.declared.Rule.TheVariants.{Counts, Overrun};
ghost use Rattle.rules.specs.Judged.{admitted, refused};
ghost use Rattle.rules.specs.Rules.{place, offender, judged_by, counts_judged, judge_of, judge_one_of};
ghost use Rattle.rules.specs.Earlier.{in_order};

use holding::{Part, held_by};
use rules::breaks::count_out;
use rules::places::with_subsystem;
use rules::{Broken, Judged, Place, Rule};
use table::Table;
use table::grid::{BLOCK, LINE, budget, lay_out, period};

mod laid;

pub use laid::Laid;

// A refusal at the subsystem of this number, or at the table as a whole where it is 0.
fn refused(rule: Rule, subsystem: u8) -> Judged
    ensures { result ≡ refused rule (place subsystem 0) }
{
    Err(Broken {
        rule,
        place: Place { subsystem, task: 0 },
    })
}

// The judgement by rule 1 of the subsystems' own counts.
pub fn refused_by_counts(t: Table) -> Judged
    requires { t.count ≤ most }
    ensures { result ≡ judged_by (meaning t) Counts }
{
    for s in 0..usize::from(t.count) {
        if count_out(t.subsystems[s].count) {
            let subsystem = (s + 1) as u8;
            return refused(Rule::Counts, subsystem);
        }
    }
    Ok(())
}

// The judgement by rule 1 of any table: N and M, then the subsystems' own counts.
pub fn judge_counts(t: Table) -> Judged
    ensures { result ≡ counts_judged (meaning t) }
{
    if count_out(t.count) || Table::MOST < usize::from(t.resources) {
        return refused(Rule::Counts, 0);
    }
    refused_by_counts(t)
}

// Rules 2 to 4 in their order, in one pass over the places.
fn refused_in_order(laid: &Laid) -> Judged
    ensures { result ≡ in_order (offender (system_in laid.now.n laid.now.m laid.now.grid.now)) }
{
    let mut found = Ok(());
    for s in 0..laid.n {
        let part = Part {
            block: &laid.grid[s],
            m: laid.m,
        };
        found = with_subsystem(found, &part, (s + 1) as u8);
    }
    found
}

// Rule 5. The holding times that it works out are left for the steps behind it.
fn refused_by_overrun(laid: &Laid, holdings: &mut [[u64; Table::MOST]; Table::MOST]) -> Judged
    requires holdings_value { holdings.old ≡ replicate most (replicate most 0) }
    ensures value { result ≡ judged_by (system_in laid.now.n laid.now.m laid.now.grid.now) Overrun }
    ensures held_in { result ≡ admitted → HeldIn (system_in laid.now.n laid.now.m laid.now.grid.now) holdings.new }
{
    for s in 0..laid.n {
        let block = &laid.grid[s];
        let held = held_by(&Part { block, m: laid.m });
        if u64::from(period(block)) < u64::from(budget(block)) + held.largest {
            let subsystem = (s + 1) as u8;
            return refused(Rule::Overrun, subsystem);
        }
        // An array field is put in a variable before it is stored: the borrow checker does not cover the direct form yet.
        let each = held.each;
        holdings[s] = each;
    }
    Ok(())
}

// The judgement of a grid whose counts rule 1 has passed. Where it is admitted, X(s, l) of each subsystem and resource is left
// in `holdings`.
pub fn judge_grid(laid: &Laid, holdings: &mut [[u64; Table::MOST]; Table::MOST]) -> Judged
    requires { holdings.old ≡ replicate most (replicate most 0) }
    ensures value { result ≡ judge_of (system_in laid.now.n laid.now.m laid.now.grid.now) }
    ensures held_in { result ≡ admitted → HeldIn (system_in laid.now.n laid.now.m laid.now.grid.now) holdings.new }
{
    refused_in_order(laid)?;
    refused_by_overrun(laid, holdings)
}

// The judgement of any table: admitted, or refused by the first rule that is broken, at the first place that breaks it.
pub fn judge(t: Table) -> Judged
    ensures { result ≡ judge_of (meaning t) }
{
    judge_counts(t)?;
    let mut grid = [[[0u32; LINE]; BLOCK]; Table::MOST];
    lay_out(t, &mut grid);
    let mut holdings = [[0u64; Table::MOST]; Table::MOST];
    let laid = Laid {
        grid: &grid,
        n: usize::from(t.count),
        m: usize::from(t.resources),
    };
    judge_grid(&laid, &mut holdings)
}

// The judgement of a table that is to hold one subsystem: any other N is refused by rule 1 at 0 0.
pub fn judge_one(t: Table) -> Judged
    ensures { result ≡ judge_one_of (meaning t) }
{
    if t.count == 1 {
        return judge(t);
    }
    refused(Rule::Counts, 0)
}
