// Runs the figures that document 01 holds against the rules, and two of its slips that look right, and prints each with a name.
// The file `stdout` has what they must be, written from that document by hand.
#![tactic(auto)]

mod print;
mod tables;

ghost use Rattle.std.specs.Prelude.{◌≡◌, ◌≤◌};
ghost use Rattle.table.specs.Limits.{most};

use asked::job_end;
use holding::Part;
use report::Report;
use row::Row;
use std::io;
use supply::Share;
use table::grid::{BLOCK, LINE, lay_out_subsystem};
use table::{Subsystem, Table};

// A line with the supply of a window of x ticks.
fn supply(out: &impl Print, share: &Share, x: u32) -> io::Result<()> {
    let given = share.supply_in(x);
    println!(out;
        "supply P {} Q {} E {} at {x}: {given}",
        share.period, share.budget, share.end
    )
}

// The last line of these has P for E, where A's task 1 would see 14.
fn supplies(out: &impl Print) -> io::Result<()> {
    let first = Share {
        period: 50,
        budget: 10,
        end: 44,
    };
    supply(out, &first, 74)?;
    supply(out, &first, 75)?;
    supply(out, &first, 84)?;
    supply(out, &first, 124)?;
    supply(out, &first, 133)?;
    supply(out, &first, 134)?;
    let third = Share {
        period: 70,
        budget: 30,
        end: 60,
    };
    supply(out, &third, 99)?;
    supply(out, &third, 100)?;
    let whole = Share {
        period: 10,
        budget: 10,
        end: 10,
    };
    supply(out, &whole, 17)?;
    let late = Share {
        period: 50,
        budget: 10,
        end: 50,
    };
    supply(out, &late, 134)
}

// Where a job ends, 0 where it does not.
fn end(t: Table, s: u8, k: u32, l: u8) -> u64 {
    u64::from(job_end(t, s, k, l).unwrap_or(0))
}

// Its response: the end, from the release at k × P on.
fn response(t: Table, s: u8, k: u32, l: u8, period: u32) -> u64 {
    end(t, s, k, l).saturating_sub(u64::from(k) * u64::from(period))
}

fn ends_of_job_0(out: &impl Print, t: Table) -> io::Result<()> {
    print::figure(
        out,
        "A subsystem 3 job 0 resource 1 ends at: ",
        end(t, 3, 0, 1),
    )?;
    print::figure(
        out,
        "A subsystem 3 job 0 resource 2 ends at: ",
        end(t, 3, 0, 2),
    )?;
    print::figure(out, "A subsystem 3 job 0 budget ends at: ", end(t, 3, 0, 0))
}

fn responses_of_job_1(out: &impl Print, t: Table) -> io::Result<()> {
    print::figure(
        out,
        "A subsystem 3 job 1 resource 1 responds in: ",
        response(t, 3, 1, 1, 70),
    )?;
    print::figure(
        out,
        "A subsystem 3 job 1 resource 2 responds in: ",
        response(t, 3, 1, 2, 70),
    )
}

fn jobs_of_a(out: &impl Print) -> io::Result<()> {
    let t = tables::table_a(134, 4);
    ends_of_job_0(out, t)?;
    responses_of_job_1(out, t)
}

// The row of subsystem s, from 1.
fn row(report: Report, s: usize) -> Row
    requires { (1 ≤ s) × (s ≤ most) }
{
    report.rows[s - 1]
}

fn variations_of_a(out: &impl Print) -> io::Result<()> {
    let longer = report::analyse(tables::table_a(134, 5));
    print::outcome(
        out,
        "A with c2 of subsystem 3 at 5, row 3: ",
        row(longer, 3),
    )?;
    let sooner = report::analyse(tables::table_a(133, 4));
    if sooner.accepted {
        println!(out; "A with D of subsystem 1 at 133: accepted")?;
    } else {
        println!(out; "A with D of subsystem 1 at 133: rejected")?;
    }
    let first = row(sooner, 1);
    print::figure(
        out,
        "A with D of subsystem 1 at 133, row 1: local ",
        u64::from(first.failing),
    )
}

// A line with the response of a job of table C's subsystem 2.
fn response_of_c(out: &impl Print, t: Table, k: u32) -> io::Result<()> {
    let ticks = response(t, 2, k, 1, 70);
    println!(out; "C subsystem 2 job {k} responds in: {ticks}")
}

fn table_c(out: &impl Print) -> io::Result<()> {
    let t = tables::table_c();
    let second = row(report::analyse(t), 2);
    print::figure(out, "C row 2: L ", u64::from(second.active))?;
    print::figure(out, "C row 2: jobs ", u64::from(second.jobs))?;
    response_of_c(out, t, 0)?;
    response_of_c(out, t, 1)?;
    response_of_c(out, t, 2)?;
    response_of_c(out, t, 3)?;
    response_of_c(out, t, 4)?;
    print::outcome(out, "C row 2: ", second)?;
    print::figure(out, "C row 2: job ", u64::from(second.job))
}

// rc of resource 1, from 1, in a subsystem with two tasks.
fn inner_ceiling(sub: Subsystem) -> u64
    requires { sub.count ≡ 2 }
{
    let mut block = [[0u32; LINE]; BLOCK];
    lay_out_subsystem(sub, &mut block);
    let part = Part {
        block: &block,
        m: 1,
    };
    let ceiling = holding::inner_ceiling(&part, 0) + 1;
    // `u64::from` takes no usize.
    ceiling as u64
}

// X of subsystem 1, alone in its table with one resource.
fn holding_of(sub: Subsystem) -> u64 {
    let alone = row(report::analyse(tables::of_one(1, sub)), 1);
    u64::from(alone.holding)
}

// X of two tasks, and what a second access to the resource changes.
fn holdings(out: &impl Print) -> io::Result<()> {
    let second = tables::two_tasks(0, 2);
    print::figure(out, "task 2 with c 2: X ", holding_of(second))?;
    let both = tables::two_tasks(1, 2);
    print::figure(
        out,
        "task 1 with c 1, task 2 with c 2: rc ",
        inner_ceiling(both),
    )?;
    print::figure(
        out,
        "task 1 with c 1, task 2 with c 2: X ",
        holding_of(both),
    )
}

fn judgements(out: &impl Print) -> io::Result<()> {
    let held_4 = report::analyse(tables::held_for(4));
    print::judgement(out, "P 10 Q 6 c 4: ", held_4.judged)?;
    let held_5 = report::analyse(tables::held_for(5));
    print::judgement(out, "P 10 Q 6 c 5: ", held_5.judged)
}

fn no_active_period(out: &impl Print) -> io::Result<()> {
    let full = report::analyse(tables::no_room_below());
    print::outcome(out, "P 10 Q 10 above P 10 Q 1, row 1: ", row(full, 1))?;
    print::outcome(out, "P 10 Q 10 above P 10 Q 1, row 2: ", row(full, 2))
}

fn empty_file(out: &impl Print) -> io::Result<()> {
    let reading = reader::read_table(b"");
    let refusal = stored::file_refusal(reading.answer);
    println!(out;
        "empty file: refused {} at {}",
        refusal.number, refusal.offset
    )
}

fn main(rt: HostRuntime) -> io::Result<()> {
    let out = &rt;
    supplies(out)?;
    jobs_of_a(out)?;
    variations_of_a(out)?;
    table_c(out)?;
    holdings(out)?;
    judgements(out)?;
    no_active_period(out)?;
    empty_file(out)
}
