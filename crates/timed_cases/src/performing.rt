// Document 02, F-3: an action with a range of 512 effects is performed in one pass and in a pass for each fluent. What the formulas say is
// told before: it is looked up in what is timed.
ghost use Rattle.std.specs.Prelude.{◌≡◌};
ghost use Rattle.records.specs.Records.{effect_at};
ghost use Rattle.golog.specs.World.{changed};
ghost use Rattle.state.specs.Truths.{said_by};
ghost use Rattle.timed_cases.specs.Ranges.{InEffects};

use crate::{clock, each_fluent, report, writing};
use records::Action;
use sheet::Sheet;
use std::io;
use std::time::CpuClock;

// How often an action is performed in a round, and how many rounds there are.
const TIMES: usize = 1000;

const ROUNDS: usize = 10;

// Values, and the microseconds that it took to come to them.
#[derive(Clone, Copy, Debug, PartialEq, Eq)]
struct Round {
    values: [u8; 32],
    time: u64,
}

// The times of the quickest round in each way, and whether values were the same in all rounds.
#[derive(Clone, Copy, Debug, PartialEq, Eq)]
struct Times {
    one_pass: u64,
    each_fluent: u64,
    same: bool,
}

// Performs the action again and again, each time from the values that it gave.
fn perform_often<F: Fn([u8; 32]) -> [u8; 32]>(
    rt: &impl CpuClock,
    perform: F,
    values: [u8; 32],
) -> Round
    requires { F.IsAlwaysCallable perform }
{
    let begin = clock::microseconds(rt);
    let mut v = values;
    for _ in 0..TIMES {
        let new = perform(v);
        v = new;
    }
    Round {
        values: v,
        time: clock::since(rt, begin),
    }
}

// Both ways in turn, round by round.
fn measure(
    rt: &impl CpuClock,
    effects: &[u8],
    r: Action,
    n: usize,
    truths: &[bool],
    values: [u8; 32],
) -> Times
    requires { InEffects effects.now r n }
{
    let mut one_pass = u64::MAX;
    let mut each_fluent = u64::MAX;
    let mut same = true;
    for _ in 0..ROUNDS {
        let a = perform_often(
            rt,
            |v|
                requires { InEffects effects.now r n }
            { state::new_values(effects, r, n, truths, v) },
            values,
        );
        let b = perform_often(
            rt,
            |v|
                requires { InEffects effects.now r n }
            { each_fluent::new_values(effects, r, n, truths, v) },
            values,
        );
        one_pass = one_pass.min(a.time);
        each_fluent = each_fluent.min(b.time);
        same = same & (a.values == b.values);
    }
    Times {
        one_pass,
        each_fluent,
        same,
    }
}

// Writes whether one pass takes at most half as long. Times go to standard error.
fn tell_times(rt: &(impl Print + Eprint), t: Times) -> io::Result<()> {
    report::answer(rt, "  the same values in every round", t.same)?;
    report::answer(
        rt,
        "  one pass takes at most half as long",
        clock::at_most(t.one_pass, t.each_fluent / 2),
    )?;
    report::time(rt, "one pass, a thousand times", t.one_pass)?;
    report::time(
        rt,
        "a pass for each fluent, a thousand times",
        t.each_fluent,
    )?;
    report::ratio(
        rt,
        "one pass to a pass for each fluent",
        t.one_pass,
        t.each_fluent,
    )
}

// The range performed once in each way, and timed if asked.
fn compare(
    rt: &(impl Print + Eprint + CpuClock),
    effects: &[u8],
    r: Action,
    n: usize,
    truths: &[bool],
    values: [u8; 32],
    timed: bool,
) -> io::Result<()>
    requires { InEffects effects.now r n }
{
    let a = state::new_values(effects, r, n, truths, values);
    let b = each_fluent::new_values(effects, r, n, truths, values);
    report::list(rt, "values", n, &a)?;
    report::answer(rt, "  the same values in both ways", a == b)?;
    if timed {
        tell_times(rt, measure(rt, effects, r, n, truths, values))?;
    }
    Ok(())
}

// The first action of an accepted sheet, from the initial values.
fn perform_first(rt: &(impl Print + Eprint + CpuClock), s: &Sheet, timed: bool) -> io::Result<()> {
    let l = s.found().layout;
    if l.a == 0 {
        return println!(rt; "no action");
    }
    let st = engine::initial_of(s);
    let mut truths = [false; sheet::MOST_FORMULAS];
    state::fill_truths(s.formulas(), l.q, st, &mut truths);
    let r = records::action_at(s.actions(), 0);
    compare(rt, s.effects(), r, l.f, &truths, st.values, timed)
}

fn case(
    rt: &(impl Print + Eprint + CpuClock),
    title: &str,
    from: usize,
    timed: bool,
) -> io::Result<()> {
    println!(rt; "{title}")?;
    let mut s = [0u8; writing::BYTES];
    writing::write(&mut s, from);
    match Sheet::open(&s) {
        Ok(sheet) => perform_first(rt, &sheet, timed),
        Err(_) => println!(rt; "refused"),
    }
}

pub fn cases(rt: &(impl Print + Eprint + CpuClock)) -> io::Result<()> {
    case(rt, "512 effects on 32 fluents, none holds", 512, true)?;
    case(rt, "the last 212 hold", 300, false)?;
    case(rt, "the last 20 hold", 492, false)?;
    case(rt, "all hold", 0, false)
}
