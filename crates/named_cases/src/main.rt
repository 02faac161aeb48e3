// Reads a sheet from standard input and writes which fluents are named, as sets, bit x for fluent x (document 02, F-5), beside what is said in
// the initial state: for each formula `formula`, its number, whether it holds, its set; for each action `action`, its number, whether it is
// possible, its set; then `sheet`, the words of work and the union. Or `refused`, number, place.
#![tactic(auto)]

ghost use Rattle.std.specs.Prelude.{◌≡◌, length};
ghost use Rattle.engine.specs.Tables.{flag_places};

use sheet::Sheet;
use std::io;

// The bytes that the program reads.
const BYTES: usize = 16384;

// One line: a word, a record's number, what is said of it, and its set.
fn line(rt: &impl Print, word: &str, i: usize, said: bool, set: u32) -> io::Result<()> {
    let digit = u8::from(said);
    println!(rt; "{word} {i} {digit} {set}")
}

// Each of the first n formulas, evaluated in the state that was judged at depth 0.
fn formulas(rt: &impl Print, flags: &[bool], sets: &[u32], n: usize) -> io::Result<()>
    requires { length flags.now ≡ flag_places }
{
    for q in 0..n {
        let e = engine::evaluate(flags, sets, 0, q);
        line(rt, "formula", q, e.holds, e.names)?;
    }
    Ok(())
}

// Each action of the sheet, checked in that state.
fn actions(rt: &impl Print, flags: &[bool], sets: &[u32], s: &Sheet) -> io::Result<()>
    requires { length flags.now ≡ flag_places }
{
    let count = s.found().layout.a;
    for a in 0..count {
        let p = engine::possible_check(flags, sets, s, 0, a);
        line(rt, "action", a, p.possible, p.names)?;
    }
    Ok(())
}

// The formulas and the actions of an accepted sheet.
fn tell(rt: &impl Print, s: &Sheet) -> io::Result<()> {
    let mut flags = [false; engine::FLAGS];
    let mut numbers = [0u32; engine::NUMBERS];
    engine::prepare(&mut flags, &mut numbers, s);
    let st = engine::initial_of(s);
    engine::judge(&mut flags, &numbers, s, st, 0);
    let sets = engine::formula_sets(s);
    formulas(rt, &flags, &sets, s.found().layout.q)?;
    let unions = engine::action_sets(s, &sets);
    actions(rt, &flags, &unions, s)
}

// What the check answers.
fn check(rt: &impl Print, s: &[u8]) -> io::Result<()> {
    match sheet::check(s) {
        Ok(found) => {
            let words = found.words;
            let names = found.names;
            println!(rt; "sheet {words} {names}")
        }
        Err(why) => println!(rt; "refused {why}"),
    }
}

fn report(rt: &impl Print, s: &[u8]) -> io::Result<()> {
    if let Ok(sheet) = Sheet::open(s) {
        tell(rt, &sheet)?;
    }
    check(rt, s)
}

fn main(rt: HostRuntime) -> io::Result<()> {
    let mut input = [0u8; BYTES + 1];
    let n = input::read_full(&mut rt.stdin(), &mut input)?;
    if BYTES < n {
        println!(rt; "too long")
    } else {
        report(&rt, &input[..n])
    }
}
