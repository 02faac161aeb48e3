// The library for C and Rust, declared in include/planner.h: a slice passes as a pointer, which is never null, and a length, results
// through pointers to numbers. Each function answers document 01's number, 0 where there is none. Raw, since a C program calls the
// header's functions over these, which take a null pointer for an empty slice.
// Kept: results through pointers, 0 where there is none: the C interface (include/planner.h).
#![tactic(auto)]

ghost use Rattle.std.specs.Prelude.{◌≡◌, length};
ghost use Rattle.sheet.specs.Check.{check_of, number_of, place_of, words_of, fluents_named};
ghost use Rattle.sheet.specs.Notes.{notes_of};
ghost use Rattle.planner.specs.Answers.{answer_of, trace_of, plan_work, index_of, reply_of, replay_work};
ghost use Rattle.lookup.specs.LookUp.{look_of, look_number, look_place, look_size, look_initial};
ghost use Rattle.planner.specs.Numbers.{plan_number, plan_place, plan_moves, plan_transitions, reply_number, reply_place, reply_yes, sizes_number, sizes_place, sizes_fluents, sizes_bound};
ghost use Rattle.planner.specs.Sizes.{sizes_of};

#[unsafe(no_mangle)]
pub extern "C" fn planner_raw_check(
    sheet: &[u8],
    words: &mut usize,
    names: &mut u32,
    place: &mut usize,
) -> u32
    ensures number { result ≡ number_of (check_of sheet.now) }
    ensures words { words.new ≡ words_of (check_of sheet.now) }
    ensures names { names.new ≡ fluents_named (check_of sheet.now) }
    ensures place { place.new ≡ place_of (check_of sheet.now) }
{
    match planner::check(sheet) {
        Ok(found) => {
            *words = found.words;
            *names = found.names;
            *place = 0;
            0
        }
        Err(why) => {
            *words = 0;
            *names = 0;
            *place = why.place;
            why.number
        }
    }
}

#[unsafe(no_mangle)]
pub extern "C" fn planner_raw_sizes(
    sheet: &[u8],
    fluents: &mut usize,
    bound: &mut usize,
    place: &mut usize,
) -> u32
    ensures number { result ≡ sizes_number (sizes_of sheet.now) }
    ensures fluents { fluents.new ≡ sizes_fluents (sizes_of sheet.now) }
    ensures bound { bound.new ≡ sizes_bound (sizes_of sheet.now) }
    ensures place { place.new ≡ sizes_place (sizes_of sheet.now) }
{
    match planner::sizes(sheet) {
        Ok(size) => {
            *fluents = size.fluents;
            *bound = size.bound;
            *place = 0;
            0
        }
        Err(why) => {
            *fluents = 0;
            *bound = 0;
            *place = why.place;
            why.number
        }
    }
}

#[unsafe(no_mangle)]
pub extern "C" fn planner_raw_plan(
    sheet: &[u8],
    work: &mut [u32],
    trace: &mut [u16],
    index: &mut [u32],
    n: &mut usize,
    t: &mut usize,
    place: &mut usize,
) -> u32
    ensures number { result ≡ plan_number (answer_of sheet.now (length work.old) (length trace.old)) }
    ensures moves { n.new ≡ plan_moves (answer_of sheet.now (length work.old) (length trace.old)) }
    ensures transitions { t.new ≡ plan_transitions (answer_of sheet.now (length work.old) (length trace.old)) }
    ensures place { place.new ≡ plan_place (answer_of sheet.now (length work.old) (length trace.old)) }
    ensures trace { trace.new ≡ trace_of sheet.now (length work.old) trace.old }
    ensures work { work.new ≡ plan_work sheet.now work.old (length trace.old) }
    ensures index { index.new ≡ index_of sheet.now (length work.old) (length trace.old) index.old }
{
    match planner::plan(sheet, work, trace, index) {
        Ok(plan) => {
            *n = plan.n;
            *t = plan.t;
            *place = 0;
            0
        }
        Err(why) => {
            *n = 0;
            *t = 0;
            *place = why.place;
            why.number
        }
    }
}

#[unsafe(no_mangle)]
pub extern "C" fn planner_raw_replay(
    sheet: &[u8],
    history: &[u16],
    work: &mut [u32],
    yes: &mut u32,
    place: &mut usize,
) -> u32
    ensures number { result ≡ reply_number (reply_of sheet.now history.now (length work.old)) }
    ensures yes { yes.new ≡ reply_yes (reply_of sheet.now history.now (length work.old)) }
    ensures place { place.new ≡ reply_place (reply_of sheet.now history.now (length work.old)) }
    ensures work { work.new ≡ replay_work sheet.now work.old }
{
    match planner::replay(sheet, history, work) {
        Ok(accepted) => {
            *yes = u32::from(accepted);
            *place = 0;
            0
        }
        Err(why) => {
            *yes = 0;
            *place = why.place;
            why.number
        }
    }
}

#[unsafe(no_mangle)]
pub extern "C" fn planner_raw_look_up(
    sheet: &[u8],
    fluent: usize,
    size: &mut usize,
    initial: &mut usize,
    place: &mut usize,
) -> u32
    ensures number { result ≡ look_number (look_of sheet.now fluent) }
    ensures size { size.new ≡ look_size (look_of sheet.now fluent) }
    ensures initial { initial.new ≡ look_initial (look_of sheet.now fluent) }
    ensures place { place.new ≡ look_place (look_of sheet.now fluent) }
{
    match planner::look_up(sheet, fluent) {
        Ok(found) => {
            *size = found.size;
            *initial = found.initial;
            *place = 0;
            0
        }
        Err(why) => {
            *size = 0;
            *initial = 0;
            *place = why.place;
            why.number
        }
    }
}

// How many bytes of notes stand at the sheet's start.
#[unsafe(no_mangle)]
pub extern "C" fn planner_raw_notes(sheet: &[u8], bytes: &mut usize, place: &mut usize) -> u32
    ensures number { result ≡ number_of (check_of sheet.now) }
    ensures bytes { bytes.new ≡ length (notes_of sheet.now) }
    ensures place { place.new ≡ place_of (check_of sheet.now) }
{
    let mut number = 0u32;
    let part = planner::notes(sheet, &mut number, place);
    *bytes = part.len();
    number
}
