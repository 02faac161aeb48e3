// What is written of a configuration and of a transition.
use engine::Findings;
use golog::State;
use std::io;

// The tag of a over b.
const OVER: u32 = 9;

fn yes_or_no(b: bool) -> &'static str {
    if b { "yes" } else { "no" }
}

// The depth, the two fluents' values, whether interrupts run, whether the configuration is final, whether a transition may lead to a final
// one, and how many transitions there are.
pub fn configuration(rt: &impl Print, d: usize, st: State, x: Findings) -> io::Result<()> {
    let [a, b, ..] = st.values;
    let running = yes_or_no(st.running);
    let done = yes_or_no(x.done);
    let soon = x.soon;
    let n = x.first.end;
    print!(rt;
        "  depth {d}: values {a} {b}, running {running}, final {done}, soon {soon}, transitions {n}, rest"
    )
}

// A node of the remaining program, by its tag and the number of its record.
fn node(rt: &impl Print, tag: u32, record: usize) -> io::Result<()> {
    match tag {
        words::GONE => print!(rt; " nil"),
        words::LEAF => print!(rt; " record {record}"),
        words::SEQUENCE => print!(rt; " sequence"),
        words::TOGETHER => print!(rt; " together"),
        OVER => print!(rt; " over"),
        _ => print!(rt; " ?"),
    }
}

// So many nodes from `at` on, each construct before its parts.
pub fn nodes(rt: &impl Print, work: &[u32], at: usize, n: usize) -> io::Result<()> {
    for x in work.get(at..).unwrap_or(&[]).chunks_exact(3).take(n) {
        node(rt, words::tag_at(x, 0), words::record_at(x, 0))?;
    }
    println!(rt)
}

// A transition taken: which one, and its entry.
pub fn transition(rt: &impl Print, k: usize, entry: u32) -> io::Result<()> {
    println!(rt; "    transition {k}, entry {entry}")
}
