// What is written of a case.
use std::io;

pub fn text(rt: &impl Print, label: &[u8]) -> io::Result<()> {
    rt.write_all(label)
}

// `ok`, the words of work and, where formulas name fluents, `names` and their set; or the number and the place.
pub fn answer(rt: &impl Print, s: &[u8]) -> io::Result<()> {
    match sheet::check(s) {
        Ok(found) => {
            let words = found.words;
            print!(rt; ": ok {words}")?;
            let names = found.names;
            if names != 0 {
                print!(rt; " names {names}")?;
            }
        }
        Err(why) => print!(rt; ": {why}")?,
    }
    println!(rt)
}

// The first and the last byte, where there are any.
fn ends(rt: &impl Print, t: &[u8]) -> io::Result<()> {
    let (Some(first), Some(last)) = (t.first(), t.last()) else {
        return Ok(());
    };
    print!(rt; " first {first}, last {last},")
}

// The notes' length, their first and last byte, and the number and place beside them.
pub fn notes(rt: &impl Print, s: &[u8]) -> io::Result<()> {
    let mut number: u32 = 0;
    let mut place: usize = 0;
    let found = sheet::notes(s, &mut number, &mut place);
    let bytes = found.len();
    print!(rt; "  notes: {bytes} bytes,")?;
    ends(rt, found)?;
    println!(rt; " number {number}, place {place}")
}

// A trailer in hexadecimal.
pub fn trailer(rt: &impl Print, t: &[u8]) -> io::Result<()> {
    print!(rt; "  trailer:")?;
    for x in t {
        print!(rt; " {x:02x}")?;
    }
    println!(rt)
}
