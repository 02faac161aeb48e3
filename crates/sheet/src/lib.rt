// The sheet: its trailer, its five tables as parts, the nine checks, and the notes.
#![tactic(auto)]

ghost use Rattle.std.specs.Prelude.{◌≡◌, ℕ, ◌+◌, ◌*◌, ◌≤◌, length, Err, IfOk, IfErr};
ghost use Rattle.records.specs.Records.{ProgramTable};
ghost use Rattle.sheet.specs.Trailer.{trailer_of, limits_ok, WithinLimits, record_bytes, distance_ok};
ghost use Rattle.sheet.specs.Layout.{layout_in, layout_of, LaidOut, fluents_in, formulas_in, effects_in, actions_in, programs_in};
ghost use Rattle.sheet.specs.Check.{Checked, names_in, cause_number, refusal_of, refused_at, tables_checked, height_checked, check_of, Accepts, number_of, place_of};
ghost use Rattle.sheet.specs.Inspection.{unless, inspection_in, inspected_in, inspect_of, Of};
ghost use Rattle.sheet.specs.Notes.{notes_of};

use std::fmt;
use std::marker::Model;

// The bytes of the trailer, and what its last two say.
const TRAILER: usize = 18;

const MAGIC: usize = 0x5142;

// The most fluents, formulas, effects, actions, program records and transitions that a sheet may count.
const MOST_FLUENTS: usize = records::FLUENTS;

pub const MOST_FORMULAS: usize = records::FORMULAS;

const MOST_EFFECTS: usize = 512;

const MOST_ACTIONS: usize = records::ACTIONS;

const MOST_PROGRAMS: usize = 256;

pub const MOST_TRANSITIONS: usize = 64;

// The most height that a program may have.
const MOST_HEIGHT: usize = 16;

// Document 01: "the trailer", the last 18 bytes.
#[derive(Clone, Copy)]
pub struct Trailer {
    pub f: usize,
    pub q: usize,
    pub e: usize,
    pub a: usize,
    pub p: usize,
    pub d: usize,
    pub distance: usize,
    pub magic: usize,
}

// The numbers of records, the bound, and the index at which each table starts; `end` is the trailer's.
#[derive(Clone, Copy)]
pub struct Layout {
    pub f: usize,
    pub q: usize,
    pub e: usize,
    pub a: usize,
    pub p: usize,
    pub d: usize,
    pub fluents: usize,
    pub formulas: usize,
    pub effects: usize,
    pub actions: usize,
    pub programs: usize,
    pub end: usize,
}

// Why a call turns its input away.
#[derive(Clone, Copy, Debug, PartialEq, Eq)]
pub enum Cause {
    Trailer = 1,
    Limits,
    Distance,
    Fluent,
    Formula,
    Effect,
    Action,
    Program,
    Height,
    ShortTrace,
    ShortWork,
    NoFluent,
    NoPlan,
    NoPlanInBound,
}

impl Cause {
    // Document 01's number of a cause.
    pub fn number(self) -> u32
        ensures { result ≡ cause_number self }
    {
        self as u32
    }
}

// Document 01's number of a cause, and its place, which is 0 unless a record is at fault.
// Kept: `view::find` hands on whatever refusal a view holds (`found_from`), whose fields are public, and C gets number and place as they stand
// (clauses `number` and `place` of `planner_raw_look_up` and others).
#[derive(Clone, Copy, Debug, PartialEq, Eq)]
pub struct Refusal {
    pub number: u32,
    pub place: usize,
}

impl Refusal {
    pub fn at(cause: Cause, place: usize) -> Refusal
        ensures { result ≡ refusal_of (cause_number cause) place }
    {
        Refusal {
            number: cause.number(),
            place,
        }
    }
}

impl fmt::Display for Refusal {
    fn fmt<W: fmt::Write>(&self, f: &mut fmt::Formatter<W>) -> fmt::Result {
        let Refusal { number, place } = *self;
        write!(f, "{number} {place}")
    }
}

impl From<Cause> for Refusal {
    ghost use Rattle.std.specs.Prelude.{◌≡◌};
    ghost use Rattle.sheet.specs.Check.{cause_number, refusal_of};

    ghost from_gives = { λ cause why. why ≡ refusal_of (cause_number cause) 0 };

    fn from(cause: Cause) -> Refusal {
        Refusal::at(cause, 0)
    }
}

// What a check tells of an accepted sheet: the words of work that planning and replay require, and the set of the fluents that formulas
// name, bit x for fluent x.
#[derive(Clone, Copy, Debug, PartialEq, Eq)]
pub struct Acceptance {
    pub words: usize,
    pub names: u32,
}

// What was found of an accepted sheet: where its tables lie, whether there are interrupts, the words of a frame and of the work area.
#[derive(Clone, Copy)]
pub struct Inspection {
    pub layout: Layout,
    pub interrupts: bool,
    pub frame: usize,
    pub words: usize,
}

#[tactic(auto, unfolding(crate::specs::Trailer::trailer_in))]
pub fn read_trailer(s: &[u8]) -> Trailer
    requires { 18 ≤ length s.now }
    ensures { result ≡ trailer_of s.now }
{
    let end = s.len();
    let start = end - TRAILER;
    let t = &s[start..end];
    Trailer {
        f: records::read16(t, 0),
        q: records::read16(t, 2),
        e: records::read16(t, 4),
        a: records::read16(t, 6),
        p: records::read16(t, 8),
        d: records::read16(t, 10),
        distance: records::read32(t, 12),
        magic: records::read16(t, 16),
    }
}

#[tactic(auto, unfolding(crate::specs::Trailer::limits_ok))]
fn limits_ok(t: Trailer) -> bool
    ensures { result ≡ limits_ok t }
{
    (1 <= t.f)
        & (t.f <= MOST_FLUENTS)
        & (t.q <= MOST_FORMULAS)
        & (t.e <= MOST_EFFECTS)
        & (t.a <= MOST_ACTIONS)
        & (1 <= t.p)
        & (t.p <= MOST_PROGRAMS)
        & (t.d <= MOST_TRANSITIONS)
}

// `room` is the number of bytes before the trailer.
#[tactic(auto, unfolding(crate::specs::Trailer::distance_ok))]
fn distance_ok(t: Trailer, room: usize) -> bool
    requires { WithinLimits t }
    ensures { result ≡ distance_ok t room }
{
    (t.distance == 2 * t.f + 6 * t.q + 4 * t.e + 6 * t.a + 8 * t.p) & (t.distance <= room)
}

#[tactic(auto, unfolding(crate::specs::Layout::layout_in))]
fn lay_out(t: Trailer, room: usize) -> Layout
    requires within_limits { WithinLimits t }
    requires distance_value { (t.distance ≡ record_bytes t) × (t.distance ≤ room) }
    ensures answer { result ≡ layout_in t room }
    ensures inside { LaidOut result (room + 18) }
{
    let fluents = room - t.distance;
    let formulas = fluents + 2 * t.f;
    let effects = formulas + 6 * t.q;
    let actions = effects + 4 * t.e;
    let programs = actions + 6 * t.a;
    let end = programs + 8 * t.p;
    Layout {
        f: t.f,
        q: t.q,
        e: t.e,
        a: t.a,
        p: t.p,
        d: t.d,
        fluents,
        formulas,
        effects,
        actions,
        programs,
        end,
    }
}

// Refuses record i of a table of n, unless it is past the end.
#[tactic(auto, unfolding(crate::specs::Check::refused_at))]
fn unless_faulty(cause: Cause, i: usize, n: usize) -> Result<(), Refusal>
    ensures { (j : ℕ) (next : Checked) → i ≡ j → unless result next ≡ refused_at (cause_number cause) j n next }
{
    if i < n {
        return Err(Refusal::at(cause, i));
    }
    Ok(())
}

// The first table with a record that breaks its rule, and the lowest such record.
#[tactic(auto, unfolding(crate::specs::Check::tables_checked))]
fn check_tables(s: &[u8], l: Layout) -> Result<(), Refusal>
    requires { LaidOut l (length s.now) }
    ensures { (next : Checked) → unless result next ≡ tables_checked s.now l next }
{
    let sizes = &s[l.fluents..l.formulas];
    unless_faulty(Cause::Fluent, rules::fluents(sizes, l.f), l.f)?;
    unless_faulty(
        Cause::Formula,
        rules::formulas(sizes, l.f, &s[l.formulas..l.effects], l.q),
        l.q,
    )?;
    unless_faulty(
        Cause::Effect,
        rules::effects(sizes, l.f, l.q, &s[l.effects..l.actions], l.e),
        l.e,
    )?;
    unless_faulty(
        Cause::Action,
        rules::actions(l.q, l.e, &s[l.actions..l.programs], l.a),
        l.a,
    )?;
    unless_faulty(
        Cause::Program,
        rules::programs(l.q, l.a, &s[l.programs..l.end], l.p),
        l.p,
    )
}

// What is found where every record keeps its rule, unless the program is too high.
#[tactic(auto, unfolding(crate::specs::Check::height_checked, height::specs::Work::levels))]
fn measure(s: &[u8], l: Layout) -> Result<Inspection, Refusal>
    requires { LaidOut l (length s.now) }
    ensures { result ≡ inspected_in s.now l (height_checked s.now l) }
{
    let programs = &s[l.programs..l.end];
    let h = height::height(programs, l.p);
    if MOST_HEIGHT < h {
        return Err(Refusal::from(Cause::Height));
    }
    let interrupts = height::has_interrupts(programs, l.p);
    let frame = height::frame_words(height::levels_from(h, interrupts), l.d);
    Ok(Inspection {
        layout: l,
        interrupts,
        frame,
        words: height::work_words(frame, l.d),
    })
}

// Checks a sheet, and keeps what was found.
#[tactic(auto, using(crate::proofs::Checking::within, crate::proofs::Checking::lies), unfolding(crate::specs::Check::check_of, crate::specs::Check::trailer_checked, crate::specs::Layout::layout_of))]
pub fn inspect(s: &[u8]) -> Result<Inspection, Refusal>
    ensures { result ≡ inspect_of s.now }
{
    let n = s.len();
    if n < TRAILER {
        return Err(Refusal::from(Cause::Trailer));
    }
    let t = read_trailer(s);
    if t.magic != MAGIC {
        return Err(Refusal::from(Cause::Trailer));
    }
    if !limits_ok(t) {
        return Err(Refusal::from(Cause::Limits));
    }
    let room = n - TRAILER;
    if !distance_ok(t, room) {
        return Err(Refusal::from(Cause::Distance));
    }
    let l = lay_out(t, room);
    check_tables(s, l)?;
    measure(s, l)
}

// Checks a sheet.
pub fn check(s: &[u8]) -> Result<Acceptance, Refusal>
    ensures { result ≡ check_of s.now }
{
    let sheet = Sheet::open(s)?;
    Ok(Acceptance {
        words: sheet.found().words,
        names: sheet.names(),
    })
}

// The notes: the caller's own bytes ahead of the first record. Under a number, the empty part at the slice's start.
// Kept: the clauses `answer` and `borrowed` speak of the part handed out under a number too; C gets its length, and number and place, from
// `planner_raw_notes`.
pub fn notes<'a>(s: &'a [u8], number: &mut u32, place: &mut usize) -> &'a [u8]
    ensures answer { result.now ≡ notes_of s.now }
    ensures borrowed { result.ref_ptr ≡ s.entry.ref_ptr }
    ensures number { number.new ≡ number_of (check_of s.now) }
    ensures place { place.new ≡ place_of (check_of s.now) }
{
    match inspect(s) {
        Ok(found) => {
            *number = 0;
            *place = 0;
            &s[..found.layout.fluents]
        }
        Err(why) => {
            *number = why.number;
            *place = why.place;
            &s[..0]
        }
    }
}

// An accepted sheet.
#[derive(Drop)]
pub struct Sheet<'a> {
    bytes: &'a [u8],
    found: Inspection,
}

impl<'a> Model for Sheet<'a> {
    ghost use Rattle.std.specs.Prelude.{◌≡◌, ℕ, List, Ok};
    ghost use Rattle.sheet.specs.Inspection.{inspect_of};

    ghost Value = { List ℕ };

    ghost view = { λ s. s.bytes.now };

    ghost invariant = { λ s. inspect_of s.bytes.now ≡ Ok s.found };
}

impl<'a> Sheet<'a> {
    // Opens a sheet, which is checked.
    #[tactic(auto, using(crate::proofs::Found::accepted_from, crate::proofs::Found::found_from))]
    pub fn open(bytes: &'a [u8]) -> Result<Sheet<'a>, Refusal>
        ensures accepted { IfOk result (λ s. (s ≡ bytes.now) × Accepts bytes.now) }
        ensures refused { IfErr result (λ why. check_of bytes.now ≡ Err why) }
    {
        let found = inspect(bytes)?;
        Ok(Sheet::inspected(bytes, found))
    }

    // A sheet of which so much was found: nothing is checked again.
    #[tactic(auto, using(crate::proofs::Found::inspected_of))]
    pub fn inspected(bytes: &'a [u8], found: Inspection) -> Sheet<'a>
        requires { Of bytes.now found }
        ensures { result ≡ bytes.now }
    {
        Sheet { bytes, found }
    }

    #[tactic(auto, using(crate::proofs::Found::found_from, crate::proofs::Found::inspected_from, crate::proofs::Found::laid_from))]
    pub fn found(&self) -> Inspection
        ensures of { Of self.now result }
        ensures found { result ≡ inspection_in self.now (layout_of self.now) }
        ensures laid_out { LaidOut result.layout (length self.now) }
    {
        self.found
    }

    pub fn bytes(&self) -> &'a [u8]
        ensures { result.now ≡ self.now }
    {
        self.bytes
    }

    #[tactic(auto, using(crate::proofs::Found::ordered, crate::proofs::Found::fluents_from))]
    pub fn fluents(&self) -> &'a [u8]
        ensures table { result.now ≡ fluents_in self.now (layout_of self.now) }
        ensures long { 2 * (layout_of self.now).f ≤ length result.now }
    {
        let l = self.found.layout;
        &self.bytes[l.fluents..l.formulas]
    }

    #[tactic(auto, using(crate::proofs::Found::ordered, crate::proofs::Found::formulas_from))]
    pub fn formulas(&self) -> &'a [u8]
        ensures table { result.now ≡ formulas_in self.now (layout_of self.now) }
        ensures long { 6 * (layout_of self.now).q ≤ length result.now }
    {
        let l = self.found.layout;
        &self.bytes[l.formulas..l.effects]
    }

    #[tactic(auto, using(crate::proofs::Found::ordered, crate::proofs::Found::effects_from))]
    pub fn effects(&self) -> &'a [u8]
        ensures table { result.now ≡ effects_in self.now (layout_of self.now) }
        ensures long { 4 * (layout_of self.now).e ≤ length result.now }
    {
        let l = self.found.layout;
        &self.bytes[l.effects..l.actions]
    }

    #[tactic(auto, using(crate::proofs::Found::ordered, crate::proofs::Found::actions_from, crate::proofs::Found::accepted_from))]
    pub fn actions(&self) -> &'a [u8]
        ensures table { result.now ≡ actions_in self.now (layout_of self.now) }
        ensures long { 6 * (layout_of self.now).a ≤ length result.now }
        ensures accepted { Accepts self.now }
    {
        let l = self.found.layout;
        &self.bytes[l.actions..l.programs]
    }

    #[tactic(auto, using(crate::proofs::Found::ordered, crate::proofs::Found::programs_from))]
    pub fn programs(&self) -> &'a [u8]
        ensures table { result.now ≡ programs_in self.now (layout_of self.now) }
        ensures long { ProgramTable result.now (layout_of self.now).p }
    {
        let l = self.found.layout;
        &self.bytes[l.programs..l.end]
    }

    // What the formulas name, all together.
    fn names(&self) -> u32
        ensures { result ≡ names_in self.now (layout_of self.now) }
    {
        let l = self.found().layout;
        let sets = named::sets_of(self.formulas(), l.q);
        named::union_of(&sets, l.q)
    }
}
